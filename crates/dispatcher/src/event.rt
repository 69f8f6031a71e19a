// The events that a slot meets.

#[derive(Clone, Copy)]
pub enum Event {
    // A job of this class is released at this clock.
    Release { class: u8, clock: u32 },
    // The job runs for a tick.
    Run,
    // The job is finished.
    Finish,
    // The job's budget is used up, or its gap has passed: a miss, tolerated or not.
    Expiry { tolerated: bool },
    // The task is resumed.
    Resume,
}
