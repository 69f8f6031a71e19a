// The state of one task in a dispatcher.

// Where a task stands: it has no job, one that is pending, or it is halted and waits to be resumed.
#[derive(Clone, Copy, PartialEq, Eq, Debug)]
pub enum Slot {
    Empty,
    // The job's class, the clock at its release, and the ticks in which it ran.
    Pending { class: u8, released: u32, used: u32 },
    Halted,
}

// A task's slot, and the clock at its last accepted release, if there was one.
#[derive(Clone, Copy, PartialEq, Eq, Debug)]
pub struct Seat {
    pub slot: Slot,
    pub last: Option<u32>,
}
