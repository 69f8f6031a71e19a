// A slot as the question for it answers.

// Where a task stands, as seen now: a pending job with its class, its age in ticks, and the ticks in which it ran.
#[derive(Clone, Copy, PartialEq, Eq, Debug)]
pub enum View {
    Empty,
    Pending { class: u8, age: u32, used: u32 },
    Halted,
}
