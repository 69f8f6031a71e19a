// The record of an end: what a tick tells of a job that it ended.

// How a job ended: it was finished, it was cut at its budget, or it was late at its gap. Cut and late are misses.
#[derive(Clone, Copy, PartialEq, Eq, Debug)]
pub enum Way {
    Finished,
    Cut,
    Late,
}

// The end of one job: its task, its own class, how it ended, and at which age.
#[derive(Clone, Copy, PartialEq, Eq, Debug)]
pub struct End {
    pub task: u16,
    pub class: u8,
    pub way: Way,
    pub age: u32,
}
