// What a group and its callers tell each other.

// How a job ended, as far as its group cares: a job that was cut or late is a miss.
#[derive(Clone, Copy, PartialEq, Eq, Debug)]
pub enum Outcome {
    Finish,
    Miss,
}

// What a class says: its rank, its budget, and whether a miss in it is tolerated.
#[derive(Clone, Copy, PartialEq, Eq, Debug)]
pub struct Terms {
    pub rank: u8,
    pub budget: u16,
    pub tolerated: bool,
}

impl Terms {
    // The terms of a class that does not exist.
    pub const NONE: Terms = Terms {
        rank: 0,
        budget: 0,
        tolerated: false,
    };
}
