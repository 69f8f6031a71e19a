// The rows of the two tables, as they are handed in. A row's array has room for eight classes; what is past its own means nothing.
// Two types, since their fields and what they mean differ; what they share is `TableRow`. Array and number stay two fields: a row is `Copy`, and an `ArrayVec` is not.
use plate::frame::Frame;

// One miss-counted task: `misses` tolerated misses, one budget, and the ranks of its `misses + 1` classes.
#[derive(Clone, Copy)]
pub struct MissCountedRow {
    pub gap: u16,
    pub budget: u16,
    pub misses: u8,
    pub ranks: [u8; 8],
}

// One task of frames: the first `count` frames are its cycle.
#[derive(Clone, Copy)]
pub struct FrameRow {
    pub gap: u16,
    pub count: u8,
    pub frames: [Frame; 8],
}
