// One row of a plate. Its rank or frame bytes are a part of the plate; `place` is the bit place of the first of them.
#[derive(Clone, Copy)]
pub enum Row<'a> {
    // A rank for each class, and one budget for all.
    MissCounted {
        gap: u16,
        budget: u16,
        ranks: &'a [u8],
        place: usize,
    },
    // Three bytes for each frame: budget 12 bits, rank 8, spare 4.
    Frames {
        gap: u16,
        frames: &'a [u8],
        place: usize,
    },
}
