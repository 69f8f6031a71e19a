// A plate and how far it was read.
ghost use Rattle.std.specs.Prelude.{◌≡◌, ◌+◌, ◌*◌, ◌%◌, ◌≤◌};

use super::cursor::Cursor;

// The place of the next row and its number, and how many rows of each kind are to come. At bit place 0 the header has not been
// read yet: a flag would say it a second time, and want an invariant of both.
#[derive(Clone, Copy)]
pub(crate) struct Position<'a> {
    pub(crate) cursor: Cursor<'a>,
    pub(crate) row: u16,
    pub(crate) counted: u8,
    pub(crate) framed: u8,
    // Rows begin at a byte; a miss-counted row takes at most 96 bits and a frame row 208.
    ghost aligned: { cursor.place % 8 ≡ 0 },
    ghost within: { cursor.place + (96 * counted + 208 * framed) ≤ 4880 },
    ghost few: { row + (counted + framed) ≤ 32 },
    ghost counts: { (counted ≤ 16) × (framed ≤ 16) },
}

// How many rows of each kind there are.
#[derive(Clone, Copy, PartialEq, Eq, Debug)]
pub struct Counts {
    pub counted: u8,
    pub framed: u8,
}

// Reads a plate row by row.
#[derive(Drop)]
pub struct Reader<'a> {
    pub(crate) at: Position<'a>,
}
