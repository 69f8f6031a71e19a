// Frames: the classes of a frame row, each with its own budget and rank.
ghost use Rattle.std.specs.Prelude.{◌≡◌, ℕ, ◌+◌, ◌*◌, ◌/◌, ◌^◌, ◌<◌, ◌≤◌, length, IfSome, MatchOption};
ghost use Rattle.plate.specs.Bits.{field};
ghost use Rattle.plate.specs.Faults.{frame_at};
ghost use Rattle.plate.specs.Rows.{frames_of, padded, spare_frame};

use super::cursor::Cursor;
use find::first_of;
use std::array;

// The budget and the rank of one class.
#[derive(Clone, Copy, PartialEq, Eq, Debug)]
pub struct Frame {
    pub budget: u16,
    pub rank: u8,
}

// Frame i, i from 0, of frame bytes.
fn unpack_one(bytes: &[u8], i: usize) -> Frame
    requires { (i < length bytes.now / 3) × (i < 2 ^ 16) }
    ensures { result ≡ record { budget = field bytes.now (24 * i) 12; rank = field bytes.now (24 * i + 12) 8 } }
{
    let mut cursor = Cursor {
        plate: bytes,
        place: 24 * i,
    };
    let budget = cursor.field(12);
    let rank = cursor.field(8);
    Frame {
        budget,
        rank: rank as u8,
    }
}

// The spare bits of frame i.
fn spare(bytes: &[u8], i: usize) -> u16
    requires { (i < length bytes.now / 3) × (i < 2 ^ 16) }
    ensures { result ≡ field bytes.now (24 * i + 20) 4 }
{
    let mut cursor = Cursor {
        plate: bytes,
        place: 24 * i + 20,
    };
    cursor.field(4)
}

// The first frame whose spare bits are not zero. (At most 24 bytes: three private functions ask it, a type would be made for one call.)
pub(crate) fn first_spare(bytes: &[u8]) -> Option<usize>
    requires { length bytes.now ≤ 24 }
    ensures within { IfSome result (λ i. i < length bytes.now / 3) }
    ensures value { result ≡ spare_frame bytes.now (length bytes.now / 3) }
{
    first_of(bytes.len() / 3, |i| spare(bytes, i) > 0)
}

// Frame i, and a frame of zeros past the last.
#[tactic(auto, using(crate::proofs::Frames::frame_or))]
fn frame_or_zeros(bytes: &[u8], i: u16) -> Frame
    ensures { result ≡ frame_at (frames_of bytes.now) i }
{
    nth_frame(bytes, i).unwrap_or(Frame { budget: 0, rank: 0 })
}

// The first eight frames of frame bytes, and frames of zeros past the last: an array as rows hold it, in memory that is fixed.
pub fn unpack(bytes: &[u8]) -> [Frame; 8]
    ensures { result ≡ padded (frames_of bytes.now) }
{
    array::from_fn(|i| frame_or_zeros(bytes, i as u16))
}

// Frame i of the frame bytes of a row, i from 0; none past the last.
#[tactic(auto, using(crate::proofs::Frames::frames_length, crate::proofs::Frames::frames_at))]
pub fn nth_frame(bytes: &[u8], i: u16) -> Option<Frame>
    ensures { MatchOption result (length (frames_of bytes.now) ≤ i)
        (λ f. (i < length (frames_of bytes.now)) × (f ≡ frame_at (frames_of bytes.now) i)) }
{
    let at = usize::from(i);
    if at >= bytes.len() / 3 {
        return None;
    }
    Some(unpack_one(bytes, at))
}
