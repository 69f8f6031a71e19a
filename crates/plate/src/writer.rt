// Writing rows, each at its own place in the caller's bytes.
ghost use Rattle.std.specs.Prelude.{◌≡◌, ℕ, ◌+◌, ◌-◌, ◌*◌, ◌/◌, ◌%◌, ◌^◌, ◌<◌, ◌≤◌, true, cond, List, ◌++◌, length, take, is_ok};
ghost use Rattle.std.specs.Option.{option_or};
ghost use Rattle.std.specs.List.{flat_map};
ghost use Rattle.plate.specs.Faults.{frame_at, counted_fault, framed_fault};
ghost use Rattle.denial.specs.Checks.{unless};
ghost use Rattle.plate.specs.Plans.{counts_fault, header_bytes, bytes_of_frame, counted_bytes, framed_bytes};
ghost use Rattle.plate.specs.Writing.{put_at, room_fault, counted_front, framed_front, left, Then, ReadsCounted, ReadsFramed};

use super::frame::Frame;
use super::reading::check_counts;
use super::rules::{check_frames, check_miss_counted};
use arrayvec::ArrayVec;
use denial::{Denial, check_room};

// The fixed bytes of a header and of the two kinds of row differ in their layout, so each has a function; `write_row` puts any of
// them in. The public writers take a row by its numbers, and the caller's buffer with a place: their signatures stay.

// The two bytes of a header. (Two numbers, as the public call takes them.)
fn header_front(counted: u8, framed: u8) -> [u8; 2]
    requires { (counted ≤ 16) × (framed ≤ 16) }
    ensures { result ≡ header_bytes counted framed }
{
    [16 + counted / 4, counted % 4 * 64 + framed]
}

// The fixed bytes of a miss-counted row with so many classes.
fn counted_front(gap: u16, budget: u16, classes: usize) -> [u8; 4]
    requires { (gap ≤ 4095) × ((budget ≤ 4095) × ((1 ≤ classes) × (classes ≤ 8))) }
    ensures { result ≡ counted_front gap budget classes }
{
    [
        (gap / 16) as u8,
        (gap % 16 * 16 + budget / 256) as u8,
        (budget % 256) as u8,
        (classes as u8 - 1) * 32,
    ]
}

// The fixed bytes of a frame row with so many frames.
fn framed_front(gap: u16, count: usize) -> [u8; 2]
    requires { (gap ≤ 4095) × ((1 ≤ count) × (count ≤ 8)) }
    ensures { result ≡ framed_front gap count }
{
    [
        (gap / 16) as u8,
        (gap % 16 * 16) as u8 + (count as u8 - 1) * 2,
    ]
}

// The three bytes of a frame.
fn pack_one(frame: Frame) -> [u8; 3]
    requires { frame.budget ≤ 4095 }
    ensures { result ≡ bytes_of_frame frame }
{
    [
        (frame.budget / 16) as u8,
        (frame.budget % 16 * 16) as u8 + frame.rank / 16,
        frame.rank % 16 * 16,
    ]
}

// The bytes of frames.
fn pack(frames: &[Frame]) -> ArrayVec<u8, 24>
    requires few { length frames.now ≤ 8 }
    requires fit { (i : ℕ) → i < length frames.now → (frame_at frames.now i).budget ≤ 4095 }
    ensures { result.items ≡ flat_map bytes_of_frame frames.now }
{
    let mut bytes = ArrayVec::new();
    for frame in frames {
        let [a, b, c] = pack_one(*frame);
        bytes.push(a);
        bytes.push(b);
        bytes.push(c);
    }
    bytes
}

// Fills a part whole: the fixed bytes of a row, and then its rank or frame bytes.
#[tactic(auto, using(crate::proofs::Puts::filled))]
fn fill(part: &mut [u8], front: &[u8], rest: &[u8])
    requires { length part.old ≡ length front.now + length rest.now }
    ensures { part.new ≡ front.now ++ rest.now }
{
    let n = front.len();
    part[0..n].copy_from_slice(front);
    part[n..].copy_from_slice(rest);
}

// The byte after `size` bytes from `at` on, in a buffer of `len` bytes that has them.
fn end_within(len: usize, at: usize, size: usize) -> Result<usize, Denial>
    requires { (size ≤ 26) × (len < 2 ^ 63) }
    ensures { result ≡ unless (room_fault len at size) (at + size) }
{
    let end = at.saturating_add(size);
    check_room(end, len)?;
    Ok(end)
}

// Writes a row from byte `at` on, and leaves all other bytes as they were: the byte after it.
#[tactic(auto, using(crate::proofs::Puts::put_is))]
fn write_row(out: &mut [u8], at: usize, front: &[u8], rest: &[u8]) -> Result<usize, Denial>
    requires { length front.now + length rest.now ≤ 26 }
    ensures result { result ≡ unless (room_fault (length out.old) at (length front.now + length rest.now))
        (at + (length front.now + length rest.now)) }
    ensures out { out.new ≡ left result out.old at (front.now ++ rest.now) }
{
    let end = end_within(out.len(), at, front.len() + rest.len())?;
    fill(&mut out[at..end], front, rest);
    Ok(end)
}

// Writes the header of a plate with so many rows of each kind: the byte after it, or 3 or 8.
pub fn write_header(out: &mut [u8], counted: u8, framed: u8) -> Result<usize, Denial>
    ensures result { result ≡ unless (option_or (counts_fault counted framed) (room_fault (length out.old) 0 2)) 2 }
    ensures out { out.new ≡ left result out.old 0 (header_bytes counted framed) }
{
    check_counts(counted, framed)?;
    write_row(out, 0, &header_front(counted, framed), &[])
}

// Writes a miss-counted row from byte `at` on: the byte after it, or its fault as if it stood alone, or 8.
#[tactic(auto, using(crate::proofs::Written::counted_written))]
pub fn write_miss_counted(
    out: &mut [u8],
    at: usize,
    gap: u16,
    budget: u16,
    ranks: &[u8],
) -> Result<usize, Denial>
    ensures result { result ≡ unless (option_or (counted_fault 0 0 gap budget ranks.now)
        (room_fault (length out.old) at (4 + length ranks.now))) (at + (4 + length ranks.now)) }
    ensures out { out.new ≡ left result out.old at (counted_bytes (record { gap = gap; budget = budget; ranks = ranks.now })) }
    ensures back { Then result (ReadsCounted out.new at (record { gap = gap; budget = budget; ranks = ranks.now })) }
{
    check_miss_counted(gap, budget, ranks)?;
    write_row(out, at, &counted_front(gap, budget, ranks.len()), ranks)
}

// Writes a frame row from byte `at` on: the byte after it, or its fault as if it stood alone, or 8.
#[tactic(auto, using(crate::proofs::Written::framed_written, crate::proofs::Frameds::joined_length))]
pub fn write_frames(out: &mut [u8], at: usize, gap: u16, frames: &[Frame]) -> Result<usize, Denial>
    ensures result { result ≡ unless (option_or (framed_fault 0 0 gap frames.now)
        (room_fault (length out.old) at (2 + 3 * length frames.now))) (at + (2 + 3 * length frames.now)) }
    ensures out { out.new ≡ left result out.old at (framed_bytes (record { gap = gap; frames = frames.now })) }
    ensures back { Then result (ReadsFramed out.new at (record { gap = gap; frames = frames.now })) }
{
    check_frames(gap, frames)?;
    write_row(out, at, &framed_front(gap, frames.len()), &pack(frames))
}
