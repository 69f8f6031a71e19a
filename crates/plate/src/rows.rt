// Reading one row.
ghost use Rattle.std.specs.Prelude.{◌≡◌, ℕ, ◌+◌, ◌-◌, ◌*◌, ◌/◌, ◌%◌, ◌^◌, ◌<◌, ◌≤◌, true, length, is_ok};
ghost use Rattle.plate.specs.Bits.{field};
ghost use Rattle.plate.specs.Faults.{framed_fault};
ghost use Rattle.plate.specs.Rows.{frames_of, ranks_count, counted_content, counted_denial, counted_bits, frames_count, framed_content, framed_denial, framed_bits};
ghost use Rattle.denial.specs.Checks.{unless};
ghost use Rattle.plate.specs.Reading.{told, counted_here, framed_here};

use super::cursor::Cursor;
use super::faults::{check_counted, check_framed, check_spare};
use super::frame::{first_spare, unpack};
use super::row::Row;
use super::start::RowStart;
use denial::{Denial, Rule};

// The two kinds of row differ in the fields of their heads and in the rules that they keep. What they share is in the cursor
// and in the start of a row: a trait over both heads would have five members and their laws for one short function. That the cursor
// stands at the start, and that frame bytes are at most 24, is asked where it is used: a type for either would be made for one call.

// Where a miss-counted row starts, and its fixed fields: gap 12 bits, budget 12, tolerated misses 3, spare 5.
#[derive(Clone, Copy)]
struct CountedHead {
    start: RowStart,
    gap: u16,
    budget: u16,
    classes: usize,
    spare: u16,
}

impl CountedHead {
    fn read(cursor: &mut Cursor, start: RowStart) -> Self
        requires { (cursor.old.place ≡ start.place) × (start.place / 8 + 4 ≤ length cursor.old.plate.now) }
        ensures plate { cursor.new.plate.now ≡ cursor.old.plate.now }
        ensures start { result.start ≡ start }
        ensures gap { result.gap ≡ field cursor.old.plate.now start.place 12 }
        ensures budget { result.budget ≡ field cursor.old.plate.now (start.place + 12) 12 }
        ensures classes { (result.classes ≡ ranks_count cursor.old.plate.now start.place) × (result.classes ≤ 8) }
        ensures spare { result.spare ≡ field cursor.old.plate.now (start.place + 27) 5 }
        ensures place { cursor.new.place ≡ start.place + 32 }
    {
        let gap = cursor.field(12);
        let budget = cursor.field(12);
        let misses = cursor.field(3);
        let spare = cursor.field(5);
        CountedHead {
            start,
            gap,
            budget,
            classes: usize::from(misses) + 1,
            spare,
        }
    }

    // The complete row keeps its rules.
    fn check(self, ranks: &[u8]) -> Result<(), Denial>
        ensures { result ≡ unless (counted_content self.start.row self.start.place self.gap self.budget self.spare ranks.now) tt }
    {
        check_spare(self.start, 27, self.spare)?;
        check_counted(self.start, self.gap, self.budget, ranks)
    }
}

// A miss-counted row: its fixed fields, and a rank byte for each class.
#[tactic(auto, using(crate::proofs::Denials::counted_short, crate::proofs::Denials::counted_whole), unfolding(crate::specs::Rows::counted_denial))]
pub(crate) fn counted_row<'a>(cursor: &mut Cursor<'a>, start: RowStart) -> Result<Row<'a>, Denial>
    requires { cursor.old.place ≡ start.place }
    ensures plate { cursor.new.plate.now ≡ cursor.old.plate.now }
    ensures result { told result ≡ unless (counted_denial cursor.old.plate.now start.place start.row)
        (counted_here cursor.old.plate.now start.place) }
    ensures place { is_ok result ≡ true → cursor.new.place ≡ start.place + counted_bits cursor.old.plate.now start.place }
{
    cursor.check_left(start.row, 4)?;
    let head = CountedHead::read(cursor, start);
    let place = cursor.place;
    let ranks = cursor.bytes(start.row, head.classes)?;
    head.check(ranks)?;
    Ok(Row::MissCounted {
        gap: head.gap,
        budget: head.budget,
        ranks,
        place,
    })
}

// Where a frame row starts, and its fixed fields: gap 12 bits, frames less one 3, spare 1.
#[derive(Clone, Copy)]
struct FramedHead {
    start: RowStart,
    gap: u16,
    count: usize,
    spare: u16,
}

impl FramedHead {
    fn read(cursor: &mut Cursor, start: RowStart) -> Self
        requires { (cursor.old.place ≡ start.place) × (start.place / 8 + 2 ≤ length cursor.old.plate.now) }
        ensures plate { cursor.new.plate.now ≡ cursor.old.plate.now }
        ensures start { result.start ≡ start }
        ensures gap { result.gap ≡ field cursor.old.plate.now start.place 12 }
        ensures count { (result.count ≡ frames_count cursor.old.plate.now start.place) × (result.count ≤ 8) }
        ensures spare { result.spare ≡ field cursor.old.plate.now (start.place + 15) 1 }
        ensures place { cursor.new.place ≡ start.place + 16 }
    {
        let gap = cursor.field(12);
        let less_one = cursor.field(3);
        let spare = cursor.field(1);
        FramedHead {
            start,
            gap,
            count: usize::from(less_one) + 1,
            spare,
        }
    }

    // The complete row keeps its rules.
    fn check(self, bytes: &[u8]) -> Result<(), Denial>
        requires { length bytes.now ≤ 24 }
        ensures { result ≡ unless (framed_content self.start.row self.start.place self.gap self.spare bytes.now) tt }
    {
        check_spare(self.start, 15, self.spare)?;
        if let Some(i) = first_spare(bytes) {
            return Err(self.start.denies(Rule::Spare, 36 + 24 * i as u16));
        }
        check_unpacked(self.start, self.gap, bytes)
    }
}

// The frames of a row, from their bytes, keep its rules. They are in front of the eight that `unpack` makes for callers outside too:
// an ArrayVec would want a second function that unpacks.
#[tactic(auto, using(crate::proofs::Frames::frames_length, crate::proofs::Frames::padded_few))]
fn check_unpacked(start: RowStart, gap: u16, bytes: &[u8]) -> Result<(), Denial>
    requires { length bytes.now ≤ 24 }
    ensures { result ≡ unless (framed_fault start.row start.place gap (frames_of bytes.now)) tt }
{
    let frames = unpack(bytes);
    check_framed(start, gap, &frames[0..bytes.len() / 3])
}

// A frame row: its fixed fields, and three bytes for each frame.
#[tactic(auto, using(crate::proofs::Denials::framed_short, crate::proofs::Denials::framed_whole), unfolding(crate::specs::Rows::framed_denial))]
pub(crate) fn framed_row<'a>(cursor: &mut Cursor<'a>, start: RowStart) -> Result<Row<'a>, Denial>
    requires { cursor.old.place ≡ start.place }
    ensures plate { cursor.new.plate.now ≡ cursor.old.plate.now }
    ensures result { told result ≡ unless (framed_denial cursor.old.plate.now start.place start.row)
        (framed_here cursor.old.plate.now start.place) }
    ensures place { is_ok result ≡ true → cursor.new.place ≡ start.place + framed_bits cursor.old.plate.now start.place }
{
    cursor.check_left(start.row, 2)?;
    let head = FramedHead::read(cursor, start);
    let place = cursor.place;
    let frames = cursor.bytes(start.row, 3 * head.count)?;
    head.check(frames)?;
    Ok(Row::Frames {
        gap: head.gap,
        frames,
        place,
    })
}
