// Reading a plate row by row.
ghost use Rattle.std.specs.Prelude.{◌≡◌, ℕ, ◌+◌, ◌-◌, ◌*◌, ◌/◌, ◌%◌, ◌^◌, ◌<◌, ◌≤◌, true, cond, length, OnOk, is_ok, Some, None, MatchResult};
ghost use Rattle.plate.specs.Bits.{field};
ghost use Rattle.denial.specs.Checks.{unless};
ghost use Rattle.plate.specs.Plans.{counts_fault, extra_fault, header_denial};
ghost use Rattle.plate.specs.Reading.{Kept, first_state, told_next, open_denial, opened, row_denial, next_row, after_row, next_denial, SoundNext};
ghost use Rattle.plate.specs.Readers.{state, state_at, plate_of, plate_at, to_come};

use super::cursor::Cursor;
use super::reader::{Counts, Position, Reader};
use super::row::Row;
use super::rows::{counted_row, framed_row};
use super::start::RowStart;
use denial::{Denial, Rule};

// Each number of rows is at most 16, and they are not both 0.
pub(crate) fn check_counts(counted: u8, framed: u8) -> Result<(), Denial>
    ensures value { result ≡ unless (counts_fault counted framed) tt }
    ensures few { OnOk result ((counted ≤ 16) × (framed ≤ 16)) }
{
    if counted > 16 || (counted == 0 && framed == 0) {
        return Err(Rule::RowCounts.denies(255, 4));
    }
    if framed > 16 {
        return Err(Rule::RowCounts.denies(255, 10));
    }
    Ok(())
}

// The header: edition 4 bits, number of miss-counted rows 6, number of frame rows 6. The rest is rows.
#[tactic(auto, using(crate::proofs::Denials::header_laws), unfolding(crate::specs::Plans::header_denial))]
fn header(plate: &[u8]) -> Result<Position<'_>, Denial>
    ensures { MatchResult result
        (λ at. (header_denial plate.now ≡ None) × (plate_at at ≡ plate.now) × (state_at at ≡ first_state plate.now))
        (λ d. header_denial plate.now ≡ Some d) }
{
    let [first, second, rest @ ..] = plate else {
        return Err(Rule::Short.denies(255, 8 * plate.len() as u16));
    };
    if *first / 16 != 1 {
        return Err(Rule::Edition.denies(255, 0));
    }
    let counted = *first % 16 * 4 + *second / 64;
    let framed = *second % 64;
    check_counts(counted, framed)?;
    let cursor = Cursor {
        plate,
        place: 8 * (plate.len() - rest.len()),
    };
    Ok(Position {
        cursor,
        row: 0,
        counted,
        framed,
    })
}

impl<'a> Position<'a> {
    // Past the header, which is read where nothing was read yet.
    fn opened(self) -> Result<Self, Denial>
        ensures { MatchResult result
            (λ at. (open_denial (plate_at self.entry) (state_at self.entry) ≡ None) × (plate_at at ≡ plate_at self.entry)
            × (state_at at ≡ opened (plate_at self.entry) (state_at self.entry)))
            (λ d. open_denial (plate_at self.entry) (state_at self.entry) ≡ Some d) }
    {
        if self.cursor.place > 0 {
            return Ok(self);
        }
        header(self.cursor.plate)
    }

    // After a row, with so many of each kind to come. (Two numbers: `Counts` is what a caller is told, and the position holds them.)
    fn past(self, cursor: Cursor<'a>, counted: u8, framed: u8) -> Self
        requires { Kept (record { place = cursor.place; row = self.row + 1; counted = counted; framed = framed }) }
        ensures plate { plate_at result ≡ cursor.entry.plate.now }
        ensures state { state_at result ≡ record { place = cursor.entry.place; row = self.entry.row + 1; counted = counted; framed = framed } }
    {
        Position {
            cursor,
            row: self.row + 1,
            counted,
            framed,
        }
    }

    // Where the next row starts.
    fn row_start(&self) -> RowStart
        ensures { (result.row ≡ self.now.row) × (result.place ≡ self.now.cursor.place) }
    {
        RowStart {
            row: self.row,
            place: self.cursor.place as u16,
        }
    }

    // Nothing stands after the last row.
    fn check_end(&self) -> Result<(), Denial>
        ensures { result ≡ unless (extra_fault (plate_at self.now) (state_at self.now).place) tt }
    {
        let place = self.cursor.place;
        if place / 8 < self.cursor.plate.len() {
            return Err(Rule::Extra.denies(255, place as u16));
        }
        Ok(())
    }

    // Past the header: the next row, or none after the last.
    fn advance(&mut self) -> Result<Option<Row<'a>>, Denial>
        ensures plate { plate_at self.new ≡ plate_at self.old }
        ensures result { told_next result ≡ unless (row_denial (plate_at self.old) (state_at self.old))
            (next_row (plate_at self.old) (state_at self.old)) }
        ensures after { is_ok result ≡ true → state_at self.new ≡ after_row (plate_at self.old) (state_at self.old) }
    {
        let start = self.row_start();
        let mut cursor = self.cursor;
        if self.counted > 0 {
            let row = counted_row(&mut cursor, start)?;
            *self = self.past(cursor, self.counted - 1, self.framed);
            return Ok(Some(row));
        }
        if self.framed > 0 {
            let row = framed_row(&mut cursor, start)?;
            *self = self.past(cursor, self.counted, self.framed - 1);
            return Ok(Some(row));
        }
        self.check_end()?;
        Ok(None)
    }
}

impl<'a> Reader<'a> {
    // A reader of which nothing was read yet.
    pub fn new(plate: &'a [u8]) -> Self
        ensures plate { plate_of result ≡ plate.now }
        ensures state { state result ≡ record { place = 0; row = 0; counted = 0; framed = 0 } }
    {
        let cursor = Cursor { plate, place: 0 };
        Reader {
            at: Position {
                cursor,
                row: 0,
                counted: 0,
                framed: 0,
            },
        }
    }

    // Reads the header, where that was not done yet: how many rows of each kind are to come. A refusal leaves the reader
    // where it was.
    pub fn open(&mut self) -> Result<Counts, Denial>
        ensures plate { plate_of self.new ≡ plate_of self.old }
        ensures result { result ≡ unless (open_denial (plate_of self.old) (state self.old))
            (to_come (opened (plate_of self.old) (state self.old))) }
        ensures after { state self.new ≡ cond (is_ok result)
            (opened (plate_of self.old) (state self.old)) (state self.old) }
    {
        let at = self.at.opened()?;
        self.at = at;
        Ok(Counts {
            counted: at.counted,
            framed: at.framed,
        })
    }

    // The next row, or none after the last. A refusal leaves the reader where it was.
    pub fn next_row(&mut self) -> Result<Option<Row<'a>>, Denial>
        ensures plate { plate_of self.new ≡ plate_of self.old }
        ensures result { told_next result ≡ unless (next_denial (plate_of self.old) (state self.old))
            (next_row (plate_of self.old) (opened (plate_of self.old) (state self.old))) }
        ensures after { state self.new ≡ cond (is_ok result)
            (after_row (plate_of self.old) (opened (plate_of self.old) (state self.old)))
            (state self.old) }
        ensures sound { SoundNext (told_next result) }
    {
        let mut at = self.at.opened()?;
        let row = at.advance()?;
        self.at = at;
        Ok(row)
    }
}
