// Saving two tables as a plate.
ghost use Rattle.std.specs.Prelude.{◌≡◌, ◌+◌, ◌^◌, ◌<◌, ◌≤◌, length, Ok};
ghost use Rattle.denial.specs.Checks.{unless};
ghost use Rattle.plate.specs.Plans.{encode, decode};
ghost use Rattle.plate.specs.Writing.{put_at, left, Then};
ghost use Rattle.plan.specs.Loads.{plan_of};
ghost use Rattle.plan.specs.Saves.{save_refusal, save_fault, bytes_of};

use crate::plate_row::PlateRow;
use denial::{Denial, Rule, check_room};
use kinds::{FrameTable, MissCountedTable, Table};
use plate::writer::write_header;

// How many bytes all rows of a table take. (A `for`: in generic code the proof of `.map(R::size).sum()` did not close.)
fn size_of<R: PlateRow>(table: &Table<R>) -> usize
    ensures value { result ≡ length (bytes_of R.PlateRow.bytes table.now) }
    ensures small { result ≤ 416 }
{
    let mut size = 0;
    for entry in table.entries() {
        size += R::size(entry);
    }
    size
}

// Writes all rows of a table one after another, and gives the byte after the last. (A `for`: each row begins where the last one ended.)
fn write_all<R: PlateRow>(table: &Table<R>, out: &mut [u8], at: usize) -> Result<usize, Denial>
    requires { at + length (bytes_of R.PlateRow.bytes table.now) ≤ length out.old }
    ensures end { result ≡ Ok (at + length (bytes_of R.PlateRow.bytes table.now)) }
    ensures out { out.new ≡ put_at out.old at (bytes_of R.PlateRow.bytes table.now) }
{
    let mut end = at;
    for entry in table.entries() {
        end = R::write(entry, out, end)?;
    }
    Ok(end)
}

// Refuses to save no rows, or `size` bytes in a buffer of `len`.
fn check_save(rows: u8, size: usize, len: usize) -> Result<(), Denial>
    requires { size < 2 ^ 16 }
    ensures { result ≡ unless (save_refusal rows size len) tt }
{
    if rows == 0 {
        return Err(Rule::RowCounts.denies(255, 4));
    }
    check_room(size, len)
}

// Saves two tables as a plate in front of a buffer, and gives its length; the bytes after it stay. What was saved is read
// as the same rows.
pub fn save(
    counted: &MissCountedTable,
    frames: &FrameTable,
    out: &mut [u8],
) -> Result<usize, Denial>
    ensures result { result ≡ unless (save_fault (plan_of counted.now frames.now) (length out.old))
        (length (encode (plan_of counted.now frames.now))) }
    ensures out { out.new ≡ left result out.old 0 (encode (plan_of counted.now frames.now)) }
    ensures back { Then result (decode (encode (plan_of counted.now frames.now)) ≡ Ok (plan_of counted.now frames.now)) }
{
    let size = 2 + size_of(counted) + size_of(frames);
    check_save(counted.len() + frames.len(), size, out.len())?;
    let at = write_header(out, counted.len(), frames.len())?;
    let at = write_all(counted, out, at)?;
    write_all(frames, out, at)
}
