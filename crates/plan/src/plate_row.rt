// A table's rows as a plate has them.
ghost use Rattle.std.specs.Prelude.{◌≡◌, ℕ, ◌+◌, ◌≤◌, List, length, Ok};
ghost use Rattle.plate.specs.Plans.{counted_bytes, framed_bytes};
ghost use Rattle.plate.specs.Writing.{put_at};
ghost use Rattle.kinds.specs.Rows.{counted_of, framed_of};
ghost use Rattle.plan.specs.Saved.{counted_row_short, framed_row_short};

use denial::Denial;
use kinds::{Entry, FrameRow, MissCountedRow, TableRow};
use plate::writer::{write_frames, write_miss_counted};

// A row of a table, by its bytes on a plate. The two impls look alike, but for what each kind writes in front, and by which writer.
pub(crate) trait PlateRow: TableRow {
    ghost bytes: { Self → List ℕ };

    // How many bytes it takes.
    fn size(entry: &Entry<Self>) -> usize
        ensures { result ≡ length (bytes entry.now.row) };

    // Writes it at its place, and gives the byte after it.
    fn write(entry: &Entry<Self>, out: &mut [u8], at: usize) -> Result<usize, Denial>
        requires { at + length (bytes entry.now.row) ≤ length out.old }
        ensures end { result ≡ Ok (at + length (bytes entry.now.row)) }
        ensures out { out.new ≡ put_at out.old at (bytes entry.now.row) };

    ghost short: { (r : Self) → Self.kind.good r → length (bytes r) ≤ 26 };
}

impl PlateRow for MissCountedRow {
    ghost bytes = { λ r. counted_bytes (counted_of r) };

    ghost short = { counted_row_short };

    fn size(entry: &Entry<Self>) -> usize {
        4 + entry.ranks().len()
    }

    fn write(entry: &Entry<Self>, out: &mut [u8], at: usize) -> Result<usize, Denial> {
        write_miss_counted(out, at, entry.row.gap, entry.row.budget, entry.ranks())
    }
}

impl PlateRow for FrameRow {
    ghost bytes = { λ r. framed_bytes (framed_of r) };

    ghost short = { framed_row_short };

    fn size(entry: &Entry<Self>) -> usize {
        2 + 3 * entry.frames().len()
    }

    fn write(entry: &Entry<Self>, out: &mut [u8], at: usize) -> Result<usize, Denial> {
        write_frames(out, at, entry.row.gap, entry.frames())
    }
}
