// Loading a plate into two tables.
ghost use Rattle.std.specs.Prelude.{◌≡◌, ◌<◌, ◌≤◌, [], length, Ok, Err, MatchResult};
ghost use Rattle.plate.specs.Plans.{Refused};
ghost use Rattle.plate.specs.Reading.{handed, rest_of, SoundRow};
ghost use Rattle.plate.specs.Readers.{state, plate_of};
ghost use Rattle.plate.specs.Rows.{frames_of};
ghost use Rattle.kinds.specs.Listed.{counted_rows, counted_places, framed_rows, framed_places};
ghost use Rattle.kinds.specs.Rows.{counted_of, framed_of};
ghost use Rattle.plan.specs.Rows.{after_rows};
ghost use Rattle.plan.specs.Loads.{plan_of, AtFirst, Loaded, RoomFor, Added, Room};

use denial::Denial;
use kinds::{FrameRow, FrameTable, MissCountedRow, MissCountedTable};
use plate::frame::unpack;
use plate::reader::Reader;
use plate::row::Row;

// The row of a table, from what a plate says. (No `From`: all its types are of other crates. One for each form, as
// the fields differ.)
fn counted_row(gap: u16, budget: u16, ranks: &[u8]) -> MissCountedRow
    requires { (1 ≤ length ranks.now) × (length ranks.now ≤ 8) }
    ensures says { counted_of result ≡ record { gap = gap; budget = budget; ranks = ranks.now } }
    ensures few { result.misses ≤ 7 }
{
    let classes = ranks.len();
    let mut all = [0; 8];
    all[..classes].copy_from_slice(ranks);
    MissCountedRow {
        gap,
        budget,
        misses: classes as u8 - 1,
        ranks: all,
    }
}

// The same of a row of frames.
fn frame_row(gap: u16, bytes: &[u8]) -> FrameRow
    requires { length (frames_of bytes.now) ≤ 8 }
    ensures says { framed_of result ≡ record { gap = gap; frames = frames_of bytes.now } }
    ensures few { result.count ≤ 8 }
{
    FrameRow {
        gap,
        count: (bytes.len() / 3) as u8,
        frames: unpack(bytes),
    }
}

// The two tables of a plan.
#[derive(Drop)]
struct Plan {
    counted: MissCountedTable,
    frames: FrameTable,
}

impl Plan {
    // A plan without rows.
    fn new() -> Self
        ensures rows { (counted_rows result.counted ≡ []) × (framed_rows result.frames ≡ []) }
        ensures places { (counted_places result.counted ≡ []) × (framed_places result.frames ≡ []) }
    {
        Plan {
            counted: MissCountedTable::new(),
            frames: FrameTable::new(),
        }
    }

    // Takes a row into the table of its kind, where there is room for it.
    fn take(&mut self, row: Row) -> Result<(), Denial>
        requires sound { SoundRow (handed row) }
        requires room { RoomFor (handed row) (length (counted_rows self.old.counted)) (length (framed_rows self.old.frames)) }
        ensures result { result ≡ Ok tt }
        ensures rows { Added (handed row.entry) (counted_rows self.old.counted) (counted_rows self.new.counted)
            (framed_rows self.old.frames) (framed_rows self.new.frames) }
        ensures first { AtFirst self.old.counted self.old.frames → AtFirst self.new.counted self.new.frames }
    {
        match row {
            Row::MissCounted {
                gap,
                budget,
                ranks,
                ..
            } => self.counted.add(counted_row(gap, budget, ranks)),
            Row::Frames {
                gap,
                frames: bytes,
                ..
            } => self.frames.add(frame_row(gap, bytes)),
        }
    }

    // Takes in all the rows to come.
    fn fill(&mut self, reader: &mut Reader) -> Result<(), Denial>
        requires opened { 0 < (state reader.old).place }
        requires room { Room (state reader.old) self.old.counted self.old.frames }
        requires first { AtFirst self.old.counted self.old.frames }
        ensures { MatchResult result
            (λ _. (after_rows (counted_rows self.old.counted) (framed_rows self.old.frames)
            (rest_of (plate_of reader.old) (state reader.old)) ≡ Ok (plan_of self.new.counted self.new.frames))
            × AtFirst self.new.counted self.new.frames)
            (λ d. rest_of (plate_of reader.old) (state reader.old) ≡ Err d) }
    {
        while let Some(row) = reader.next_row()? {
            self.take(row)?;
        }
        Ok(())
    }
}

// The plan of a plate.
fn plan_from(plate: &[u8]) -> Result<Plan, Denial>
    ensures { MatchResult result (λ p. Loaded plate.now p.counted p.frames) (λ d. Refused plate.now d) }
{
    let mut reader = Reader::new(plate);
    reader.open()?;
    let mut plan = Plan::new();
    plan.fill(&mut reader)?;
    Ok(plan)
}

// Loads a plate into two tables, each row at its first position. A refused plate leaves both tables as they were.
pub fn load(
    plate: &[u8],
    counted: &mut MissCountedTable,
    frames: &mut FrameTable,
) -> Result<(), Denial>
    ensures { MatchResult result (λ _. Loaded plate.now counted.new frames.new)
        (λ d. Refused plate.now d × (counted.new ≡ counted.old) × (frames.new ≡ frames.old)) }
{
    let plan = plan_from(plate)?;
    *counted = plan.counted;
    *frames = plan.frames;
    Ok(())
}
