// What each of the two tables promises, in the words of its own kind: twins on purpose, the generic promise read for each instance.
ghost use Rattle.std.specs.Prelude.{◌≡◌, ◌<◌, ◌≤◌, [], length, min, IfSome, MatchOption, MatchResult, OnSome};
ghost use Rattle.std.specs.List.{AllByRecursion};
ghost use Rattle.denial.specs.Checks.{unless};
ghost use Rattle.group.specs.Task.{at};
ghost use Rattle.plate.specs.Plans.{SoundCounted, SoundFramed};
ghost use Rattle.kinds.specs.Demands.{Asked};
ghost use Rattle.kinds.specs.Frames.{framed_task};
ghost use Rattle.kinds.specs.MissCounted.{counted_task, IsMissCounted};
ghost use Rattle.kinds.specs.Rows.{counted_row_fault, framed_row_fault};
ghost use Rattle.kinds.specs.Tables.{NoRowAt, add_fault};
ghost use Rattle.kinds.specs.Listed.{counted_rows, counted_tasks, counted_places, CountedRow, CountedAdded};
ghost use Rattle.kinds.specs.Listed.{framed_rows, framed_tasks, framed_places, FramedRow, FramedAdded};

use denial::Denial;
use group::Group;
use kinds::{FrameRow, FrameTable, MissCountedRow, MissCountedTable};

pub(crate) fn counted_new() -> MissCountedTable
    ensures rows { counted_rows result ≡ [] }
    ensures tasks { counted_tasks result ≡ [] }
    ensures places { counted_places result ≡ [] }
{
    MissCountedTable::new()
}

pub(crate) fn framed_new() -> FrameTable
    ensures rows { framed_rows result ≡ [] }
    ensures tasks { framed_tasks result ≡ [] }
    ensures places { framed_places result ≡ [] }
{
    FrameTable::new()
}

pub(crate) fn counted_len(table: &MissCountedTable) -> u8
    ensures rows { result ≡ length (counted_rows table.now) }
    ensures tasks { result ≡ length (counted_tasks table.now) }
    ensures few { result ≤ 16 }
    ensures sound { AllByRecursion SoundCounted (counted_rows table.now) }
{
    table.len()
}

pub(crate) fn framed_len(table: &FrameTable) -> u8
    ensures rows { result ≡ length (framed_rows table.now) }
    ensures tasks { result ≡ length (framed_tasks table.now) }
    ensures few { result ≤ 16 }
    ensures sound { AllByRecursion SoundFramed (framed_rows table.now) }
{
    table.len()
}

pub(crate) fn counted_row(table: &MissCountedTable, task: u16) -> Option<&MissCountedRow>
    ensures row { MatchOption result (NoRowAt counted_task (counted_rows table.now) task) (λ q. CountedRow table.now task q.now) }
    ensures counts { OnSome result (IsMissCounted (at (counted_tasks table.now) task)) }
{
    table.row(task)
}

pub(crate) fn framed_row(table: &FrameTable, task: u16) -> Option<&FrameRow>
    ensures row { MatchOption result (NoRowAt framed_task (framed_rows table.now) task) (λ q. FramedRow table.now task q.now) }
    ensures counts { IfSome result (λ q. q.now.count ≡ 1 → IsMissCounted (at (framed_tasks table.now) task)) }
{
    table.row(task)
}

pub(crate) fn counted_add(table: &mut MissCountedTable, row: MissCountedRow) -> Result<(), Denial>
    ensures result { result ≡ unless (add_fault (counted_rows table.old) 4 (counted_row_fault row)) tt }
    ensures table { MatchResult result (λ _. CountedAdded table.old row table.new) (λ _. table.new ≡ table.old) }
{
    table.add(row)
}

pub(crate) fn framed_add(table: &mut FrameTable, row: FrameRow) -> Result<(), Denial>
    ensures result { result ≡ unless (add_fault (framed_rows table.old) 10 (framed_row_fault row)) tt }
    ensures table { MatchResult result (λ _. FramedAdded table.old row table.new) (λ _. table.new ≡ table.old) }
{
    table.add(row)
}

pub(crate) fn counted_demand(table: &MissCountedTable, task: u16, jobs: u16, rank: u8) -> u32
    ensures value { result ≡ (at (counted_tasks table.now) task).demand jobs rank }
    ensures attained { task < length (counted_tasks table.now)
        → Asked (at (counted_tasks table.now) task) (min jobs 4095) rank result }
{
    table.demand(task, jobs, rank)
}

pub(crate) fn framed_demand(table: &FrameTable, task: u16, jobs: u16, rank: u8) -> u32
    ensures value { result ≡ (at (framed_tasks table.now) task).demand jobs rank }
    ensures attained { task < length (framed_tasks table.now)
        → Asked (at (framed_tasks table.now) task) (min jobs 4095) rank result }
{
    table.demand(task, jobs, rank)
}
