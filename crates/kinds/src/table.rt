// The table of rows of one kind.
ghost use Rattle.std.specs.Prelude.{◌≤◌};
ghost use Rattle.arrayvec.specs.ArrayVec.{array_vec_len};

use crate::entry::Entry;
use crate::table_row::TableRow;
use arrayvec::ArrayVec;
use denial::{Denial, Rule};

// At most 16 rows, each with its present class. None of them ever breaks the rules of its kind.
#[derive(Drop)]
pub struct Table<R: TableRow> {
    pub(crate) entries: ArrayVec<Entry<R>, 16>,
    pub ghost few: { array_vec_len entries ≤ 16 },
}

impl<R: TableRow> Table<R> {
    ghost use Rattle.std.specs.Prelude.{◌≡◌, ◌≤◌, [], length, IfSome, MatchOption, MatchResult};
    ghost use Rattle.std.specs.List.{AllByRecursion};
    ghost use Rattle.denial.specs.Checks.{unless};
    ghost use Rattle.group.specs.Task.{at};
    ghost use Rattle.kinds.specs.Tables.{add_fault};
    ghost use Rattle.kinds.specs.Held.{rows_of, tasks_of, places_of, Held, HeldEntry, Absent, Added};

    // A table without rows.
    pub fn new() -> Self
        ensures rows { rows_of result ≡ [] }
        ensures tasks { tasks_of result ≡ [] }
        ensures places { places_of result ≡ [] }
    {
        Table {
            entries: ArrayVec::new(),
        }
    }

    // How many rows, and so tasks, it has: never more than 16, and every one keeps the rules of its kind.
    pub fn len(&self) -> u8
        ensures rows { result ≡ length (rows_of self.now) }
        ensures tasks { result ≡ length (tasks_of self.now) }
        ensures few { result ≤ 16 }
        ensures sound { AllByRecursion R.kind.Sound (rows_of self.now) }
    {
        self.entries.len() as u8
    }

    // The rows in their order, each with its present class.
    pub fn entries(&self) -> &[Entry<R>]
        ensures { result.now ≡ self.now.entries.items }
    {
        &self.entries
    }

    // The entry of a task, if there is one.
    pub(crate) fn entry(&self, task: u16) -> Option<&Entry<R>>
        ensures { MatchOption result (Absent self.now task) (λ q. HeldEntry self.now task q.now) }
    {
        self.entries.get(usize::from(task))
    }

    // The row of a task, if there is one; the task then counts misses as far as tasks of its kind do.
    pub fn row(&self, task: u16) -> Option<&R>
        ensures row { MatchOption result (Absent self.now task) (λ q. Held self.now task q.now) }
        ensures counts { IfSome result (λ q. R.kind.Counts q.now (at (tasks_of self.now) task)) }
    {
        self.entry(task).map(|entry| &entry.row)
    }

    // Takes a row in, at its first class. A seventeenth is refused, and so is one that breaks the rules of its kind; then all stays as
    // it was.
    pub fn add(&mut self, row: R) -> Result<(), Denial>
        ensures result { result ≡ unless (add_fault (rows_of self.old) R.NUMBER_AT (R.kind.fault row)) tt }
        ensures table { MatchResult result (λ _. Added self.old row self.new) (λ _. self.new ≡ self.old) }
    {
        if self.entries.is_full() {
            return Err(Rule::RowCounts.denies(255, R::NUMBER_AT));
        }
        row.check()?;
        self.entries.push(Entry::first(row));
        Ok(())
    }
}
