// The group of a table.
ghost use Rattle.std.specs.Prelude.{◌≡◌, ◌<◌, min, length};
ghost use Rattle.group.specs.Task.{at};
ghost use Rattle.kinds.specs.Demands.{Asked};
ghost use Rattle.kinds.specs.Held.{tasks_of, places_of};
ghost use Rattle.kinds.specs.TablesLemmas as Tables;

use crate::table::Table;
use crate::table_row::TableRow;
use group::{Group, Outcome, Terms};

impl<R: TableRow> Group for Table<R> {
    ghost tasks = { tasks_of };

    ghost places = { places_of };

    ghost few = { Tables.few };

    ghost placed = { Tables.same_length };

    ghost positioned = { Tables.positioned };

    ghost lawful = { Tables.lawfuls };

    fn count(&self) -> u16 {
        u16::from(self.len())
    }

    fn gap(&self, task: u16) -> u16 {
        self.row(task).map_or(0, R::gap)
    }

    fn class_count(&self, task: u16) -> u8 {
        self.entry(task).map_or(0, R::class_count)
    }

    fn terms(&self, task: u16, class: u8) -> Terms {
        self.entry(task)
            .map_or(Terms::NONE, |entry| entry.terms(class))
    }

    fn present_class(&self, task: u16) -> u8 {
        self.entry(task).map_or(0, |entry| entry.place)
    }

    // The most that the jobs can ask for, counted up to 4,095: where there is the task, some succession of them asks for all of it.
    fn demand(&self, task: u16, jobs: u16, rank: u8) -> u32
        ensures value { result ≡ (at (tasks_of self.now) task).demand jobs rank }
        ensures attained { task < length (tasks_of self.now) → Asked (at (tasks_of self.now) task) (min jobs 4095) rank result }
    {
        self.entry(task)
            .map_or(0, |entry| R::demand(entry, jobs, rank))
    }

    fn settle(&mut self, task: u16, outcome: Outcome) {
        if let Some(entry) = self.entries.get_mut(usize::from(task)) {
            let next = R::next(entry, outcome);
            entry.place = next;
        }
    }
}
