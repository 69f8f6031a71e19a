// What a miss-counted row answers.
ghost use Rattle.std.specs.Prelude.{◌≡◌, ◌+◌, ◌≤◌, take};
ghost use Rattle.kinds.specs.CountedRows.{counted_kind};
ghost use Rattle.kinds.specs.MissCounted.{count_above, most};
ghost use Rattle.kinds.specs.Rows.{counted_blank};

use crate::entry::Entry;
use crate::rows::MissCountedRow;
use crate::steps::{above, next_class};
use crate::table_row::TableRow;
use denial::{Denial, Rule};
use group::{Outcome, Terms};
use plate::rules::check_miss_counted;

// Of so many jobs in a row, the most that can be in the top `n` of `classes` classes.
fn most_in_top(classes: u32, n: u32, jobs: u32) -> u32
    requires { (1 ≤ classes) × ((n ≤ classes) × ((classes ≤ 8) × (jobs ≤ 4095))) }
    ensures { result ≡ most classes n jobs }
{
    jobs / classes * n + (jobs % classes).min(n)
}

impl TableRow for MissCountedRow {
    ghost kind = { counted_kind };

    ghost blank = { counted_blank };

    ghost NUMBER_AT = { 4 };

    const NUMBER_AT: u16 = 4;

    fn blank() -> Self {
        MissCountedRow {
            gap: 1,
            budget: 1,
            misses: 0,
            ranks: [1; 8],
        }
    }

    fn check(&self) -> Result<(), Denial> {
        if self.misses > 7 {
            return Err(Rule::Ranks.denies(0, 32));
        }
        let classes = usize::from(self.misses) + 1;
        check_miss_counted(self.gap, self.budget, &self.ranks[..classes])
    }

    fn gap(&self) -> u16 {
        self.gap
    }

    fn class_count(entry: &Entry<Self>) -> u8 {
        entry.classes()
    }

    fn class(entry: &Entry<Self>, index: usize) -> Option<Terms> {
        entry.ranks().get(index).map(|rank| Terms {
            rank: *rank,
            budget: entry.row.budget,
            tolerated: index < usize::from(entry.row.misses),
        })
    }

    fn next(entry: &Entry<Self>, outcome: Outcome) -> u8 {
        match outcome {
            Outcome::Finish => 1,
            Outcome::Miss => next_class(entry.classes(), entry.place),
        }
    }

    fn demand(entry: &Entry<Self>, jobs: u16, rank: u8) -> u32 {
        let jobs = u32::from(jobs.min(4095));
        let n = u32::from(entry.ranked_above(rank));
        u32::from(entry.row.budget) * most_in_top(u32::from(entry.classes()), n, jobs)
    }
}

impl Entry<MissCountedRow> {
    // How many classes the task has.
    fn classes(&self) -> u8
        ensures { result ≡ self.now.row.misses + 1 }
    {
        self.row.misses + 1
    }

    // The ranks of the task's classes.
    pub fn ranks(&self) -> &[u8]
        ensures { result.now ≡ take (self.now.row.misses + 1) self.now.row.ranks }
    {
        &self.row.ranks[..usize::from(self.classes())]
    }

    // How many classes are ranked above `rank`.
    fn ranked_above(&self, rank: u8) -> u16
        ensures { result ≡ count_above rank (take (self.now.row.misses + 1) self.now.row.ranks) }
    {
        self.ranks().iter().map(|r| above(rank, *r, 1)).sum()
    }
}
