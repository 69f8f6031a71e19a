// What a row of a table owes it: its kind, and what the task that it means answers.
ghost use Rattle.std.specs.Prelude.{◌≡◌, ℕ, ◌+◌, ◌≤◌, MatchOption, OnOk};
ghost use Rattle.denial.specs.Checks.{unless};
ghost use Rattle.group.specs.Task.{after, terms_of};
ghost use Rattle.kinds.specs.Tables.{Kind};

use crate::entry::Entry;
use denial::Denial;
use group::{Outcome, Terms};

// Both impls look alike where both kinds count: what they count, and where a fault is named, is of the kind.
// What is asked of a row that keeps the rules of its kind is asked of its entry.
pub trait TableRow: Copy {
    // What rows of this kind say and mean, when one is good, and its first fault.
    ghost kind: { Kind Self };

    // The row that stands in the places of a table that no task has.
    ghost blank: { Self };

    // The place of their number on a plate, which the refusal of a seventeenth names.
    ghost NUMBER_AT: { ℕ };

    const NUMBER_AT: u16;

    // A good row, for the places of a table that no task has.
    fn blank() -> Self
        ensures row { result ≡ blank }
        ensures good { kind.good result };

    // Refuses a row by its first fault, as of a row that stands alone from bit 0 on. A row that is not refused is good.
    fn check(&self) -> Result<(), Denial>
        ensures value { result ≡ unless (kind.fault self.now) tt }
        ensures good { OnOk result (kind.good self.now) };

    fn gap(&self) -> u16
        ensures { result ≡ (kind.task (kind.says self.now)).gap };

    // How many classes the task has.
    fn class_count(entry: &Entry<Self>) -> u8
        ensures { result ≡ kind.classes entry.now.row };

    // The terms of a class, counted from 0, if there is one.
    fn class(entry: &Entry<Self>, index: usize) -> Option<Terms>
        ensures { MatchOption result (kind.classes entry.now.row ≤ index)
            (λ t. t ≡ terms_of (kind.task (kind.says entry.now.row)) (index + 1)) };

    // The class after a job that ended so.
    fn next(entry: &Entry<Self>, outcome: Outcome) -> u8
        ensures { result ≡ after (kind.task (kind.says entry.now.row)) outcome entry.now.place };

    // The most that `jobs` jobs in a row can ask for above `rank`.
    fn demand(entry: &Entry<Self>, jobs: u16, rank: u8) -> u32
        ensures { result ≡ (kind.task (kind.says entry.now.row)).demand jobs rank };
}
