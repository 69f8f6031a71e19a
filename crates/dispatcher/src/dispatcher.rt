// A dispatcher over one group of work.
ghost use Rattle.std.specs.Prelude.{◌≡◌, ◌≤◌, true, false, ◌++◌, length, replicate, IfOk, MatchResult};
ghost use Rattle.denial.specs.Checks.{unless};
ghost use Rattle.bounds.specs.Bound.{bound_answer, SaysBound};
ghost use Rattle.admission.specs.Start.{early_fault, start_fault, scratch_after, StartLaw};
ghost use Rattle.dispatcher.specs.State.{new_seat};

use crate::board::Dispatcher;
use crate::seats::{SEATS, Table};
use crate::slot::Seat;
use admission::admit;
use bounds::bound as bound_of;
use denial::Denial;
use group::Group;

impl<G: Group> Dispatcher<G> {
    // A dispatcher over a group: the clock at 0, no job, and not started.
    pub fn new(group: G) -> Self
        ensures group { result.group ≡ group }
        ensures seats { result.table.seats ≡ replicate 64 new_seat }
        ensures clock { result.clock ≡ 0 }
        ensures started { result.started ≡ false }
    {
        Dispatcher {
            group,
            table: Table {
                seats: [Seat::NEW; SEATS],
            },
            clock: 0,
            started: false,
        }
    }

    // Starts the dispatcher, or refuses. The scratch, one byte for each rank, then holds the marks of the ranks in use,
    // unless the start was refused before it looked at ranks.
    pub fn start(&mut self, scratch: &mut [u8]) -> Result<(), Denial>
        ensures result { result ≡ unless (start_fault self.old.started (length scratch.old) (G.tasks self.old.group)) tt }
        ensures scratch { scratch.new ≡ scratch_after (early_fault self.old.started (length scratch.old) (G.tasks self.old.group))
            (G.tasks self.old.group) scratch.old }
        ensures after { MatchResult result (λ _. self.new.started ≡ true) (λ _. self.new ≡ self.old) }
        ensures group { self.new.group ≡ self.old.group }
        ensures table { self.new.table ≡ self.old.table }
        ensures clock { self.new.clock ≡ self.old.clock }
        ensures law { StartLaw self.old.started (length scratch.old) (G.tasks self.old.group) result }
    {
        admit(&self.group, self.started, scratch)?;
        self.started = true;
        Ok(())
    }

    // The bound of a class of a task, none where there is none.
    pub fn bound(&self, task: u16, class: u8) -> Result<Option<u16>, Denial>
        ensures result { result ≡ bound_answer (G.tasks self.now.group) task class }
        ensures says { IfOk result (SaysBound (G.tasks self.now.group) task class) }
    {
        bound_of(&self.group, task, class)
    }

    // The clock.
    pub fn clock(&self) -> u32
        ensures { result ≡ self.now.clock }
    {
        self.clock
    }
}
