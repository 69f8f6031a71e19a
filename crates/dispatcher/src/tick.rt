// The tick.
ghost use Rattle.std.specs.Prelude.{◌≡◌, ◌+◌, length, OnErr};
ghost use Rattle.denial.specs.Checks.{unless};
ghost use Rattle.dispatcher.specs.State.{pending_count};
ghost use Rattle.dispatcher.specs.Refusals.{tick_fault};
ghost use Rattle.dispatcher.specs.Records.{tick_answer, tick_state, tick_ends, Listed};
ghost use Rattle.dispatcher.specs.Boards.{state};

use crate::board::Dispatcher;
use crate::checks::{check_room, check_started};
use crate::end::End;
use crate::passing::pass_all;
use crate::turn::Tick;
use denial::Denial;
use group::Group;

impl<G: Group> Dispatcher<G> {
    // How many jobs are pending.
    fn pending(&self) -> usize
        ensures { result ≡ pending_count (G.tasks self.now.group) (state G.places self.now) }
    {
        (0..self.group.count())
            .filter(|task| self.table.seat(*task).slot.is_pending())
            .count()
    }

    // Why a tick is refused, if it is.
    fn check_tick(&self, finish: bool, room: usize) -> Result<(), Denial>
        ensures { result ≡ unless (tick_fault (G.tasks self.now.group) (state G.places self.now) finish room) tt }
    {
        check_started(self.started, self.group.count())?;
        check_room(self.clock, finish, self.pending(), room)
    }

    // Lets a tick pass: the pending job of the highest rank runs, with the finish mark it is finished, at its budget it is cut, and
    // jobs as old as their gap are late. Gives the task that ran and the number of ends, whose records fill the front of the list.
    pub fn tick(&mut self, finish: bool, ends: &mut [End]) -> Result<(Option<u16>, usize), Denial>
        ensures result { result ≡ tick_answer (G.tasks self.old.group) (state G.places self.old) finish (length ends.old) }
        ensures state { state G.places self.new ≡ tick_state (G.tasks self.old.group) (state G.places self.old) finish (length ends.old) }
        ensures tasks { G.tasks self.new.group ≡ G.tasks self.old.group }
        ensures ends { Listed (tick_fault (G.tasks self.old.group) (state G.places self.old) finish (length ends.old))
            (tick_ends (G.tasks self.old.group) (state G.places self.old) finish) ends.old ends.new }
        ensures refused { OnErr result (self.new ≡ self.old) }
    {
        self.check_tick(finish, ends.len())?;
        let ran = self.next_to_run();
        let tick = Tick {
            clock: self.clock(),
            ran,
            mark: finish,
        };
        let count = pass_all(&mut self.group, &mut self.table, tick, ends);
        self.clock = tick.end();
        Ok((ran, count))
    }
}
