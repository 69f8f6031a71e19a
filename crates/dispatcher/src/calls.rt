// Releasing and resuming a task, and the question for a slot.
ghost use Rattle.std.specs.Prelude.{◌≡◌, ◌≤◌, OnErr};
ghost use Rattle.group.specs.Task.{at, place};
ghost use Rattle.dispatcher.specs.State.{released, resumed};
ghost use Rattle.dispatcher.specs.Refusals.{known_answer, release_fault, resume_fault, release_answer, resume_answer, kept_if};
ghost use Rattle.dispatcher.specs.Questions.{view_of, slot_answer};
ghost use Rattle.dispatcher.specs.Boards.{state};

use crate::board::Dispatcher;
use crate::checks::{check_halted, check_number, check_seat, check_started};
use crate::event::Event;
use crate::slot::{Seat, Slot};
use crate::view::View;
use bounds::check_task;
use denial::Denial;
use group::Group;

impl Slot {
    // As it is seen at a clock. (No `From`, since it takes the clock too.)
    fn seen(self, clock: u32) -> View
        ensures { result ≡ view_of clock self }
    {
        match self {
            Slot::Empty => View::Empty,
            Slot::Pending {
                class,
                released,
                used,
            } => View::Pending {
                class,
                age: clock.saturating_sub(released),
                used,
            },
            Slot::Halted => View::Halted,
        }
    }
}

impl<G: Group> Dispatcher<G> {
    // The seat of a task, once a start was accepted.
    fn known(&self, task: u16) -> Result<Seat, Denial>
        ensures { result ≡ known_answer (G.tasks self.now.group) (state G.places self.now) task }
    {
        let count = self.group.count();
        check_started(self.started, count)?;
        check_number(count, task)?;
        Ok(self.table.seat(task))
    }

    // Why a release of a task is refused, if it is.
    fn check_release(&self, task: u16) -> Result<(), Denial>
        ensures { result ≡ release_answer (G.tasks self.now.group) (state G.places self.now) task }
    {
        let seat = self.known(task)?;
        check_seat(self.group.gap(task), self.clock, seat)
    }

    // The present class of a task.
    fn class_now(&self, task: u16) -> u8
        ensures { result ≡ (at (G.tasks self.now.group) task).class_at (place (G.places self.now.group) task) }
    {
        self.group.present_class(task)
    }

    // Releases a task: a job of its present class, with nothing used.
    pub fn release(&mut self, task: u16) -> Result<(), Denial>
        ensures result { result ≡ release_answer (G.tasks self.old.group) (state G.places self.old) task }
        ensures state { state G.places self.new ≡ kept_if (release_fault (G.tasks self.old.group) (state G.places self.old) task)
            (state G.places self.old) (released (G.tasks self.old.group) task (state G.places self.old)) }
        ensures group { self.new.group ≡ self.old.group }
        ensures refused { OnErr result (self.new ≡ self.old) }
    {
        self.check_release(task)?;
        let class = self.class_now(task);
        let clock = self.clock;
        self.table.meet(task, Event::Release { class, clock });
        Ok(())
    }

    // Why a resume of a task is refused, if it is.
    fn check_resume(&self, task: u16) -> Result<(), Denial>
        ensures { result ≡ resume_answer (G.tasks self.now.group) (state G.places self.now) task }
    {
        let seat = self.known(task)?;
        check_halted(seat.slot)
    }

    // Resumes a halted task; the gap still counts from its last release.
    pub fn resume(&mut self, task: u16) -> Result<(), Denial>
        ensures result { result ≡ resume_answer (G.tasks self.old.group) (state G.places self.old) task }
        ensures state { state G.places self.new ≡ kept_if (resume_fault (G.tasks self.old.group) (state G.places self.old) task)
            (state G.places self.old) (resumed task (state G.places self.old)) }
        ensures group { self.new.group ≡ self.old.group }
        ensures refused { OnErr result (self.new ≡ self.old) }
    {
        self.check_resume(task)?;
        self.table.meet(task, Event::Resume);
        Ok(())
    }

    // Where a task stands; a pending job with its class, its age and the ticks in which it ran.
    pub fn slot(&self, task: u16) -> Result<View, Denial>
        ensures { result ≡ slot_answer (G.tasks self.now.group) (state G.places self.now) task }
    {
        check_task(&self.group, task)?;
        Ok(self.table.seat(task).slot.seen(self.clock))
    }
}
