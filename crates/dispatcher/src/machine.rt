// The slot machine: what each event makes of a slot, and what a tick does to its job.
ghost use Rattle.std.specs.Prelude.{◌≡◌, ◌+◌, ◌<◌};
ghost use Rattle.dispatcher.specs.Slots.{meets, is_pending, ending, way_ran, way_with, event_of, outcome_of, run_slot, end_slot, used_of, counted_to};
ghost use Rattle.dispatcher.specs.State.{is_running};

use crate::end::Way;
use crate::event::Event;
use crate::slot::Slot;
use crate::turn::{Tick, Turn};
use group::Outcome;

impl Way {
    // What the end is to the slot: a miss counts as an expiry. (No `From`, since it takes `tolerated` too.)
    fn event(self, tolerated: bool) -> Event
        ensures event { result ≡ event_of self tolerated }
        ensures quiet { (slot : Slot) → counted_to result slot ≡ 0 }
    {
        match self {
            Way::Finished => Event::Finish,
            Way::Cut | Way::Late => Event::Expiry { tolerated },
        }
    }
}

// And to the group.
impl From<Way> for Outcome {
    ghost from_gives = { λ way outcome. outcome ≡ outcome_of way };

    fn from(way: Way) -> Outcome {
        match way {
            Way::Finished => Outcome::Finish,
            Way::Cut | Way::Late => Outcome::Miss,
        }
    }
}

impl Tick {
    // The clock once the tick has passed.
    pub(crate) fn end(self) -> u32
        ensures { result ≡ self.clock + 1 }
    {
        self.clock + 1
    }

    // Whether a task is the one that runs.
    pub(crate) fn runs(self, task: u16) -> bool
        ensures { result ≡ is_running self.ran task }
    {
        self.ran == Some(task)
    }
}

impl Turn {
    // How a pending job of this age, which ran in so many ticks, ends in the tick, if it does.
    fn end_of(self, age: u32, used: u32) -> Option<Way>
        ensures { result ≡ ending self.runs self.tick.mark self.terms.budget self.gap age used }
    {
        if self.runs && self.tick.mark {
            Some(Way::Finished)
        } else if self.runs && used == u32::from(self.terms.budget) {
            Some(Way::Cut)
        } else if age == u32::from(self.gap) {
            Some(Way::Late)
        } else {
            None
        }
    }
}

impl Slot {
    // Whether a job is pending.
    pub(crate) fn is_pending(self) -> bool
        ensures { result ≡ is_pending self }
    {
        matches!(self, Slot::Pending { .. })
    }

    // What the slot is after an event. An event that has no place in a state leaves it as it is.
    pub(crate) fn meet(self, event: Event) -> Slot
        requires { counted_to event self < 4294967296 }
        ensures { result ≡ meets self event }
    {
        match (self, event) {
            (Slot::Empty, Event::Release { class, clock }) => Slot::Pending {
                class,
                released: clock,
                used: 0,
            },
            (
                Slot::Pending {
                    class,
                    released,
                    used,
                },
                Event::Run,
            ) => Slot::Pending {
                class,
                released,
                used: used + 1,
            },
            (Slot::Pending { .. }, Event::Finish) => Slot::Empty,
            (Slot::Pending { .. }, Event::Expiry { tolerated }) => {
                if tolerated { Slot::Empty } else { Slot::Halted }
            }
            (Slot::Halted, Event::Resume) => Slot::Empty,
            (same, _) => same,
        }
    }

    // How the job ends in a tick, in which it has run if it is the one that does.
    fn way(self, turn: Turn) -> Option<Way>
        ensures { result ≡ way_ran turn.terms.budget turn.gap turn.tick.clock turn.runs turn.tick.mark self }
    {
        match self {
            Slot::Pending { released, used, .. } => {
                turn.end_of(turn.tick.end().saturating_sub(released), used)
            }
            _ => None,
        }
    }

    // Lets a tick pass: the job runs, if it is the one that does, and ends, if it comes to that.
    pub(crate) fn pass(&mut self, turn: Turn) -> Option<Way>
        requires { used_of self.old < 4294967295 }
        ensures way { result ≡ way_with turn.terms.budget turn.gap turn.tick.clock turn.runs turn.tick.mark self.old }
        ensures slot { self.new ≡ end_slot (run_slot turn.runs self.old) result turn.terms.tolerated }
    {
        if turn.runs {
            *self = self.meet(Event::Run);
        }
        let way = self.way(turn);
        if let Some(ended) = way {
            *self = self.meet(ended.event(turn.terms.tolerated));
        }
        way
    }
}
