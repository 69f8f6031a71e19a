// What happens to one seat, and the seats of a table.
ghost use Rattle.std.specs.Prelude.{◌≡◌, ◌<◌, slice_index_or, slice_set};
ghost use Rattle.dispatcher.specs.Slots.{counted_to};
ghost use Rattle.dispatcher.specs.State.{new_seat, meets_seat};

use crate::event::Event;
use crate::seats::Table;
use crate::slot::{Seat, Slot};

impl Seat {
    // A seat that nothing has happened to.
    pub(crate) const NEW: Seat = Seat {
        slot: Slot::Empty,
        last: None,
    };

    // The task meets an event. The gap counts from the last release on.
    fn meet(&mut self, event: Event)
        requires { counted_to event self.old.slot < 4294967296 }
        ensures { self.new ≡ meets_seat event self.old }
    {
        self.slot = self.slot.meet(event);
        if let Event::Release { clock, .. } = event {
            self.last = Some(clock);
        }
    }
}

impl Table {
    // A task meets an event.
    pub(crate) fn meet(&mut self, task: u16, event: Event)
        requires task { task < 64 }
        requires counted { counted_to event (slice_index_or self.old.seats task new_seat).slot < 4294967296 }
        ensures { self.new.seats ≡ slice_set self.old.seats task (meets_seat event (slice_index_or self.old.seats task new_seat)) }
    {
        self.seats[usize::from(task)].meet(event);
    }

    // The seat of a task; a new one past the last seat.
    pub(crate) fn seat(&self, task: u16) -> Seat
        ensures { result ≡ slice_index_or self.now.seats task new_seat }
    {
        self.seats
            .get(usize::from(task))
            .copied()
            .unwrap_or(Seat::NEW)
    }
}
