// The table of seats, one for each task that a dispatcher can serve.
ghost use Rattle.dispatcher.specs.Steady.{Sized};

use crate::slot::Seat;

// How many tasks a dispatcher can serve.
pub(crate) const SEATS: usize = 64;

// A plain array, as the memory is fixed, and every number below 64 has its seat.
#[derive(Drop)]
pub struct Table {
    pub(crate) seats: [Seat; SEATS],
    ghost sized: { Sized seats },
}
