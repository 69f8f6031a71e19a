// What a dispatcher holds.
ghost use Rattle.dispatcher.specs.Steady.{Steady};

use crate::seats::Table;

// The group, the table of seats, the clock, and whether a start was accepted. No job was released after the clock, or ran for
// more ticks than have passed since.
#[derive(Drop)]
pub struct Dispatcher<G> {
    pub(crate) group: G,
    pub(crate) table: Table,
    pub(crate) clock: u32,
    // A flag, and no type of its own for each state: a start goes by `&mut self`, and what it turns is this alone. The rest is read
    // either way.
    pub(crate) started: bool,
    ghost steady: { Steady table.seats clock },
}
