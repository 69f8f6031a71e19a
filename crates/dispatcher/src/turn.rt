// What a tick is: to all tasks, and to one.
ghost use Rattle.std.specs.Prelude.{◌<◌};

use group::Terms;

// A tick: the clock before it, the task that runs, if one does, and the finish mark. The clock is not yet at its last value.
#[derive(Clone, Copy)]
pub struct Tick {
    pub(crate) clock: u32,
    pub(crate) ran: Option<u16>,
    pub(crate) mark: bool,
    ghost goes_on: { clock < 4294967295 },
}

// One task's turn in a tick: whether it is the one that runs (asked of the tick once, so that a turn needs no task number), its gap, and the terms of its job's class.
#[derive(Clone, Copy)]
pub struct Turn {
    pub(crate) tick: Tick,
    pub(crate) runs: bool,
    pub(crate) gap: u16,
    pub(crate) terms: Terms,
}
