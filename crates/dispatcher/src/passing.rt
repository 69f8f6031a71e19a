// A tick, task by task.
ghost use Rattle.std.specs.Prelude.{◌≡◌, ◌+◌, ◌<◌, ◌≤◌, true, ◌++◌, length, drop, slice_index_or, slice_set};
ghost use Rattle.group.specs.Task.{at, place};
ghost use Rattle.dispatcher.specs.Slots.{used_of, way_of, end_record};
ghost use Rattle.dispatcher.specs.State.{new_seat, is_running, tick_seat, settled_place, state_of, pending_count};
ghost use Rattle.dispatcher.specs.Records.{ends_upto};
ghost use Rattle.dispatcher.specs.Steady.{Steady};
ghost use Rattle.dispatcher.specs.Passing.{listed, Passed};

use crate::end::End;
use crate::seats::Table;
use crate::slot::Slot;
use crate::turn::{Tick, Turn};
use group::{Group, Outcome};

// One task's part in a tick: its seat, its position, and the record of an end.
fn pass_task<G: Group>(group: &mut G, table: &mut Table, tick: Tick, task: u16) -> Option<End>
    requires task { task < 64 }
    requires used { used_of (slice_index_or table.old.seats task new_seat).slot < 4294967295 }
    ensures seats { table.new.seats ≡ slice_set table.old.seats task
        (tick_seat (at (G.tasks group.old) task) tick.clock (is_running tick.ran task) tick.mark (slice_index_or table.old.seats task new_seat)) }
    ensures tasks { G.tasks group.new ≡ G.tasks group.old }
    ensures places { G.places group.new ≡ slice_set (G.places group.old) task (settled_place (at (G.tasks group.old) task)
        (way_of (at (G.tasks group.old) task) tick.clock (is_running tick.ran task) tick.mark (slice_index_or table.old.seats task new_seat).slot)
        (place (G.places group.old) task)) }
    ensures end { listed result ≡ end_record task tick.clock (slice_index_or table.old.seats task new_seat).slot
        (way_of (at (G.tasks group.old) task) tick.clock (is_running tick.ran task) tick.mark (slice_index_or table.old.seats task new_seat).slot) }
{
    let Slot::Pending {
        class,
        released,
        ..
    } = table.seat(task).slot
    else {
        return None;
    };
    let turn = Turn {
        tick,
        runs: tick.runs(task),
        gap: group.gap(task),
        terms: group.terms(task, class),
    };
    let way = table.seats[usize::from(task)].slot.pass(turn)?;
    group.settle(task, Outcome::from(way));
    Some(End {
        task,
        class,
        way,
        age: tick.end().saturating_sub(released),
    })
}

// The caller's list for ends, and how many records stand at its front. (The memory is the caller's, so no list of our own.)
#[derive(Drop)]
struct Records<'a> {
    list: &'a mut [End],
    count: usize,
}

impl<'a> Records<'a> {
    // Puts a record behind those that are there.
    fn push(&mut self, end: End)
        requires { self.old.count < length self.old.list.now }
        ensures same { self.new.list.ghost_name ≡ self.old.list.ghost_name }
        ensures list { self.new.list.now ≡ slice_set self.old.list.now self.old.count end }
        ensures count { self.new.count ≡ self.old.count + 1 }
    {
        self.list[self.count] = end;
        self.count += 1;
    }
}

// Lets a tick pass for every task: how many records stand at the front of the list. Group and table by themselves, and no method
// of the dispatcher: while the tick passes, the seats are between two clocks. And a `for`: it moves positions and writes as it goes.
pub(crate) fn pass_all<G: Group>(
    group: &mut G,
    table: &mut Table,
    tick: Tick,
    ends: &mut [End],
) -> usize
    requires few { length (G.tasks group.old) ≤ 64 }
    requires steady { Steady table.old.seats tick.clock }
    requires room { pending_count (G.tasks group.old) (state_of tick.clock true (G.places group.old) table.old.seats) ≤ length ends.old }
    ensures tasks { G.tasks group.new ≡ G.tasks group.old }
    ensures passed { Passed (G.tasks group.old) tick.clock tick.mark tick.ran (length (G.tasks group.old)) table.old.seats table.new.seats
        (G.places group.old) (G.places group.new) }
    ensures count { result ≡ length (ends_upto (G.tasks group.old) (state_of tick.clock true (G.places group.old) table.old.seats) tick.mark tick.ran (length (G.tasks group.old))) }
    ensures ends { ends.new ≡ ends_upto (G.tasks group.old) (state_of tick.clock true (G.places group.old) table.old.seats) tick.mark tick.ran
        (length (G.tasks group.old)) ++ drop result ends.old }
{
    let mut records = Records {
        list: ends,
        count: 0,
    };
    for task in 0..group.count() {
        if let Some(end) = pass_task(group, table, tick, task) {
            records.push(end);
        }
    }
    records.count
}
