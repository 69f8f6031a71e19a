// Who runs next, and which job expires next.
ghost use Rattle.std.specs.Prelude.{◌≡◌, ◌<◌, length, IfSome, slice_index_or};
ghost use Rattle.group.specs.Task.{at};
ghost use Rattle.dispatcher.specs.State.{new_seat};
ghost use Rattle.dispatcher.specs.Keys.{rank_key, expiry_key, KeysOf};
ghost use Rattle.dispatcher.specs.Questions.{next_answer, expiry_answer};
ghost use Rattle.dispatcher.specs.Boards.{state};

use crate::board::Dispatcher;
use crate::seats::SEATS;
use crate::slot::Slot;
use choose::foremost;
use group::Group;
use std::cmp::Reverse;

// Ticks left and task number: fewer ticks go ahead, and of as many the lower task.
#[derive(Clone, Copy, PartialEq, Eq, PartialOrd, Ord)]
pub struct ByExpiry {
    pub left: u32,
    pub task: u16,
}

// A place in the table, as a task number. (No `From`: it narrows.)
fn numbered(place: Option<usize>) -> Option<u16>
    requires { IfSome place (λ i. i < 65536) }
    ensures { result ≡ place }
{
    place.and_then(|i| u16::try_from(i).ok())
}

// The keys go to `foremost` as an array, since that is a public call over a slice, and the memory is fixed.
impl<G: Group> Dispatcher<G> {
    // The rank of a task's pending job; the higher goes ahead.
    fn rank(&self, task: u16) -> Option<Reverse<u8>>
        ensures { result ≡ rank_key (at (G.tasks self.now.group) task) (slice_index_or self.now.table.seats task new_seat).slot }
    {
        match self.table.seat(task).slot {
            Slot::Pending { class, .. } => Some(Reverse(self.group.terms(task, class).rank)),
            _ => None,
        }
    }

    // The ticks that a task's pending job has left.
    fn left(&self, task: u16) -> Option<ByExpiry>
        ensures { result ≡ expiry_key (at (G.tasks self.now.group) task).gap task self.now.clock (slice_index_or self.now.table.seats task new_seat).slot }
    {
        match self.table.seat(task).slot {
            Slot::Pending { released, .. } => {
                let age = self.clock.saturating_sub(released);
                let left = u32::from(self.group.gap(task)).saturating_sub(age);
                Some(ByExpiry { left, task })
            }
            _ => None,
        }
    }

    // The ranks of all pending jobs. (Of the tasks that there are, and the group is asked for their number once. Keys of all seats by
    // `from_fn` were tried: for a few tasks that took twice the time.)
    fn ranks(&self) -> [Option<Reverse<u8>>; SEATS]
        ensures { KeysOf (λ i. rank_key (at (G.tasks self.now.group) i) (slice_index_or self.now.table.seats i new_seat).slot)
            (length (G.tasks self.now.group)) result }
    {
        let mut keys = [None; SEATS];
        for task in 0..self.group.count().min(64) {
            keys[usize::from(task)] = self.rank(task);
        }
        keys
    }

    // The ticks left of all pending jobs.
    fn all_left(&self) -> [Option<ByExpiry>; SEATS]
        ensures { KeysOf (λ i. expiry_key (at (G.tasks self.now.group) i).gap i self.now.clock (slice_index_or self.now.table.seats i new_seat).slot)
            (length (G.tasks self.now.group)) result }
    {
        let mut keys = [None; SEATS];
        for task in 0..self.group.count().min(64) {
            keys[usize::from(task)] = self.left(task);
        }
        keys
    }

    // The task that would run next: the one whose pending job has the highest rank; none when idle.
    pub fn next_to_run(&self) -> Option<u16>
        ensures { result ≡ next_answer (G.tasks self.now.group) (state G.places self.now) }
    {
        numbered(foremost(&self.ranks()))
    }

    // The task whose pending job expires next: the one with the fewest ticks left, the lower task on a tie; none when idle.
    pub fn next_expiry(&self) -> Option<u16>
        ensures { result ≡ expiry_answer (G.tasks self.now.group) (state G.places self.now) }
    {
        numbered(foremost(&self.all_left()))
    }
}
