// The marks of ranks: 1 plus the lowest task that uses the rank, or 0. They are bytes, one for each rank, in memory that the start
// lends, since a device has no heap.
ghost use Rattle.std.specs.Prelude.{◌≡◌, ◌+◌, ◌≤◌, true, ◌++◌, length, drop};
ghost use Rattle.group.specs.Task.{at};
ghost use Rattle.admission.specs.Start.{marks};
ghost use Rattle.admission.specs.Ranks.{marked_byte, MarkedBy};

use group::Group;

// The mark of a rank once a task with this mark uses it: the first mark stays.
fn first_mark(old: u8, mark: u8) -> u8
    ensures { result ≡ marked_byte true mark old }
{
    if old == 0 { mark } else { old }
}

// Marks the ranks that a task uses and that have no mark yet. A `for`, as below, since it writes: `for_each` is no plainer.
fn mark_task<G: Group>(group: &G, task: u16, scratch: &mut [u8])
    requires few { length (G.tasks group.now) ≤ 64 }
    requires room { 256 ≤ length scratch.old }
    ensures { MarkedBy (at (G.tasks group.now) task).classes (task + 1) scratch.old scratch.new }
{
    for class in 1..=group.class_count(task) {
        let rank = usize::from(group.terms(task, class).rank);
        // A task number is below 64 here, so it fits a byte.
        scratch[rank] = first_mark(scratch[rank], task as u8 + 1);
    }
}

// Writes the marks of all ranks into the first 256 bytes.
pub(crate) fn mark_ranks<G: Group>(group: &G, scratch: &mut [u8])
    requires few { length (G.tasks group.now) ≤ 64 }
    requires room { 256 ≤ length scratch.old }
    ensures { scratch.new ≡ marks (G.tasks group.now) ++ drop 256 scratch.old }
{
    scratch[..256].fill(0);
    for task in 0..group.count() {
        mark_task(group, task, scratch);
    }
}
