// The bound of a class: the most ticks from the release of a job of that class to its end, over any group of work.
#![tactic(auto)]

mod job;

ghost use Rattle.std.specs.Prelude.{◌≡◌, ◌<◌, ◌≤◌, length, IfOk};
ghost use Rattle.denial.specs.Checks.{unless};
ghost use Rattle.group.specs.Task.{at, Class};
ghost use Rattle.bounds.specs.Bound.{bound, bound_answer, count_fault, task_fault, class_fault, SaysBound};

use denial::{Denial, Rule};
use group::Group;
use job::Job;

// Refuses a group that has no task, or more than 64.
pub fn check_count<G: Group>(group: &G) -> Result<(), Denial>
    ensures { result ≡ unless (count_fault (G.tasks group.now)) tt }
{
    if !(1..=64).contains(&group.count()) {
        return Err(Rule::TaskCount.denies(0, 0));
    }
    Ok(())
}

// And a task number that is not below the count. (The public calls name a class by its numbers; inside, a `Job` carries them.)
pub fn check_task<G: Group>(group: &G, task: u16) -> Result<(), Denial>
    ensures { result ≡ unless (task_fault (G.tasks group.now) task) tt }
{
    check_count(group)?;
    if task >= group.count() {
        return Err(Rule::NoTask.denies(0, 0));
    }
    Ok(())
}

// The bound of a class of a task, none where there is none.
pub fn bound<G: Group>(group: &G, task: u16, class: u8) -> Result<Option<u16>, Denial>
    ensures result { result ≡ bound_answer (G.tasks group.now) task class }
    ensures says { IfOk result (SaysBound (G.tasks group.now) task class) }
{
    Ok(Job::of(group, task, class)?.bound())
}
