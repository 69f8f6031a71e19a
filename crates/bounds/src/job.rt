// A job of a class: what it and all that can run before it ask for, and the least number of ticks that is enough for that.
ghost use Rattle.std.specs.Prelude.{◌≡◌, ◌*◌, ◌<◌, ◌≤◌, length, nat_le, Some, None, MatchResult};
ghost use Rattle.std.specs.Bool.{then_some};
ghost use Rattle.group.specs.Task.{at, terms_of, Class};
ghost use Rattle.bounds.specs.Bound.{bound, class_fault, jobs, largest, request, sum, workload};

use crate::check_task;
use denial::{Denial, Rule};
use group::Group;

// How many jobs of a task with this gap can be released within `ticks` ticks at most.
fn jobs_within(ticks: u16, gap: u16) -> u16
    requires { 1 ≤ gap }
    ensures { result ≡ jobs ticks gap }
{
    ticks.div_ceil(gap)
}

// Whether so many ticks are enough for what is asked for within them.
fn is_enough(work: u32, ticks: u16) -> bool
    ensures { result ≡ nat_le work ticks }
{
    work <= u32::from(ticks)
}

// As many ticks as are asked for, if the gap has so many.
fn within_gap(work: u32, gap: u16) -> Option<u16>
    ensures { result ≡ then_some (nat_le work gap) work }
{
    u16::try_from(work).ok().filter(|ticks| *ticks <= gap)
}

// The largest budget among the classes of a task ranked `least` or higher.
fn largest_budget<G: Group>(group: &G, task: u16, least: u8) -> u16
    ensures { result ≡ largest least (at (G.tasks group.now) task).classes }
{
    (1..=group.class_count(task))
        .map(|class| group.terms(task, class))
        .filter(|terms| terms.rank >= least)
        .map(|terms| terms.budget)
        .max()
        .unwrap_or(0)
}

// A job of a class that a task has, in a group of at most 64 tasks: its rank, and the most that its task can ask for before it ends.
#[derive(Drop)]
pub(crate) struct Job<'g, G: Group> {
    group: &'g G,
    task: u16,
    class: u8,
    rank: u8,
    own: u16,
    ghost few: { length (G.tasks group.now) ≤ 64 },
    ghost has_task: { task < length (G.tasks group.now) },
    ghost has_class: { Class (at (G.tasks group.now) task) class },
    ghost ranked: { rank ≡ (terms_of (at (G.tasks group.now) task) class).rank },
    ghost asks: { own ≡ largest rank (at (G.tasks group.now) task).classes },
}

impl<'g, G: Group> Job<'g, G> {
    // Refuses a group of no task or more than 64, a task that it does not have, and a class that the task does not have.
    pub(crate) fn of(group: &'g G, task: u16, class: u8) -> Result<Job<'g, G>, Denial>
        ensures { MatchResult result
            (λ job. (job.group.now ≡ group.now) × (job.task ≡ task) × (job.class ≡ class) × (class_fault (G.tasks group.now) task class ≡ None))
            (λ denial. class_fault (G.tasks group.now) task class ≡ Some denial) }
    {
        check_task(group, task)?;
        if class == 0 || class > group.class_count(task) {
            return Err(Rule::NoClass.denies(0, 0));
        }
        let rank = group.terms(task, class).rank;
        Ok(Job {
            group,
            task,
            class,
            rank,
            own: largest_budget(group, task, rank),
        })
    }

    // What another task can ask for above its rank within `ticks` ticks; its own task asks for nothing here.
    fn request(&self, other: u16, ticks: u16) -> u32
        requires { other < length (G.tasks self.now.group.now) }
        ensures { result ≡ request (G.tasks self.now.group.now) self.now.task ticks self.now.rank other }
    {
        if other == self.task {
            0
        } else {
            self.group.demand(other, jobs_within(ticks, self.group.gap(other)), self.rank)
        }
    }

    // What all other tasks can ask for above its rank within `ticks` ticks.
    fn requests(&self, ticks: u16) -> u32
        ensures value { let ts = G.tasks self.now.group.now in
            result ≡ sum (length ts) (request ts self.now.task ticks self.now.rank) }
        ensures small { result ≤ 64 * (4095 * 4095) }
    {
        (0..self.group.count())
            .map(|other| self.request(other, ticks))
            .sum()
    }

    // What the job and all that can run before it ask for within `ticks` ticks.
    fn workload(&self, ticks: u16) -> u32
        ensures { result ≡ workload (G.tasks self.now.group.now) self.now.task self.now.class ticks }
    {
        u32::from(self.own) + self.requests(ticks)
    }

    // The least number of ticks that is enough, if any up to the gap is. Ticks grow to what was asked for within them, until they
    // are enough: what is asked for never falls as they grow, so none in between is enough.
    #[tactic(auto, using(crate::proofs::Least::bound_found))]
    pub(crate) fn bound(&self) -> Option<u16>
        ensures { result ≡ bound (G.tasks self.now.group.now) self.now.task self.now.class }
    {
        let gap = self.group.gap(self.task);
        let mut ticks = self.own;
        loop {
            let work = self.workload(ticks);
            if is_enough(work, ticks) {
                return Some(ticks);
            }
            ticks = within_gap(work, gap)?;
        }
    }
}
