// What a group's marks tell, and its bounds: why it may not be started.
ghost use Rattle.std.specs.Prelude.{◌≡◌, suc, ◌≤◌, length};
ghost use Rattle.std.specs.Option.{option_map};
ghost use Rattle.denial.specs.Checks.{unless};
ghost use Rattle.find.specs.First.{first, first_pair};
ghost use Rattle.group.specs.Task.{at, Class};
ghost use Rattle.admission.specs.Start.{uses, sharing, lacking, shared_fault, unbounded_fault, plan_fault};
ghost use Rattle.admission.specs.Ranks.{HoldsMarks, classes_fault};

use bounds::bound;
use denial::{Denial, Rule};
use group::Group;

// A group of at most 64 tasks, and the marks of its ranks.
#[derive(Drop)]
pub(crate) struct Marked<'g, 's, G: Group> {
    pub(crate) group: &'g G,
    pub(crate) marks: &'s [u8],
    ghost few: { length (G.tasks group.now) ≤ 64 },
    ghost held: { HoldsMarks (G.tasks group.now) marks.now },
}

impl<'g, 's, G: Group> Marked<'g, 's, G> {
    // The lowest task that uses a rank.
    fn lowest_user(&self, rank: u8) -> Option<u16>
        ensures { let ts = G.tasks self.now.group.now in result ≡ first (λ i. uses (at ts i).classes rank) (length ts) }
    {
        u16::from(self.marks[usize::from(rank)]).checked_sub(1)
    }

    // The first pair of tasks that share a rank, this one the second.
    fn shared_with(&self, task: u16) -> Option<(u16, u16)>
        ensures { let ts = G.tasks self.now.group.now in
            result ≡ option_map (λ i. (i, task)) (first (λ i. sharing ts i task) (length ts)) }
    {
        (1..=self.group.class_count(task))
            .map(|class| self.group.terms(task, class))
            .filter_map(|terms| self.lowest_user(terms.rank))
            .min()
            .filter(|lowest| *lowest < task)
            .map(|lowest| (lowest, task))
    }

    // The first two tasks that share a rank: the lowest first, then the lowest second.
    fn shared_pair(&self) -> Option<(u16, u16)>
        ensures { let ts = G.tasks self.now.group.now in result ≡ first_pair (sharing ts) (length ts) (λ _. length ts) }
    {
        (0..self.group.count())
            .filter_map(|task| self.shared_with(task))
            .min()
    }

    // Refuses a rank that two tasks share.
    fn check_ranks(&self) -> Result<(), Denial>
        ensures { result ≡ unless (shared_fault (G.tasks self.now.group.now)) tt }
    {
        match self.shared_pair() {
            Some((first, second)) => Err(Rule::SharedRank.denies(first, second)),
            None => Ok(()),
        }
    }

    // Whether a class must have a bound and has none.
    fn lacks_bound(&self, task: u16, class: u8) -> bool
        requires { Class (at (G.tasks self.now.group.now) task) class }
        ensures { result ≡ lacking (G.tasks self.now.group.now) task class }
    {
        !self.group.terms(task, class).tolerated
            && !matches!(bound(self.group, task, class), Ok(Some(_)))
    }

    // The lowest class of a task that must have a bound and has none.
    fn lowest_lacking(&self, task: u16) -> Option<u8>
        ensures { let ts = G.tasks self.now.group.now in
            result ≡ option_map suc (first (λ j. lacking ts task (suc j)) (length (at ts task).classes)) }
    {
        (1..=self.group.class_count(task)).find(|class| self.lacks_bound(task, *class))
    }

    // Refuses a task that has such a class.
    fn check_classes(&self, task: u16) -> Result<(), Denial>
        ensures { result ≡ unless (classes_fault (G.tasks self.now.group.now) task) tt }
    {
        match self.lowest_lacking(task) {
            Some(class) => Err(Rule::Unbounded.denies(task, u16::from(class))),
            None => Ok(()),
        }
    }

    // Refuses the lowest task that has such a class.
    fn check_bounds(&self) -> Result<(), Denial>
        ensures { result ≡ unless (unbounded_fault (G.tasks self.now.group.now)) tt }
    {
        (0..self.group.count()).try_for_each(|task| self.check_classes(task))
    }

    // Refuses a group in which two tasks share a rank, or a class that must have a bound has none.
    pub(crate) fn check(&self) -> Result<(), Denial>
        ensures { result ≡ unless (plan_fault (G.tasks self.now.group.now)) tt }
    {
        self.check_ranks()?;
        self.check_bounds()
    }
}
