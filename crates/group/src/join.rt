// Two groups as one: the first list and then the second, ended at 65,535 tasks.
ghost use Rattle.std.specs.Prelude.{◌≡◌, ◌+◌, min};
ghost use Rattle.group.specs.Joined.{joint, part_of, Stands};
ghost use Rattle.std.proofs.Common.{arith};
ghost use Rattle.group.specs.JoinedLemmas.{joint_length, each};
ghost use Rattle.group.specs.Task.{Position, Lawful};

use crate::group::Group;
use crate::meaning::{Outcome, Terms};
use crate::part::Part;

// How many tasks a group has at most.
const MOST: u16 = u16::MAX;

// The two groups; each keeps its own positions.
#[derive(Drop)]
pub struct Join<A, B> {
    pub first: A,
    pub second: B,
}

// Where a task stands, if the first group has `before` tasks.
fn split(before: u16, task: u16) -> Part
    ensures { result ≡ part_of before task }
{
    if task < before {
        Part::First(task)
    } else if task < MOST {
        Part::Second(task - before)
    } else {
        Part::Absent
    }
}

// How many tasks two groups have together.
fn together(first: u16, second: u16) -> u16
    ensures { result ≡ min 65535 (first + second) }
{
    first.saturating_add(second)
}

impl<A: Group, B: Group> Join<A, B> {
    // Where a task of the joint list stands.
    fn part(&self, task: u16) -> Part
        ensures { Stands (A.Group.tasks self.now.first) (B.Group.tasks self.now.second) (A.Group.places self.now.first) (B.Group.places self.now.second) task result }
    {
        split(self.first.count(), task)
    }
}

impl<A: Group, B: Group> Group for Join<A, B> {
    ghost tasks = { λ j. joint (A.Group.tasks j.first) (B.Group.tasks j.second) };

    ghost places = { λ j. joint (A.Group.places j.first) (B.Group.places j.second) };

    ghost few = { λ j. let e = joint_length 65535 (A.Group.tasks j.first) (B.Group.tasks j.second) in omega arith };

    ghost placed = { λ j.
        let t = joint_length 65535 (A.Group.tasks j.first) (B.Group.tasks j.second) in
        let p = joint_length 65535 (A.Group.places j.first) (B.Group.places j.second) in
        omega (arith, A.Group.placed j.first, B.Group.placed j.second) };

    ghost positioned = { λ j i h.
        each 65535 (A.Group.tasks j.first) (B.Group.tasks j.second) (A.Group.places j.first) (B.Group.places j.second) (A.Group.placed j.first) Position
        (A.Group.positioned j.first) (B.Group.positioned j.second) i h };

    ghost lawful = { λ j i h.
        each 65535 (A.Group.tasks j.first) (B.Group.tasks j.second) (A.Group.places j.first) (B.Group.places j.second) (A.Group.placed j.first) (λ t _. Lawful t)
        (A.Group.lawful j.first) (B.Group.lawful j.second) i h };

    fn count(&self) -> u16 {
        together(self.first.count(), self.second.count())
    }

    // Each question asks another method, of groups of two types: so each has two closures of its own.
    fn gap(&self, task: u16) -> u16 {
        self.part(task)
            .ask(0, |i| self.first.gap(i), |i| self.second.gap(i))
    }

    fn class_count(&self, task: u16) -> u8 {
        self.part(task).ask(
            0,
            |i| self.first.class_count(i),
            |i| self.second.class_count(i),
        )
    }

    fn terms(&self, task: u16, class: u8) -> Terms {
        self.part(task).ask(
            Terms::NONE,
            |i| self.first.terms(i, class),
            |i| self.second.terms(i, class),
        )
    }

    fn present_class(&self, task: u16) -> u8 {
        self.part(task).ask(
            0,
            |i| self.first.present_class(i),
            |i| self.second.present_class(i),
        )
    }

    fn demand(&self, task: u16, jobs: u16, rank: u8) -> u32 {
        self.part(task).ask(
            0,
            |i| self.first.demand(i, jobs, rank),
            |i| self.second.demand(i, jobs, rank),
        )
    }

    // A match and no closures: a contract of each would have to say again what it moves.
    fn settle(&mut self, task: u16, outcome: Outcome) {
        match self.part(task) {
            Part::First(i) => self.first.settle(i, outcome),
            Part::Second(i) => self.second.settle(i, outcome),
            Part::Absent => {}
        }
    }
}
