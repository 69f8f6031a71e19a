// A group of work: a list of tasks, each at a position, and what every implementation owes.
ghost use Rattle.std.specs.Prelude.{◌≡◌, ℕ, ◌<◌, ◌≤◌, List, length};
ghost use Rattle.group.specs.Task.{Task, Lawful, Position, at, place, settled, terms_of};

use crate::meaning::{Outcome, Terms};

pub trait Group {
    // The tasks, numbered from 0. What each means never changes.
    ghost tasks: { Self → List Task };

    // The present position of each task.
    ghost places: { Self → List ℕ };

    // How many tasks there are.
    fn count(&self) -> u16
        ensures { result ≡ length (tasks self.now) };

    // A task or class that is not there is answered with 0: so the meaning of a list is total, and the laws need no case.

    // The gap of a task; 0 where there is none.
    fn gap(&self, task: u16) -> u16
        ensures { result ≡ (at (tasks self.now) task).gap };

    // How many classes a task has; 0 where there is none.
    fn class_count(&self, task: u16) -> u8
        ensures { result ≡ length (at (tasks self.now) task).classes };

    // The terms of a class, numbered from 1; zeros where there is none.
    fn terms(&self, task: u16, class: u8) -> Terms
        ensures { result ≡ terms_of (at (tasks self.now) task) class };

    // The class of a task's present position; 0 where there is none.
    fn present_class(&self, task: u16) -> u8
        ensures { result ≡ (at (tasks self.now) task).class_at (place (places self.now) task) };

    // The most that so many jobs of a task in a row can ask for in classes above a rank; 0 where there is none.
    fn demand(&self, task: u16, jobs: u16, rank: u8) -> u32
        ensures { result ≡ (at (tasks self.now) task).demand jobs rank };

    // Moves a task, if there is one, to the position after a job that ended so; no other task moves.
    fn settle(&mut self, task: u16, outcome: Outcome)
        ensures tasks { tasks self.new ≡ tasks self.old }
        ensures places { places self.new ≡ settled (tasks self.old) (places self.old) task outcome };

    ghost few: { (g : Self) → length (tasks g) ≤ 65535 };

    ghost placed: { (g : Self) → length (places g) ≡ length (tasks g) };

    ghost positioned: { (g : Self) (i : ℕ) → i < length (tasks g) → Position (at (tasks g) i) (place (places g) i) };

    ghost lawful: { (g : Self) (i : ℕ) → i < length (tasks g) → Lawful (at (tasks g) i) };
}
