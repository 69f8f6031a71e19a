// Groups of work: what a group of tasks means, the laws that each owes, and two groups joined into one.
#![tactic(auto)]

mod group;
mod join;
mod meaning;
mod part;

pub use group::Group;
pub use join::Join;
pub use meaning::{Outcome, Terms};
