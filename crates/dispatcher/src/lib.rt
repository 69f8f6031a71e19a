// The dispatcher: it starts over a group of work in which no two tasks share a rank and every class that must have a bound has
// one, and runs its jobs by rank.
#![tactic(auto)]

mod board;
mod calls;
mod checks;
mod dispatcher;
pub mod end;
pub mod event;
mod machine;
mod order;
mod passing;
mod seating;
mod seats;
pub mod slot;
mod tick;
mod turn;
pub mod view;

pub use board::Dispatcher;
