// The printed sheet of a plate: the bound of every class, and whether the plan may start.
#![tactic(auto)]

mod line;
mod sheet;
mod tasks;
mod text;
mod verdict;

pub use sheet::print_sheet;
