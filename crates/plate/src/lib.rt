// The plan plate: its rows are read exactly, or the first rule that it breaks is named.
#![tactic(auto)]

pub mod accept;
mod cursor;
mod faults;
pub mod frame;
pub mod reader;
mod reading;
pub mod row;
mod rows;
pub mod rules;
pub mod same;
mod start;
pub mod writer;
