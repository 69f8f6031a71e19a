// Plans between plates and tables: a plate is loaded into two tables, and two tables are saved as a plate.
#![tactic(auto)]

pub mod load;
mod plate_row;
pub mod save;
