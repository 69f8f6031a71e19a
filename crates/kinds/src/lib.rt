// The two kinds of task, each in a table of at most 16 rows that never holds a row which breaks the rules of its kind.
#![tactic(auto)]

mod counted_row;
mod entry;
mod exact;
mod frame_row;
mod rows;
mod steps;
mod table;
mod table_group;
mod table_row;

pub use entry::Entry;
pub use exact::{counts_misses, demands_are_attained, tables_are_sound};
pub use rows::{FrameRow, MissCountedRow};
pub use table::Table;
pub use table_row::TableRow;

// The table of miss-counted rows, and that of frame rows.
pub type MissCountedTable = Table<MissCountedRow>;

pub type FrameTable = Table<FrameRow>;
