//! Contract tables and their primary rows under nested sessions.
#![tactic(auto)]

mod rows;

pub use ante_state::{PrimaryRow, RowKey, TableRow};
pub use rows::{Rows, RowsMap};
