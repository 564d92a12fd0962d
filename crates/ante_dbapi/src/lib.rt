//! The calls of a contract on primary rows: rows are found, walked, read, stored, updated and removed, by the numbers that stand for them.
#![tactic(auto)]

mod looking;
mod meeting;
mod neighbours;
mod payers;
mod walking;
mod writing;

pub use looking::{db_end_i64, db_find_i64, db_lowerbound_i64, db_upperbound_i64};
pub use meeting::{has_table, meet_both};
pub use payers::{is_account, may_bill};
pub use walking::{db_get_i64, db_next_i64, db_previous_i64, live_row};
pub use writing::{db_remove_i64, db_store_i64, db_update_i64, make, own_row};
