//! What the first act of a block, its transactions and its last act do to the store, and what read-only transactions answer.
#![tactic(auto)]

mod actions;
mod acts;
mod reading;
mod session;
mod traces;
mod transaction;

pub use acts::{begin_block, finish_block};
pub use reading::read_transaction;
pub use transaction::run_transaction;
