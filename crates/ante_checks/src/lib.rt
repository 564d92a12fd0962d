//! What is asked of a transaction: before its actions run, and of the memory that they leave used.
#![tactic(auto)]

mod authority;
mod form;
mod memory;
mod refusals;
mod sizes;
mod standing;

pub use memory::check_memory;
pub use refusals::{check_reading, check_transaction};
pub use standing::is_expired;
