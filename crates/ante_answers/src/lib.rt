//! What the state answers to queries on accounts, table rows and scopes.
#![tactic(auto)]

mod accounts;
mod answering;
mod packing;
mod pages;
mod ranges;
mod scopes;

pub use answering::store_text;
