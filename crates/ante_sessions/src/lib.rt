//! Session calls, written once: for maps, for two values that are in the same sessions, and for a value that is seen
//! through a function and keeps a rule.
#![tactic(auto)]

mod both;
mod entry;
mod kept;
mod sessions;
mod walk;

pub use both::Both;
pub use entry::set_entry;
pub use kept::{Kept, Rule};
pub use sessions::{Entries, Sessions};
pub use walk::next_entry;
