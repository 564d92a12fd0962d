//! Who may send an action: whether a permission is satisfied, and the check of an action's permissions.
#![tactic(auto)]

mod ancestors;
mod check;
mod least;
mod lookups;
mod natives;
mod weights;

pub use ante_execution::{AuthFault, Weighed};
pub use check::check_action;
pub use weights::satisfied;
