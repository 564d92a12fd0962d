//! The chain's own objects under nested sessions: accounts, permissions, links, recent transactions and references.
#![tactic(auto)]

mod asked;
mod authorities;
mod changes;
mod history;
mod lookups;
mod objects;

pub use ante_state::{AccountRow, LinkKey, PermissionRow, RecentKey};
pub use objects::{Objects, ObjectsMap};
