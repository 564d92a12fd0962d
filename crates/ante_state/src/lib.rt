//! What the chain's state is made of: tables and their rows, accounts and permissions, and the keys in several parts that
//! they stand under.
#![tactic(auto)]

pub mod billing;
mod laws;
mod objects;
mod tables;

pub use laws::{
    index_is_ordered, levels_are_ordered, links_are_ordered, names_are_ordered, recent_are_ordered,
    rows_are_ordered, tables_are_ordered, total_order,
};
pub use objects::{AccountRow, LinkKey, PermissionRow, RecentKey};
pub use tables::{IndexKey, PrimaryRow, RowKey, TableRow};
