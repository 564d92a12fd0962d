//! The whole state of the chain under one set of sessions, with what each account is billed.
#![tactic(auto)]

mod apply;
mod apply_indexes;
mod apply_objects;
mod apply_rows;
mod billing;
mod bills;
mod change;
mod digest;
mod genesis;
mod maps;
mod parts;
mod sizes;
mod store;
mod tables;
mod widths;

pub use change::{Change, WriteError};
pub use store::{Store, WorldMap};
pub use tables::{Reading, Tables, Writing};
