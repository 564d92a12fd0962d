//! What the system's account does itself, and what a genesis must be.
#![tactic(auto)]

mod action;
mod authority;
mod codes;
mod costs;
mod deleteauth;
mod genesis;
mod linkauth;
mod lookups;
mod newaccount;
mod parts;
mod rising;
mod setabi;
mod setcode;
mod unlinkauth;
mod updateauth;

pub use action::{native, native_of_run};
pub use costs::native_steps;
pub use genesis::check_genesis;
