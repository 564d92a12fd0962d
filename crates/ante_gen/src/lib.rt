//! The workload of `load`: what is added to a ledger and read of it, as a function of a seed.
#![tactic(auto)]

mod draws;
mod genesis;
#[cfg(test)]
mod tests;
mod workload;

pub use workload::{Workload, make_workload};
