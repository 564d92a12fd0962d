//! The intrinsics that aren't calls on tables.
#![tactic(auto)]

mod accounts;
mod action;
mod authorization;
mod call;
mod console;
mod control;
mod hashes;
mod limits;
mod moving;
mod numbers;
mod sending;
mod text;
mod wide_integers;

pub use call::sys_call;
