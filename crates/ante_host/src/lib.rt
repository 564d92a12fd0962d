//! A run of code over the chain's tables: the host that the interpreter is given, and the run of one module over it.
#![tactic(auto)]

mod code;
mod host;
mod intrinsics;
mod own;
mod sending;

pub use code::run_code;
