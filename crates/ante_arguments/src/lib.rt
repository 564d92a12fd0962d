//! What the arguments of a contract's call name: numbers, names, and ranges of its memory; and what the bytes cost that a call moves.
#![tactic(auto)]

mod numbers;
mod paying;
mod ranges;

pub use numbers::{arg, arg32, name_arg, signed_arg};
pub use paying::pay;
pub use ranges::{bytes_from, bytes_in, first, put, range};
