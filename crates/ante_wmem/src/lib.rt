//! The linear memory of WebAssembly Core 1.0 as a list of bytes, and what the interpreter asks of its host.
#![tactic(auto)]

mod bytes;
mod host;
pub mod limits;
mod memory;
#[cfg(test)]
mod tests;

pub use host::{Host, HostAnswer, HostFn};
pub use memory::Memory;
use thiserror::Error;

/// How many bytes a load or a store moves.
#[derive(Clone, Copy, PartialEq, Eq, Debug)]
pub enum Width {
    One,
    Two,
    Four,
    Eight,
}

/// A byte of the range lies past the memory's end.
#[derive(Clone, Copy, PartialEq, Eq, Debug, Error)]
#[error("out of bounds memory access")]
pub struct OutOfBounds;
