//! The binary format of WebAssembly Core 1.0 (chapter 5), without floating-point numbers.
#![tactic(auto)]

mod code;
mod fault;
mod integers;
mod items;
mod nested;
mod opcodes;
mod parts;
mod sections;
mod single;
mod types;
mod whole;

pub use fault::{DecodeError, DecodeKind};
pub use whole::decode;
