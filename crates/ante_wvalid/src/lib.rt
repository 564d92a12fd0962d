//! The validation of WebAssembly modules (Core 1.0, chapter 3), with the rules of this profile.
#![tactic(auto)]

mod bodies;
mod functions;
mod imports;
mod jumps;
mod kinds;
pub mod laws;
mod operand_types;
mod repeats;
mod rules;
mod scope;
mod valid;

pub use kinds::{InvalidKind, ModuleRule, ValidateError};
pub use valid::{ValidModule, validate};
