//! Validated modules by their code, kept for the threads that ask for them.
#![tactic(auto)]

mod cache;
mod cached;
mod fault;
#[cfg(test)]
mod tests;

pub use cache::{ModuleCache, ModuleRef};
pub use fault::{CodeFault, ModuleError};
