//! Maps with nested sessions: every change since the beginning of a session can be taken back,
//! kept, or put on a shelf and brought back. Contracts see a map as a stack of whole maps.
#![tactic(auto)]

mod layered;
mod logs;
mod neighbours;
mod slots;

pub use crate::layered::Layered;

#[cfg(test)]
mod tests;
