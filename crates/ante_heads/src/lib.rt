//! What windows of readers, and those who follow the chain, need of an engine at a head.
//!
//! `specs/Reads.antt` and `specs/Hearings.antt` say what a read and an event come to.
#![tactic(auto)]

mod listener;
mod reads;
#[cfg(test)]
mod tests;

pub use listener::{HeadEvent, Hearing, Listener};
pub use reads::{HeadView, Reads};
