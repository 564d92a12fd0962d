//! The digest of the chain's state: its lists, packed one after the other and fed into SHA-256 without taking memory.
#![tactic(auto)]

mod digest;
mod entries;
mod feeding;
pub mod laws;
mod listed;
mod lists;

pub use digest::digest_of_parts;
