//! What the chain asks of an engine. It stands for a stack of worlds, the newest of which has a block number, and blocks and
//! transactions are functions on worlds.
//!
//! `specs/Steps.antt` says what a block does, over what an engine does.
#![tactic(auto)]

mod machine;

pub use machine::{BlockMachine, Worlds};
