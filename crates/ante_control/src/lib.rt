//! The chain: blocks come in, the longest branch that runs is chosen, and the machine's worlds are that branch's replay.
//!
//! `specs/Chosen.antt` says which branch is chosen and what its replay is, `specs/Pushing.antt` what a push answers and leaves,
//! `specs/Making.antt` what a block is that the chain makes itself, and `specs/Sealed.antt` what sealing it leaves.
#![tactic(auto)]

mod branches;
mod chain;
mod enter;
mod error;
pub mod laws;
mod make;
mod sizes;
mod take;

pub use chain::Chain;
pub use error::{PushError, Pushed};
