//! A machine over any value with sessions: each block is a session of it, and so is the block that is being made.
#![tactic(auto)]

mod effects;
mod machine;
mod run;

pub use effects::Effects;
pub use machine::SessionMachine;
