//! What a journal of `serve` means: events, and a run of the links and the chain that leaves them.
//!
//! `specs/Desk.antt` has what happens to links and their requests.
#![tactic(auto)]

mod event;
mod waiting;

pub use event::NodeEvent;
pub use waiting::Waiting;
