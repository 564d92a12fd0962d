//! The top call of the node: what the program does with its words and its input.
#![tactic(auto)]

mod ask;
mod command;
mod failure;
mod fault;
mod limits;
mod lines;
mod node;
mod read_only;
mod report;

pub use fault::{InputFault, InputKind, NodeEnd, NodeFault};
pub use node::{OfflineEnd, run_node, run_offline};
