use crate::chain::Head;
use crate::failure::Failure;
use ante_pack::{Bytes, Digest, Name, Seq};

/// One run of an action: its place in the order in which runs began, from 1, and the run that caused it, or 0.
#[derive(Debug, Drop)]
pub struct ActionTrace {
    pub ordinal: u32,
    pub creator: u32,
    pub receiver: Name,
    pub account: Name,
    pub name: Name,
    pub bytes: Bytes,
    pub console: Bytes,
    pub return_value: Bytes,
    pub steps: u64,
}

/// What a transaction did on the state at a head: the head's position in the applied list, and all runs begun.
#[derive(Debug, Drop)]
pub struct Trace {
    pub position: u64,
    pub head: Head,
    pub id: Digest,
    pub failure: Option<Failure>,
    pub steps: u64,
    pub actions: Seq<ActionTrace>,
}
