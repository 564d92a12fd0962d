use crate::chain::Action;
use ante_pack::{Bytes, Name, Seq};

/// Whether a run may change tables.
#[derive(Clone, Copy, Debug, PartialEq, Eq)]
pub enum Mode {
    Writing,
    Reading,
}

/// What one run of an action knows, and what it has asked for so far.
#[derive(Debug, Drop)]
pub struct RunContext {
    pub receiver: Name,
    pub action: Action,
    pub notified: bool,
    /// How many inline actions lead here, at most 4.
    pub depth: u8,
    pub sender: Name,
    pub slot: u32,
    pub mode: Mode,
    pub recipients: Seq<Name>,
    pub inlines: Seq<Action>,
    pub console: Bytes,
    pub return_value: Bytes,
}
