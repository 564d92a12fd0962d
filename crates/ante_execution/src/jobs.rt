use ante_pack::{Name, Seq};
use ante_types::Action;

/// Who runs, and why.
#[derive(Clone, Copy, Debug, PartialEq, Eq)]
pub struct Job {
    pub receiver: Name,
    pub notified: bool,
    /// How many inline actions lead here.
    pub depth: u8,
    pub sender: Name,
    /// The ordinal of the run that caused it, or 0.
    pub creator: u32,
}

/// The run that sent an inline action, by its receiver and its ordinal.
#[derive(Clone, Copy, Debug, PartialEq, Eq)]
pub struct Sender {
    pub receiver: Name,
    pub ordinal: u32,
}

/// What the runs of an action have asked for.
#[derive(Debug, Drop)]
pub struct Asked {
    /// Whom to notify, in the order in which they were first named.
    pub recipients: Seq<Name>,
    /// For each recipient the receiver of the run that named it first.
    pub namers: Seq<Name>,
    pub inlines: Seq<Action>,
    /// For each inline action the run that sent it.
    pub senders: Seq<Sender>,
}
