//! Which codes are accepted: those that encode a valid module, told from all others by a function.
#![tactic(auto)]

ghost use Rattle.ante_execution.specs.Codes.{Accepts};
ghost use Rattle.ante_accepts.specs.Accepting.{accepts};

/// A law: `accepts` tells the codes of valid modules from all others.
#[tactic(auto, using(crate::proofs::Accepted::accepted))]
pub fn accepted_are_told()
    ensures { Accepts accepts }
{}
