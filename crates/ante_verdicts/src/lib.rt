//! Who signed, and which seals are a producer's, as an object decides that is handed in.
#![tactic(auto)]

mod named;
mod verdicts;

pub use named::NamedVerdicts;
pub use verdicts::Verdicts;
