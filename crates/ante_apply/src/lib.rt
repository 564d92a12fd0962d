//! One action with all that it causes: its runs, the runs of whom they notify, and the actions that they send.
#![tactic(auto)]

mod action;
mod codes;
mod jobs;
mod notices;
mod one;
mod run;
mod scene;
mod steps;

pub use action::apply_action;
pub use ante_execution::ApplyEnd;
