//! Who uses how much memory, and how much each may: usage and quotas of accounts under nested sessions.
#![tactic(auto)]

mod parts;
mod usage;

pub use parts::Share;
pub use usage::{RamFault, Usage};

#[cfg(test)]
mod tests;
