//! The interpreter of WebAssembly Core 1.0 (section 4), exact to the last step.
#![tactic(auto)]

mod blocks;
mod control;
mod instance;
mod machine;
mod run;
mod stretch;
mod thread;

pub use ante_wmeaning::{RunEnd, TrapKind, imports_have_host_types};
pub use ante_wmem::{Host, HostAnswer, HostFn};
pub use machine::Machine;

#[cfg(test)]
mod tests;
