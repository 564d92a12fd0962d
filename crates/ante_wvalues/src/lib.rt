//! The values of a run's frames, and the plain instructions of WebAssembly Core 1.0 (sections 4.4.1 to 4.4.4) over them.
#![tactic(auto)]

mod data;
mod instructions;
mod values;

pub use data::{Data, low};
pub use instructions::{Tried, plain, plain_with_room};
pub use values::ValueStack;
