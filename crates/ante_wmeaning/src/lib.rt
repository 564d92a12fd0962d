//! What runs of WebAssembly modules mean: the execution chapter of WebAssembly Core 1.0 (section 4), with the steps that are
//! paid, the looks at a stop and the frames that there may be, as definitions, and the laws that hold of them. The machine
//! that runs modules, and what calls it, are proved against these.
#![tactic(auto)]

mod ends;
pub mod laws;

pub use ends::{RunEnd, TrapKind};
pub use laws::imports_have_host_types;
