//! What a contract may call, as definitions: what each intrinsic answers, writes, costs and refuses. The definitions stand
//! in `specs/`; here are the types that they and the crates of calls share.
#![tactic(auto)]

mod calls;
mod faults;

pub use calls::{IndexCall, Intrinsic, RowCall, SysCall};
pub use faults::DbFault;
