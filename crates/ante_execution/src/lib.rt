//! What becomes of the state by actions, transactions and blocks, as definitions: authorities, native actions, runs, actions
//! with all that they cause, transactions, read-only transactions, blocks. They stand in `specs/`; here are the types that they
//! share with the crates above.
#![tactic(auto)]

mod ends;
mod jobs;
mod kinds;
mod natives;

pub use ends::{ApplyEnd, AuthFault, GenesisFault, NativeFault};
pub use jobs::{Asked, Job, Sender};
pub use kinds::{NativeAction, Weighed};
pub use natives::{ACTIVE, EOSIO_ANY, EOSIO_CODE, OWNER, native_named, native_of};
