//! What the node meets outside: a source of bytes and a sink for bytes, each with a count of its faults, what
//! may stop a run, clocks, and gates that hold a reader in tests.
#![tactic(auto)]

mod clock;
mod failure;
mod gate;
mod memory;
mod reading;
mod sink;
mod source;
mod stop;
mod streams;
#[cfg(test)]
mod tests;
mod transfer;

pub use clock::{Clock, CountClock, FixedClock, SystemClock};
pub use failure::{ReadFailure, SinkFailed};
pub use gate::{Gate, GatePoint, OpenGate};
pub use memory::{MemSink, MemSource};
pub use reading::{Exact, Reading};
pub use sink::{Put, Sink};
pub use source::{Got, Source};
pub use stop::{AtLook, NeverStop, Stop};
pub use streams::{ReadSource, WriteSink};
pub use transfer::{Front, read_front, write_all};
