//! Windows in which readers run jobs on a state that is lent to them.
#![tactic(auto)]

mod fates;
mod outcome;
mod pool_stop;
mod reader;
mod readers;
mod schedule;
#[cfg(test)]
mod tests;
mod windows;

pub use outcome::{Bell, Entry, NOBODY, Outcome};
pub use pool_stop::PoolStop;
pub use reader::{Brought, Window, read_alone};
pub use readers::{Report, read_all, run_log};
pub use schedule::{Left, Turn, WindowEvent};
pub use windows::{WindowReport, run_window};
