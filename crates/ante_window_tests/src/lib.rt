//! Windows that real threads run.
#![tactic(auto)]

#[cfg(test)]
mod bench;
#[cfg(test)]
mod jobs;
#[cfg(test)]
mod rows;
#[cfg(test)]
mod shaft;
#[cfg(test)]
mod tables;
