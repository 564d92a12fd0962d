//! Links with real clients, and links in memory.
#![tactic(auto)]

#[cfg(test)]
mod loopback;
#[cfg(test)]
mod memory;
