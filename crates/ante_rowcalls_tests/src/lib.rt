//! A script of calls on primary rows as a contract makes them, with replies and steps by their rules.
#![tactic(auto)]

#[cfg(test)]
mod script;
#[cfg(test)]
mod trial;
