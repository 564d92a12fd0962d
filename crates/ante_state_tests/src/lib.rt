//! Scripts of calls on rows and objects, with the stack that each leaves written out by hand.
#![tactic(auto)]

#[cfg(test)]
mod objects;
#[cfg(test)]
mod rows;
#[cfg(test)]
mod sessions;
