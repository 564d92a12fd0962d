//! The calls of a contract on primary rows, as it makes them: by numbers, and by ranges of its memory.
#![tactic(auto)]

mod call;
mod looking;
mod replies;
mod walking;
mod writing;

pub use call::row_call;
pub use replies::{found, neighbour, refused, word_of};
