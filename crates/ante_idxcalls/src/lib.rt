//! The calls of a contract on the rows of secondary indexes, as it makes them: by numbers, and by ranges of its memory. They are written
//! once over the width of the keys.
#![tactic(auto)]

mod call;
mod key_args;
mod keys;
mod looking;
mod replies;
mod walking;
mod writing;

pub use call::index_call;
pub use keys::IndexKey;
