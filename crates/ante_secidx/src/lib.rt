//! Secondary indexes: rows of contract tables by a secondary key, under nested sessions. Contracts see the list of all
//! rows by table, then by secondary key, then by primary key.
#![tactic(auto)]

mod changes;
mod fault;
mod index;
mod indexes;
mod keys;
mod laws;
mod lookups;
mod widths;

pub use fault::SecFault;
pub use index::SecIndex;
pub use indexes::{Indexes, IndexesMap};
pub use keys::SecKey;
pub use laws::rows_are_listed;
pub use widths::Width;
