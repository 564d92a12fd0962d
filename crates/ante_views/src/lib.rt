//! What may be asked of a node's state and chain, and what is answered.
#![tactic(auto)]

mod answers;
mod chain_view;
mod queries;
mod rendering;

pub use answers::{PermissionView, ScopeView, ViewAnswer};
pub use chain_view::ChainView;
pub use queries::{BlockRef, Seen, ViewQuery};
