//! Links to peers: what the node asks of them, links in memory, and links over TCP.
//!
//! `specs/Links.antt` says what each call does.
#![tactic(auto)]

mod counts;
mod links;
mod memory;
mod tcp;

pub use links::{Accept, Begun, LinkId, LinkRead, LinkWrite, Links, READ_ROOM};
pub use memory::{MemLink, MemLinks};
pub use tcp::TcpLinks;
