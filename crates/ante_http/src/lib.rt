//! HTTP/1.1 at a link: requests are cut from the bytes that have come, and replies are written (RFC 9112).
#![tactic(auto)]

mod answer;
mod cutting;
mod fields;
mod head;
pub mod laws;
pub mod limits;
mod reply;

pub use answer::{CutAnswer, HeadKind, RequestSpan};
pub use cutting::cut;
pub use httparse::spans::Span;
pub use reply::write_reply;
