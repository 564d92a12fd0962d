//! The interface for wallets and explorers: from requests to what they ask for, and from replies to bytes.
#![tactic(auto)]

mod rendering;
mod reply;
mod routing;

pub use ante_json::{ApiFault, ApiRequest, BodyKind, Path, Refused};
pub use rendering::render;
pub use reply::ApiReply;
pub use routing::{head_fault, route};
