//! The bodies of requests and replies as JSON.
#![tactic(auto)]

mod bodies;
mod fault;
mod fields;
mod kinds;
mod reading;
mod replies;
mod request;
mod transactions;

pub use fault::{ApiFault, BodyError, BodyKind, Refused};
pub use reading::read_body;
pub use replies::{error_text, view_text};
pub use request::{ApiRequest, Path};
