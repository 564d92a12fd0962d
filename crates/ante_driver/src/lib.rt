//! Turns: links are served, and the journal tells what their replies depend on.
#![tactic(auto)]

mod accepting;
mod closing;
mod front;
mod reading;
mod sending;
mod serving;
mod slots;
mod taking;

pub use accepting::accept_one;
pub use closing::close;
pub use front::{Front, Slot, Stop};
pub use reading::read_once;
pub use sending::send_replies;
pub use serving::serve_links;
pub use taking::take_one;
