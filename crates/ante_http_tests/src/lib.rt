//! Tables of requests and replies.
#![tactic(auto)]

#[cfg(test)]
mod replies;
#[cfg(test)]
mod requests;
