//! Requests for the state of a running proxy over HTTP, and the heads of the replies.
#![tactic(auto)]

pub use reply::{MOST_HEAD_BYTES, refusal_of, write_head};
pub use request::{RequestKind, kind_of_request};

mod reply;
mod request;
