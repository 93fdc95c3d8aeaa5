//! Records: answered events with their numbers, as they are kept; segments of them; the copies that a record needs.
#![tactic(auto)]

pub use copies::{copy_event, copy_reply};
pub use record::Record;
pub use segment::Segment;

mod copies;
mod record;
mod segment;
