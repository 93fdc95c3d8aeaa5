//! What is kept of an answered event.
use conn_model::event::OwnedEvent;
use conn_model::reply::Reply;

/// An answered event under its number.
#[derive(Debug, Drop)]
pub struct Record {
    /// From 1, in the order of the answers.
    pub number: u64,
    /// The moment that was handed in, in ms.
    pub moment: u64,
    pub event: OwnedEvent,
    pub reply: Reply,
}
