//! Connections as data: events, replies, the plain state, and what an answer is.
//!
//! The definitions are in `specs/`: `Answer` says what is answered in a plain state, `History`
//! what a list of answered events leaves of one.
#![tactic(auto)]

pub use copies::copy_of_lines;

pub mod ask;
mod copies;
pub mod event;
pub mod laws;
pub mod plain;
pub mod reply;
pub mod settings;
