//! The tables that are kept, and what open connections track in them.
#![tactic(auto)]

pub use tables::Tables;
pub use tracking::{PackedTracking, Tracking, Trackings};

mod tables;
mod tracking;
