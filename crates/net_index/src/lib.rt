//! Networks, searched for an address in a time that hardly grows with their number.
#![tactic(auto)]

pub use index::NetIndex;

mod index;
mod range;
mod ranges;
