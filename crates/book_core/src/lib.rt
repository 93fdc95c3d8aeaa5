//! A balancer whose every decision is kept: a core with its records, which go out in segments.
#![tactic(auto)]

pub use book::{Book, CutFault, Receipt};

mod book;
pub mod laws;
