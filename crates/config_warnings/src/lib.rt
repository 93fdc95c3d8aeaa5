//! What a configuration that is accepted lacks, and what it has without effect.
#![tactic(auto)]

pub use warnings::{Warning, warnings_of};

mod tables;
mod uses;
mod warnings;
