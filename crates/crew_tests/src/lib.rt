//! Tests of `crew_core` by whole runs, over links in memory: that its workers, its acceptor and its dials come to the
//! records that they should, and that what is left settles.
#![tactic(auto)]

pub mod callers;
#[cfg(test)]
mod tests;
