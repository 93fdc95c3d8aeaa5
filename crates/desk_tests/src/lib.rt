//! Tests of `desk_core`, of what no contract says: that its calls do not give up, that threads may share it, and that
//! what is asked is counted.
#![tactic(auto)]

pub mod callers;
#[cfg(test)]
mod tests;
