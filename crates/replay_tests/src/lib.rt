//! Tests of `replay_core`, `audit_core` and `pipe_core`, with devices in memory that are short, blocked or failing by
//! schedule.
#![tactic(auto)]

pub mod callers;
#[cfg(test)]
mod tests;
