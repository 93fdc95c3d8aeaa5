//! Tests of `device_core` and `relay_core`, with devices in memory that are short, blocked or failing by schedule.
#![tactic(auto)]

pub mod callers;
#[cfg(test)]
mod tests;
