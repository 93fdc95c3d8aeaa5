//! Tests of `conn_core`, of what no run of the program shows.
#![tactic(auto)]

pub mod callers;
#[cfg(test)]
mod tests;
