//! Tenants cannot disturb one another: laws of the definitions, over whole runs.
#![tactic(auto)]

pub mod laws;
