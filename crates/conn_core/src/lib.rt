//! The decisions of a balancer: what each event is answered, and what is kept for it.
//!
//! The functions that one step calls in a row are `#[inline(always)]`, since what they hand on is large and would be
//! copied at each call: docs/PERF.md, "a step of the core", says what that gave.
#![tactic(auto)]

pub use checked::{CheckedServer, ServerNumbers};
pub use config_core::OpenFault;
pub use conn_rows::ServerNames;
pub use facts::RuleFacts;
pub use machine::Core;

mod checked;
mod counting;
mod entering;
mod facts;
mod judging;
mod machine;
mod moving;
mod opening;
mod outcome;
mod receiving;
mod tracking;
