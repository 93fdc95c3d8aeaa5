//! The engines of the commands: a script is script_outcome, a configuration is checked.
#![tactic(auto)]

pub use check::run_check;
pub use fault::{PrintFault, ReplayFault};
pub use replay::{Replayed, run_replay};
pub use session::MOST_UNSENT;

mod check;
mod fault;
mod reading;
mod replay;
mod session;
