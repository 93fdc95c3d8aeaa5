//! The commands over files: `check`, `replay`, `pipe`, `audit`, `explain` and `whatif`.
#![tactic(auto)]

pub use command::run_command;
pub use files::{explain_refusal, unreadable};
pub use progress::Terminals;
pub use warnings::warn_of_plan;

mod audit;
mod broken_off;
mod check;
mod command;
mod explain;
mod files;
mod pipe;
mod progress;
mod replay;
mod warnings;
mod whatif;
