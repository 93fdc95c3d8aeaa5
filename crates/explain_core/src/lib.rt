//! Why a client is given to a server or refused: the rules that are tried, with what they saw, and the reply.
#![tactic(auto)]

pub use explaining::{ExplainFault, Explanation, explain};
pub use tried::{Tried, TriedChoice, try_choices, try_rules};

mod explaining;
pub mod laws;
mod listeners;
mod quotes;
mod showing;
mod tried;
