//! What another configuration would have decided: the record of a balancer is played against it, and each decision that
//! differs is written, and each connection that only one of the two moves when its server is out of reach.
#![tactic(auto)]

pub use comparison::Comparison;
pub use decision::ComparedDecision;
pub use laws::{differences_are_seen_once, open_in_both};
pub use run::run_whatif;

mod comparison;
mod decision;
mod journal;
mod laws;
mod opening;
mod printing;
mod run;
mod tally;
mod text;
mod turn;
mod twin;
