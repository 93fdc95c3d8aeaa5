//! The plan of a configuration's text, from its bytes to its names resolved.
#![tactic(auto)]

pub use fault::OpenFault;
pub use planning::read_plan;

mod fault;
mod planning;
