//! Bytes on their way from a reader to a writer: none is lost, none comes twice, and none overtakes another.
#![tactic(auto)]

pub use burst::{Burst, BurstStop};
pub use flow::{Drained, Filled, Flow, FlowFault};
pub use law::run_carries;
pub use pass::Passed;
pub use relay::Relay;
pub use way::Way;

mod burst;
mod flow;
mod gather;
mod law;
mod once;
mod pass;
mod relay;
mod way;
