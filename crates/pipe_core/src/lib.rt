//! One connection through a balancer, from a reader to a writer.
#![tactic(auto)]

pub use end::{PipeEnd, PipeFault};
pub use pipe::run_pipe;

mod end;
mod header;
mod pipe;
mod stream;
