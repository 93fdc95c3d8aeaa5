//! The header of the PROXY protocol, of either version, read from pieces in which a peer sends it.
#![tactic(auto)]

pub use fault::HeaderFault;
pub use fed::Fed;
pub use parser::Parser;
pub use rest::Rest;
pub use writing::{write_v1, write_v2};

mod block;
mod fault;
mod fed;
mod head;
pub mod laws;
mod line;
mod parser;
mod rest;
mod skip;
mod state;
mod writing;
