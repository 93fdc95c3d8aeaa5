//! The header of version 2 of the PROXY protocol (proxy-protocol.txt, section 2.2).
#![tactic(auto)]

pub use block::read_block;
pub use fault::V2Fault;
pub use head::{Family, Head, MOST_PAIR_BYTES, SIGNATURE, command_fault, family_fault, read_head};
pub use writing::{MOST_WRITTEN_BYTES, write_v2};

mod block;
mod fault;
mod head;
mod writing;
