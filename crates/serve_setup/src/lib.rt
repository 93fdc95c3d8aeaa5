//! What `l4proxy serve` opens to the outside before its first connection, and what its operator asks it meanwhile.
#![tactic(auto)]

pub use input::{Questions, read_words};
pub use sockets::{ServeSockets, Watch, fail, open_sockets};
pub use stats::{answer_stats, listen_for_stats, time_of_start};

mod input;
mod sockets;
mod stats;
