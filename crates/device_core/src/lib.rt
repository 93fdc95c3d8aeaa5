//! Readers and writers, with what each call of them means.
//!
//! No other crate talks to the readers and writers of `std`.
#![tactic(auto)]

pub use adapters::{FromRead, StdDevice, ToWrite};
pub use device::{Failed, Got, Input, Output, PIECE_BYTES, Put};
pub use memory::{MemoryInput, MemoryOutput};
pub use patience::{MOST_READS, MOST_STALLS, Moved, read_on, write_all};
pub use schedule::{Calls, Schedule};

mod adapters;
mod device;
mod memory;
mod patience;
mod schedule;
mod tally;
