//! The lines of a reader, read a block at a time.
#![tactic(auto)]

pub use lines::{LineReader, MOST_LINE_BYTES, Next, ReadFault};

mod lines;
