//! Version 1 of the PROXY header: one line of text (proxy-protocol.txt, section 2.1).
#![tactic(auto)]

pub use meaning::Meaning;
pub use reading::{V1Fault, read_line};
pub use writing::write_v1;

/// The most bytes that a line has, its CR LF included (proxy-protocol.txt, section 2.1).
pub const LINE_LIMIT: usize = 107;

mod meaning;
mod reading;
mod writing;
