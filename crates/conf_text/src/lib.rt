//! The lines of a configuration's text, and the words of each.
//!
//! The text is that of a HAProxy configuration file without quoting and without the escapes of `\`: a
//! line is words between blanks, and `#` begins a comment.
#![tactic(auto)]

pub use line::{Line, LineFault, LineKind, MOST_BYTES, MOST_BYTES_OF_LINE, MOST_LINES, MOST_WORDS};
pub use lines::Lines;

mod cut;
mod line;
mod lines;
mod reading;
