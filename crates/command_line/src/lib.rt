//! The command line of `l4proxy`: its commands, what the words of `serve` name, and the exit statuses.
#![tactic(auto)]

pub use command::{VERSION, commands};
pub use serve_words::ServeWords;
pub use status::{DEVICE, DONE, REFUSED, USAGE};

mod command;
mod serve_words;
mod status;
