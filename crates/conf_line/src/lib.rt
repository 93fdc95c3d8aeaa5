//! What one line of a configuration says by its words alone.
#![tactic(auto)]

pub use fault::{ConfFault, ConfKind};
pub use proxy_types::{KeyType, Method, Stores};
pub use reading::read_line;
pub use statement::{
    ActionWords, LineReading, MOST_CHECKS, MOST_INTERVAL, MOST_RETRIES, Ruleset, SectionKind,
    ServerOption, ServerWords, Statement, TableOption, TableWords, TimeoutKind, TrackWords,
};

mod acl;
mod fault;
mod keyword;
mod reading;
mod rule;
mod server;
mod statement;
mod table;
mod times;
mod words;
