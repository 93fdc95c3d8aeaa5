//! What a configuration says, line by line.
#![tactic(auto)]

pub use conf_line::{
    ActionWords, ConfFault, ConfKind, KeyType, Method, Ruleset, SectionKind, ServerWords,
    Statement, Stores, TableWords, TimeoutKind, TrackWords,
};
pub use limits::{MOST_ACLS, MOST_RULES};
pub use names::acl_names;
pub use reading::read_config;
pub use tree::{ConfigLine, SectionPlace, Tree};

mod claim;
mod kept;
mod limits;
mod names;
mod reading;
mod tree;
