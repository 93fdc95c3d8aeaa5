//! Tables of tracked sources: how many open connections track a key, and how often it was tracked
//! (HAProxy manual, `stick-table`, `tcp-request connection track-sc0`).
#![tactic(auto)]

pub use entries::{PlainEntry, StickEntry};
pub use key::key_of;
pub use proxy_types::{KeyType, Stores};
pub use table::{KeyCounts, StickTable, TrackToken};

mod chains;
mod entries;
mod index;
mod key;
mod links;
mod order;
mod table;
mod touch_list;
