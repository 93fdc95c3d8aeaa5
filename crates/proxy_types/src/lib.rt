//! Words of a balancer that several crates share: which server a count is of, how a backend chooses, what a stick
//! table keeps, and limits.
#![tactic(auto)]

pub use balance::{Method, Place};
pub use limits::{
    COUNTERS, GREATEST_WEIGHT, MOST_BINDS, MOST_CONNECTIONS, MOST_ENTRIES, MOST_SECTIONS,
    MOST_SERVERS, MOST_TABLES, MOST_WORKERS,
};
pub use server::ServerIdentity;
pub use table::{KeyType, Stores};

mod balance;
mod limits;
mod server;
mod table;
