//! Limits that several crates ask for.

/// Frontends of a configuration, and as many backends.
pub const MOST_SECTIONS: usize = 64;

/// Stick tables of a configuration: one of each frontend and of each backend.
pub const MOST_TABLES: usize = 128;

/// `bind` lines of a frontend.
pub const MOST_BINDS: usize = 64;

/// Servers of a backend.
pub const MOST_SERVERS: usize = 64;

/// Of the connections of a frontend or a server.
pub const MOST_CONNECTIONS: u64 = 1_048_576;

/// Of the entries of a stick table.
pub const MOST_ENTRIES: u64 = 1_048_576;

/// Of the weight of a server (HAProxy manual, `weight`).
pub const GREATEST_WEIGHT: u64 = 256;

/// How many counters a connection has (HAProxy manual, `track-sc0`): sc0, sc1 and sc2.
pub const COUNTERS: usize = 3;

/// Threads that judge connections and pass them on.
pub const MOST_WORKERS: u16 = 64;
