//! Questions about what is open.
use addr_core::Addr;

/// What is asked for (numbers from 0, in written order).
#[derive(Clone, Copy, Debug, PartialEq, Eq)]
pub enum Ask {
    /// A frontend, by its number.
    Frontend(u16),
    /// A backend of the newest version, by its number.
    Backend(u16),
    /// A server of a backend of the newest version, by the number of the backend and its own there.
    Server(u16, u16),
    /// The entry of an address in a table of the newest version, by the table's number.
    Entry(u16, Addr),
}

/// What is counted.
#[derive(Clone, Copy, Debug, PartialEq, Eq)]
pub struct Counts {
    /// How many connections are open; of an entry, how many counters of open connections track it.
    pub cur: u64,
    /// How often a key was tracked; 0 where nothing is tracked.
    pub cnt: u64,
}
