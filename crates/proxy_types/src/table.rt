//! What a stick table keeps.

/// The type of a table's keys (HAProxy manual, `stick-table type`).
#[derive(Clone, Copy, Debug, PartialEq, Eq)]
pub enum KeyType {
    /// Addresses of IPv4.
    Ip,
    /// Addresses of IPv6, among them those that map an address of IPv4 (RFC 4291, section 2.5.5.2).
    Ipv6,
}

/// Which counts criteria may see (HAProxy manual, `stick-table store`). Both are kept of each key.
#[derive(Clone, Copy, Debug, PartialEq, Eq)]
pub struct Stores {
    /// `conn_cur`: how many open connections track a key.
    pub cur: bool,
    /// `conn_cnt`: how often a key was tracked.
    pub cnt: bool,
}
