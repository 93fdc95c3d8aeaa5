//! Tracked keys.
use addr_core::Addr;

/// An incarnation of a table: the version in which it began, and its position among that version's
/// tables, from 0.
#[derive(Clone, Copy, Debug, PartialEq, Eq)]
pub struct TableId {
    pub version: u64,
    pub position: u16,
}

/// A key that a counter of a connection tracks.
#[derive(Clone, Copy, Debug, PartialEq, Eq)]
pub struct Track {
    /// 0 to 2.
    pub counter: u8,
    pub table: TableId,
    pub key: Addr,
}

impl Default for Track {
    fn default() -> Self {
        Track {
            counter: 0,
            table: TableId {
                version: 0,
                position: 0,
            },
            key: Addr::V4(0),
        }
    }
}
