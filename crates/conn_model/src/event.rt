//! What happens to a balancer.
use addr_core::Pair;
use list_core::Seq;

/// The name of a connection.
#[derive(Clone, Copy, Debug, PartialEq, Eq)]
pub struct ConnId {
    /// The number of the frontend, from 0.
    pub frontend: u16,
    /// From 1, in the order of the accepts.
    pub serial: u64,
}

/// Why a connection is closed: a note.
#[derive(Clone, Copy, Debug, PartialEq, Eq)]
pub enum Why {
    Done,
    Fault,
    Stopped,
    Failed,
    /// The client was silent for longer than its frontend allows.
    ClientTimeout,
    /// The server was silent for longer than its backend allows.
    ServerTimeout,
}

/// How a server is, as checks of it report.
#[derive(Clone, Copy, Debug, PartialEq, Eq)]
pub enum Health {
    Down,
    Up,
}

/// The most bytes of a piece.
pub const PIECE_LIMIT: usize = 65_536;

/// How long a connection may wait for its header from its accept on, in ms.
pub const HEADER_WAIT: u64 = 3_000;

/// An event as it is handed in.
#[derive(Clone, Copy, Debug)]
pub enum Event<'a> {
    /// A connection came to a listener, by its number; the pair is its peer and its local end.
    Accept(u16, Pair),
    /// The next bytes of a connection that waits for its header, at most `PIECE_LIMIT`.
    Piece(ConnId, &'a [u8]),
    /// The server of a connection that was offered one took it.
    Connected(ConnId),
    /// The server of a connection that was offered one could not be reached.
    ConnectFailed(ConnId),
    /// A connection ended.
    Close(ConnId, Why),
    /// A connection may have waited for its header for too long.
    Expire(ConnId),
    /// A new configuration is to come into force: its text.
    Reload(&'a str),
    /// A server of the newest configuration that is checked is down, or is up again: the number of its backend
    /// and its number in it.
    Mark(u16, u16, Health),
}

/// An event with memory of its own, as a history keeps it.
#[derive(Debug, Drop)]
pub enum OwnedEvent {
    Accept(u16, Pair),
    Piece(ConnId, Seq<u8>),
    Connected(ConnId),
    ConnectFailed(ConnId),
    Close(ConnId, Why),
    Expire(ConnId),
    Reload(Seq<u8>),
    Mark(u16, u16, Health),
}
