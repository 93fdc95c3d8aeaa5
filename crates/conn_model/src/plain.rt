//! The state of a balancer as plain data.
use addr_core::{Endpoint, Pair};
use list_core::Seq;
use plan_types::{Plan, Table, TableId, Track};
use pp_any::Rest;
use proxy_types::{Place, ServerIdentity};
use stick_core::PlainEntry;

/// The server that a connection was given.
#[derive(Debug, Drop)]
pub struct Assignment {
    pub server: ServerIdentity,
    /// The line of the server in the configuration.
    pub line: u32,
    /// The source and the destination by which the connection was judged.
    pub judged: Pair,
    /// The lines of the servers of its backend that were out of reach for it before, the oldest first.
    pub failed: Seq<u32>,
}

/// How far a connection is.
#[derive(Debug, Drop)]
pub enum Phase {
    /// It has no server yet; what is held of its PROXY header so far.
    Waiting(Rest),
    /// It was offered a server.
    Offered(Assignment),
    /// Its server took it.
    Up(Assignment),
}

/// An open connection of one frontend.
#[derive(Debug, Drop)]
pub struct Row {
    /// From 1, in the order of the frontend's accepts.
    pub serial: u64,
    /// The version of the configuration that judges it.
    pub version: u64,
    /// Its peer and its local end.
    pub real: Pair,
    /// The moment of its accept, in ms.
    pub accepted: u64,
    pub phase: Phase,
    /// What it tracks, in the order of counters.
    pub tracks: Seq<Track>,
}

/// What is kept of one frontend.
#[derive(Debug, Drop)]
pub struct FrontendRows {
    pub name: Seq<u8>,
    /// The last serial that was given out.
    pub serial: u64,
    /// The open connections, in the order of their serials.
    pub rows: Seq<Row>,
}

/// Where a frontend accepts.
#[derive(Clone, Copy, Debug, PartialEq, Eq)]
pub struct Listener {
    /// The number of its frontend.
    pub frontend: u16,
    pub at: Endpoint,
    pub accept_proxy: bool,
}

/// A version of the configuration that is kept.
#[derive(Debug, Drop)]
pub struct Version {
    pub number: u64,
    pub plan: Plan,
    /// The incarnation of each table of the plan.
    pub tables: Seq<TableId>,
    /// What was last used of each backend.
    pub cursors: Seq<Option<Place>>,
}

/// A table that is kept, with its entries, the one that was touched longest ago first.
#[derive(Debug, Drop)]
pub struct TableState {
    pub id: TableId,
    pub table: Table,
    pub entries: Seq<PlainEntry>,
}

/// All that a balancer keeps.
#[derive(Debug, Drop)]
pub struct Plain {
    /// The greatest moment so far, in ms.
    pub clock: u64,
    pub listeners: Seq<Listener>,
    /// By the number of the frontend.
    pub frontends: Seq<FrontendRows>,
    /// By number, the newest last.
    pub versions: Seq<Version>,
    /// By incarnation.
    pub tables: Seq<TableState>,
    /// The servers that were reported down, and not up since, the oldest first.
    pub down: Seq<ServerIdentity>,
}
