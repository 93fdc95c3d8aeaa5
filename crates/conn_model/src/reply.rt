//! What a balancer answers.
use crate::event::{ConnId, Health, Why};
use addr_core::{Endpoint, Pair};
use arrayvec::ArrayVec;
use config_core::OpenFault;
use plan_types::Track;
use pp_any::HeaderFault;
use pp_v1::LINE_LIMIT;
use proxy_types::COUNTERS;

/// Why a connection is refused.
#[derive(Clone, Copy, Debug, PartialEq, Eq)]
pub enum Cause {
    /// The rule of that line rejects it.
    Line(u32),
    /// Its PROXY header has that fault.
    Header(HeaderFault),
    /// No whole header came in time.
    Expired,
    /// No backend is named for it; the line of the frontend.
    NoBackend(u32),
    /// The backend has no server for it; the line of the backend.
    NoServer(u32),
}

/// What is said to a connection, or of a new configuration or a server.
#[derive(Debug, Drop)]
pub enum Said {
    /// It has to wait for its PROXY header, or for the rest of it.
    Wait {
        id: ConnId,
        /// How many bytes of the piece belong to the header.
        used: u64,
    },
    /// It is given to a server.
    Offer {
        id: ConnId,
        /// How many bytes of the piece belong to the header.
        used: u64,
        /// The line of the server.
        line: u32,
        /// The number of the server in its backend, from 0.
        server: u16,
        to: Endpoint,
        /// The source and the destination by which it was judged.
        judged: Pair,
        /// What the server is sent before the stream.
        send: ArrayVec<u8, LINE_LIMIT>,
    },
    /// It is refused, and ends.
    Refuse {
        id: ConnId,
        used: u64,
        cause: Cause,
    },
    /// Its server took it.
    Up {
        id: ConnId,
    },
    /// It ended.
    Closed {
        id: ConnId,
        why: Why,
    },
    /// The new configuration is in force, as the version of that number.
    Reloaded {
        version: u64,
    },
    /// The server of that line of the newest configuration is down, or is up.
    Marked {
        line: u32,
        health: Health,
    },
}

impl Said {
    ghost use Rattle.std.specs.Prelude.{◌≡◌};
    ghost use Rattle.conn_model.specs.History.{is_last};

    /// Whether it is the last one to its connection.
    pub fn is_last(&self) -> bool
        ensures { result ≡ is_last self.now }
    {
        matches!(self, Said::Refuse { .. } | Said::Closed { .. })
    }
}

/// An answer to an event.
#[derive(Debug, Drop)]
pub struct Reply {
    pub said: Said,
    /// The keys that are tracked from this step on, in the order of counters.
    pub tracks: ArrayVec<Track, COUNTERS>,
}

/// Why an event is not answered. Of several the first in this order is answered.
#[derive(Clone, Copy, Debug, PartialEq, Eq)]
pub enum StepFault {
    /// No listener has the number.
    NoListener,
    /// No open connection has the name.
    NoSuch,
    /// The connection does not wait for a header.
    NotWaiting,
    /// The connection was not offered a server, or its server took it already.
    NotOffered,
    /// The connection may wait longer for its header.
    NotDue,
    /// The newest configuration has no such server, or does not check it.
    NotChecked,
    /// The new configuration is refused.
    BadConfig(OpenFault),
    /// It binds other addresses than the configuration in force, or binds them otherwise.
    BindChanged,
    /// The serial, or the version, 2^64 - 1 was given out.
    Exhausted,
    NoMemory,
}
