//! Open connections of a desk.
ghost use Rattle.std.specs.Prelude.{◌≡◌};

use book_core::Receipt;
use conn_model::event::ConnId;
use conn_model::reply::StepFault;
use conn_model::settings::Settings;
use std::sync::ledger::{Ledger, Share};

/// An open connection of a desk. It must be spent: a call that ends its connection takes it, and so does `settle`.
pub struct Lease<O: Ledger> {
    pub(crate) id: ConnId,
    pub(crate) unit: Share<O>,
    /// How the connection is served, as far as that is known: what its last reply left.
    pub(crate) settings: Option<Settings>,
    pub ghost one_part: { unit.parts ≡ 1 },
    pub ghost one: { unit.amount ≡ 1 },
}

/// What is driven on an open connection.
#[derive(Clone, Copy, Debug)]
pub enum Drive<'a> {
    /// The next bytes of a connection that waits for its header, at most `PIECE_LIMIT`.
    Piece(&'a [u8]),
    /// The server that it was offered took it.
    Connected,
    /// The server that it was offered could not be reached.
    ConnectFailed,
    /// The connection may have waited for its header for too long.
    Expire,
}

/// What came of an event on an open connection.
pub enum DriveResult<O: Ledger> {
    /// It is open.
    Goes(Receipt, Lease<O>),
    /// It ended.
    Over(Receipt),
    /// Nothing happened.
    Failed(StepFault, Lease<O>),
}

impl<O: Ledger> Lease<O> {
    /// The connection that is leased.
    pub fn id(&self) -> ConnId
        ensures { result ≡ self.now.id }
    {
        self.id
    }

    /// How the connection is served, once it was offered a server.
    pub fn settings(&self) -> Option<Settings> {
        self.settings
    }

    pub(crate) fn into_unit(self) -> Share<O>
        ensures { (result.parts ≡ 1) × (result.amount ≡ 1) }
    {
        let Lease {
            id: _,
            unit,
            settings: _,
        } = self;
        unit
    }
}
