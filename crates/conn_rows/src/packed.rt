//! What a connection was offered, in fewer bytes.
ghost use Rattle.std.specs.Prelude.{◌≡◌};

use crate::row::ServerChoice;
use addr_core::{PackedEndpoint, PackedPair};
use std::marker::Model;

/// The server that a connection was offered, in 68 bytes.
#[derive(Debug, Drop)]
pub(crate) struct PackedChoice {
    server: u16,
    line: u32,
    to: PackedEndpoint,
    judged: PackedPair,
}

impl Model for PackedChoice {
    ghost use Rattle.conn_rows.specs.declared.row.ServerChoice.{ServerChoice};

    ghost Value = { ServerChoice };

    ghost view = { λ s. record { server = s.server; line = s.line; to = s.to; judged = s.judged } };
}

impl PackedChoice {
    pub(crate) fn of(seat: &ServerChoice) -> PackedChoice
        ensures { result ≡ seat.now }
    {
        PackedChoice {
            server: seat.server,
            line: seat.line,
            to: PackedEndpoint::of(&seat.to),
            judged: PackedPair::of(&seat.judged),
        }
    }

    pub(crate) fn seat(&self) -> ServerChoice
        ensures { result ≡ self.now }
    {
        ServerChoice {
            server: self.server,
            line: self.line,
            to: self.to.endpoint(),
            judged: self.judged.pair(),
        }
    }
}
