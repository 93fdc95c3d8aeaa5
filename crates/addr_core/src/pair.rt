//! Where a connection comes from and where it goes.

use crate::addr::Endpoint;
use std::marker::Model;

/// The source and the destination of a connection, both of one family.
#[derive(Clone, Copy, Debug, PartialEq, Eq)]
pub struct Pair {
    source: Endpoint,
    destination: Endpoint,
}

impl Model for Pair {
    ghost use Rattle.addr_core.specs.PairValue.{PairValue};

    ghost Value = { PairValue };

    ghost use Rattle.std.specs.Prelude.{◌≡◌, true};
    ghost use Rattle.addr_core.specs.Family.{same_family};

    ghost view = { λ p. record { source = p.source; destination = p.destination } };

    ghost invariant = { λ p. same_family p.source.addr p.destination.addr ≡ true };

    ghost inverse = { λ p. record { source = p.source; destination = p.destination } };
}

impl Pair {
    ghost use Rattle.std.specs.Prelude.{◌≡◌, true, if◌then◌else◌, Some, None};
    ghost use Rattle.addr_core.specs.Family.{same_family};
    ghost use Rattle.addr_core.specs.PairValue.{pair_of};

    /// The pair of these endpoints, if they are of one family.
    pub fn of(source: Endpoint, destination: Endpoint) -> Option<Pair>
        ensures { result ≡ pair_of source destination }
    {
        if !source.addr.is_same_family(&destination.addr) {
            return None;
        }
        Some(Pair {
            source,
            destination,
        })
    }

    pub fn source(&self) -> Endpoint
        ensures value { result ≡ self.now.source }
        ensures family { same_family self.now.source.addr self.now.destination.addr ≡ true }
    {
        self.source
    }

    pub fn destination(&self) -> Endpoint
        ensures value { result ≡ self.now.destination }
        ensures family { same_family self.now.source.addr self.now.destination.addr ≡ true }
    {
        self.destination
    }
}
