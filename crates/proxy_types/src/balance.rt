//! How a backend chooses among its servers.
ghost use Rattle.std.specs.Prelude.{◌≡◌, IfOk};

use list_core::Duplicate;
use std::alloc::{AllocError, Global};

/// How a backend chooses among its servers (HAProxy manual, `balance`).
#[derive(Clone, Copy, Debug, PartialEq, Eq)]
pub enum Method {
    RoundRobin,
    LeastConn,
    Source,
}

/// A place in the round of a backend: one turn of a server.
#[derive(Clone, Copy, Debug, PartialEq, Eq)]
pub struct Place {
    /// The number of the server in its backend, from 0.
    pub server: u16,
    /// From 0, below the weight of the server.
    pub turn: u16,
}

impl Duplicate for Place {
    fn duplicate(&self, _alloc: Global) -> Result<Place, AllocError> {
        Ok(*self)
    }
}
