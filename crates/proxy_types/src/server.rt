//! What the counts of a server go by.
ghost use Rattle.std.specs.Prelude.{◌≡◌, ◌↔◌, IsTrue, IfOk};
ghost use Rattle.std.specs.Str.{bytes_eq};

use addr_core::Endpoint;
use list_core::{Duplicate, Seq};
use std::alloc::{AllocError, Global};
use text_core::is_same_name;

/// What the counts of a server go by, through all versions of the configuration.
#[derive(Debug, Drop)]
pub struct ServerIdentity {
    /// The name of its backend.
    pub backend: Seq<u8>,
    pub name: Seq<u8>,
    pub to: Endpoint,
}

impl ServerIdentity {
    ghost use Rattle.proxy_types.specs.ServerIdentity.{same_server};

    /// Whether both are one.
    pub fn is_same(&self, other: &ServerIdentity) -> bool
        ensures value { result ≡ same_server self.now other.now }
        ensures equal { IsTrue result ↔ (self.now ≡ other.now) }
    {
        is_same_name(self.backend.as_slice(), other.backend.as_slice())
            && is_same_name(self.name.as_slice(), other.name.as_slice())
            && self.to.is_same(&other.to)
    }
}

impl Duplicate for ServerIdentity {
    fn duplicate(&self, alloc: Global) -> Result<ServerIdentity, AllocError> {
        Ok(ServerIdentity {
            backend: self.backend.duplicate(alloc)?,
            name: self.name.duplicate(alloc)?,
            to: self.to,
        })
    }
}
