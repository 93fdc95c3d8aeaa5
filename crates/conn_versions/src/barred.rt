//! The servers from which a pick is barred.
ghost use Rattle.std.specs.Prelude.{◌≡◌, ◌==◌};
ghost use Rattle.std.specs.List.{list_any};
ghost use Rattle.std.specs.Str.{bytes_eq};
ghost use Rattle.proxy_types.specs.ServerIdentity.{same_server};
ghost use Rattle.conn_model.specs.Servers.{identity_in, is_down};
ghost use Rattle.conn_versions.specs.Barred.{is_barred};

use plan_types::{Backend, Server};
use proxy_types::ServerIdentity;

/// The servers from which a pick is barred.
#[derive(Clone, Copy, Debug)]
pub struct Barred<'a> {
    /// Those that are down, where they are checked.
    pub down: &'a [ServerIdentity],
    /// Those of these lines.
    pub lines: &'a [u32],
}

fn is_same_name(a: &[u8], b: &[u8]) -> bool
    ensures { result ≡ bytes_eq a.now b.now }
{
    a == b
}

/// Whether a server of a backend is that one.
fn is_identity(backend: &Backend, server: &Server, identity: &ServerIdentity) -> bool
    ensures { result ≡ same_server (identity_in backend.now server.now) identity.now }
{
    is_same_name(backend.name.as_slice(), identity.backend.as_slice())
        && is_same_name(server.name.as_slice(), identity.name.as_slice())
        && server.to.is_same(&identity.to)
}

fn is_among(down: &[ServerIdentity], backend: &Backend, server: &Server) -> bool
    ensures { result ≡ list_any (same_server (identity_in backend.now server.now)) down.now }
{
    down.iter()
        .any(|identity| is_identity(backend, server, identity))
}

/// Whether a server of a backend was reported down, and is checked.
fn is_down(down: &[ServerIdentity], backend: &Backend, server: &Server) -> bool
    ensures { result ≡ is_down down.now backend.now server.now }
{
    server.check.is_some() && is_among(down, backend, server)
}

fn has(lines: &[u32], own: u32) -> bool
    ensures { result ≡ list_any (λ line. line == own) lines.now }
{
    lines.iter().any(|line| *line == own)
}

impl Barred<'_> {
    /// Whether it is barred from a server of a backend.
    pub fn bars(&self, backend: &Backend, server: &Server) -> bool
        ensures { result ≡ is_barred self.now.down.now self.now.lines.now backend.now server.now }
    {
        is_down(self.down, backend, server) || has(self.lines, server.line)
    }
}
