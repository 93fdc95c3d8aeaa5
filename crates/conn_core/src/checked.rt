//! The numbers of a server that is checked.
ghost use Rattle.std.specs.Prelude.{◌≡◌, position};
ghost use Rattle.std.specs.Str.{bytes_eq};
ghost use Rattle.plan_types.specs.Sound.{IsSoundPlan};
ghost use Rattle.conn_core.specs.Checked.{is_checked_as, known_by, numbers_in};

use plan_types::{Backend, Plan, Server};
use text_core::is_same_name;

/// A server that is checked, with its backend.
#[derive(Drop)]
pub struct CheckedServer<'a> {
    pub backend: &'a Backend,
    pub server: &'a Server,
}

/// The numbers of a server in a configuration: that of its backend, and its own in it.
#[derive(Clone, Copy, Debug, PartialEq, Eq)]
pub struct ServerNumbers {
    pub backend: u16,
    pub server: u16,
}

/// The place of the backend of that name.
fn backend_place(backends: &[Backend], name: &[u8]) -> Option<usize>
    ensures { result ≡ position (λ backend. bytes_eq backend.name name.now) backends.now }
{
    backends
        .iter()
        .position(|backend| is_same_name(backend.name.as_slice(), name))
}

/// Whether a server of a backend is checked, and is known by the names and the address of that one.
fn is_checked_as(known: &CheckedServer<'_>, backend: &Backend, server: &Server) -> bool
    ensures { result ≡ is_checked_as (known_by known.now) backend.now server.now }
{
    server.check.is_some()
        && is_same_name(known.backend.name.as_slice(), backend.name.as_slice())
        && is_same_name(known.server.name.as_slice(), server.name.as_slice())
        && known.server.to.is_same(&server.to)
}

/// The place of such a server in a backend.
fn server_place(known: &CheckedServer<'_>, backend: &Backend) -> Option<usize>
    ensures { result ≡ position (is_checked_as (known_by known.now) backend.now) backend.now.servers }
{
    backend
        .servers
        .as_slice()
        .iter()
        .position(|server| is_checked_as(known, backend, server))
}

/// Its numbers in a plan, if that has such a server.
pub fn numbers_in(plan: &Plan, known: &CheckedServer<'_>) -> Option<ServerNumbers>
    requires { IsSoundPlan plan.now }
    ensures { result ≡ numbers_in (known_by known.now) plan.now }
{
    let backends = plan.backends.as_slice();
    let place = backend_place(backends, known.backend.name.as_slice())?;
    let backend = &backends[place];
    let own = server_place(known, backend)?;
    Some(ServerNumbers {
        backend: place as u16,
        server: own as u16,
    })
}
