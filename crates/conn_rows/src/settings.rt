//! How a connection is served.
ghost use Rattle.std.specs.Prelude.{◌≡◌, ℕ, Some, true, find, slice_get, option_map, IfSome, IsTrue};
ghost use Rattle.std.specs.Option.{option_copied};
ghost use Rattle.std.specs.Str.{bytes_eq};
ghost use Rattle.plan_types.specs.Lines.{has_line, LinesDiffer};
ghost use Rattle.plan_types.specs.Sound.{IsSoundPlan};
ghost use Rattle.conn_model.specs.Answer.{frontend_in};
ghost use Rattle.conn_model.specs.Settings.{backend_with, settings_by, settings_of};

use crate::row::backend_in;
use conn_model::settings::Settings;
use conn_versions::item;
use plan_types::{Backend, Frontend, Plan, Redispatch};
use text_core::is_same_name;

/// The frontend of that name.
pub fn frontend_named<'a>(plan: &'a Plan, name: &[u8]) -> Option<&'a Frontend>
    ensures { option_copied result ≡ frontend_in plan.now name.now }
{
    plan.frontends
        .as_slice()
        .iter()
        .find(|frontend| has_name(frontend, name))
}

/// The frontend of that name, which is looked for at that number first.
pub fn frontend_near<'a>(plan: &'a Plan, number: u16, name: &[u8]) -> Option<&'a Frontend>
    requires { IsSoundPlan plan.now }
    ensures { option_copied result ≡ frontend_in plan.now name.now }
{
    match item(plan.frontends.as_slice(), number) {
        Some(frontend) if has_name(frontend, name) => Some(frontend),
        _ => frontend_named(plan, name),
    }
}

fn has_name(frontend: &Frontend, name: &[u8]) -> bool
    ensures { result ≡ bytes_eq frontend.now.name name.now }
{
    is_same_name(frontend.name.as_slice(), name)
}

/// A server of a plan.
#[derive(Clone, Copy, Debug, PartialEq, Eq)]
pub struct ServerPlace {
    pub line: u32,
    /// Its number in its backend, from 0.
    pub number: u16,
}

/// The last backend that begins before that line.
fn backend_before(plan: &Plan, line: u32) -> Option<&Backend>
    ensures { IfSome result (λ backend. (i : ℕ) × (slice_get plan.now.backends i ≡ Some backend.now)) }
{
    let backends = plan.backends.as_slice();
    let next = backends.partition_point(|backend| backend.line < line);
    backends.get(next.checked_sub(1)?)
}

/// Whether the backend has that server.
fn has_place(backend: &Backend, place: ServerPlace) -> bool
    ensures { IsTrue result → has_line place.line backend.now ≡ true }
{
    match item(backend.servers.as_slice(), place.number) {
        Some(server) => server.line == place.line,
        None => false,
    }
}

/// The backend that has a server. It is found without a look at other servers, where the plan has it at its place.
pub fn backend_at(plan: &Plan, place: ServerPlace) -> Option<&Backend>
    requires { LinesDiffer plan.now }
    ensures { option_copied result ≡ find (has_line place.line) plan.now.backends }
{
    match backend_before(plan, place.line) {
        Some(backend) if has_place(backend, place) => Some(backend),
        _ => backend_in(plan, place.line),
    }
}

/// The same, if a server was offered.
fn backend_with(plan: &Plan, place: Option<ServerPlace>) -> Option<&Backend>
    requires { LinesDiffer plan.now }
    ensures { option_copied result ≡ backend_with plan.now (option_map (λ place. place.line) place) }
{
    backend_at(plan, place?)
}

/// Times of the frontend, and of the backend once the connection was offered a server.
fn settings_of(frontend: &Frontend, backend: Option<&Backend>) -> Settings
    ensures { result ≡ settings_of frontend.now (option_copied backend.entry) }
{
    let client = frontend.client_timeout;
    match backend {
        Some(backend) => Settings {
            client,
            connect: backend.connect_timeout,
            server: backend.server_timeout,
            retries: backend.retries,
            redispatch: backend.redispatch,
        },
        None => Settings {
            client,
            connect: 0,
            server: 0,
            retries: 0,
            redispatch: Redispatch::Never,
        },
    }
}

/// How a connection to the frontend of that name is served by a plan, which was offered that server. The frontend is
/// looked for at that number first.
pub fn settings_by(
    number: u16,
    name: &[u8],
    place: Option<ServerPlace>,
    plan: &Plan,
) -> Option<Settings>
    requires { IsSoundPlan plan.now }
    ensures { result ≡ settings_by name.now (option_map (λ place. place.line) place) plan.now }
{
    let frontend = frontend_near(plan, number, name)?;
    Some(settings_of(frontend, backend_with(plan, place)))
}
