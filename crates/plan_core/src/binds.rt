//! The binds of two plans compared.
ghost use Rattle.std.specs.Prelude.{◌≡◌, ◌↔◌, IsTrue};
ghost use Rattle.std.specs.List.{list_any, list_all};
ghost use Rattle.std.specs.Str.{bytes_eq};
ghost use Rattle.addr_core.specs.Same.{same_endpoint};
ghost use Rattle.plan_core.specs.Binds.{same_flag, same_bind, has_bind, has_named_bind, has_binds_of, has_all_binds, same_binds, SameBinds};

use plan_types::{Bind, Frontend, Plan};
use text_core::is_same_name;

fn same_flag(a: bool, b: bool) -> bool
    ensures { result ≡ same_flag a b }
{
    a == b
}

fn same_bind(a: &Bind, b: &Bind) -> bool
    ensures { result ≡ same_bind a.now b.now }
{
    a.at.is_same(&b.at) && same_flag(a.accept_proxy, b.accept_proxy)
}

fn has_bind(frontend: &Frontend, bind: &Bind) -> bool
    ensures { result ≡ list_any (same_bind bind.now) frontend.now.binds }
{
    frontend
        .binds
        .as_slice()
        .iter()
        .any(|other| same_bind(bind, other))
}

fn is_named(frontend: &Frontend, name: &[u8]) -> bool
    ensures { result ≡ bytes_eq frontend.now.name name.now }
{
    is_same_name(frontend.name.as_slice(), name)
}

fn frontend_has_bind(frontend: &Frontend, name: &[u8], bind: &Bind) -> bool
    ensures { result ≡ has_bind name.now bind.now frontend.now }
{
    is_named(frontend, name) && has_bind(frontend, bind)
}

/// Whether a plan has that bind in the frontend of that name.
fn has_named_bind(plan: &Plan, name: &[u8], bind: &Bind) -> bool
    ensures { result ≡ has_named_bind plan.now name.now bind.now }
{
    plan.frontends
        .as_slice()
        .iter()
        .any(|frontend| frontend_has_bind(frontend, name, bind))
}

/// Whether a plan has all binds of a frontend.
fn has_binds_of(plan: &Plan, frontend: &Frontend) -> bool
    ensures { result ≡ has_binds_of plan.now frontend.now }
{
    let name = frontend.name.as_slice();
    frontend
        .binds
        .as_slice()
        .iter()
        .all(|bind| has_named_bind(plan, name, bind))
}

/// Whether a plan has all binds of another.
fn has_all_binds(plan: &Plan, other: &Plan) -> bool
    ensures { result ≡ has_all_binds plan.now other.now }
{
    other
        .frontends
        .as_slice()
        .iter()
        .all(|frontend| has_binds_of(plan, frontend))
}

/// Whether two plans have the same binds: the same set of frontend's name, address, port and
/// `accept-proxy`, in whatever order. It takes no memory.
pub fn same_binds(a: &Plan, b: &Plan) -> bool
    ensures value { result ≡ same_binds a.now b.now }
    ensures same { IsTrue result ↔ SameBinds a.now b.now }
{
    has_all_binds(a, b) && has_all_binds(b, a)
}
