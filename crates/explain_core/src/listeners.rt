//! Where a connection comes in.
ghost use Rattle.std.specs.Prelude.{◌≡◌, ◌≢◌, ◌<◌, ◌+◌, ℕ, IfNone, IfSome, Some, length, slice_get};
ghost use Rattle.std.specs.List.{position};
ghost use Rattle.std.specs.Str.{bytes_eq};
ghost use Rattle.conn_model.specs.declared.plain.Listener.{Listener};
ghost use Rattle.explain_core.specs.Listeners.{fit, is_any, is_same_family, IsBest, IsBestOf};

use addr_core::{Addr, Endpoint};
use conn_model::plain::{FrontendRows, Listener};

/// The number of the frontend of that name.
pub fn frontend_number(frontends: &[FrontendRows], name: &[u8]) -> Option<usize>
    ensures { result ≡ position (λ own. bytes_eq own.name name.now) frontends.now }
{
    frontends.iter().position(|own| own.name.as_slice() == name)
}

/// Whether the address is all addresses of its family.
fn is_any(addr: &Addr) -> bool
    ensures { result ≡ is_any addr.now }
{
    match *addr {
        Addr::V4(number) => number == 0,
        Addr::V6(number) => number == 0,
    }
}

fn is_same_family(one: &Addr, other: &Addr) -> bool
    ensures { result ≡ is_same_family one.now other.now }
{
    match (one, other) {
        (Addr::V4(_), Addr::V4(_)) | (Addr::V6(_), Addr::V6(_)) => true,
        (Addr::V4(_), Addr::V6(_)) | (Addr::V6(_), Addr::V4(_)) => false,
    }
}

/// How well a listener takes connections to an address: 2 where it is bound to that one, 1 where it is bound to all of
/// the family with that port, and else 0.
fn fit(at: &Endpoint, local: &Endpoint) -> u8
    ensures { result ≡ fit at.now local.now }
{
    if *at == *local {
        2
    } else if at.port == local.port && is_any(&at.addr) && is_same_family(&at.addr, &local.addr) {
        1
    } else {
        0
    }
}

/// The best listener of a frontend before a place, with that at the place.
fn better(
    listeners: &[Listener],
    frontend: usize,
    local: &Endpoint,
    best: Option<usize>,
    place: usize,
) -> Option<usize>
    requires place { place < length listeners.now }
    requires best { IsBestOf listeners.now frontend local.now place best }
    ensures { IsBestOf listeners.now frontend local.now (place + 1) result }
{
    let listener = &listeners[place];
    if usize::from(listener.frontend) != frontend {
        return best;
    }
    let Some(so_far) = best else {
        return Some(place);
    };
    if fit(&listeners[so_far].at, local) < fit(&listener.at, local) {
        Some(place)
    } else {
        best
    }
}

/// The number of the listener of a frontend that takes connections to an address: the first one that fits best. None
/// where the frontend has no listener.
pub fn listener_number(listeners: &[Listener], frontend: usize, local: &Endpoint) -> Option<usize>
    ensures some { IfSome result (λ number.
        (at : Listener) × IsBest listeners.now frontend local.now number at) }
    ensures none { IfNone result ((other : ℕ) (listener : Listener) →
        slice_get listeners.now other ≡ Some listener → listener.frontend ≢ frontend) }
{
    let mut best = None;
    for place in 0..listeners.len() {
        best = better(listeners, frontend, local, best, place);
    }
    best
}
