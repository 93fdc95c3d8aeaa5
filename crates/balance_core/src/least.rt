//! Least connections.
ghost use Rattle.std.specs.Prelude.{◌≡◌, ◌-◌, ◌≤◌, ◌++◌, ℕ, false, List, Option, Some, None, IfSome, option_map, filter, slice_get, if◌then◌else◌};
ghost use Rattle.std.specs.List.{range_with_len};
ghost use Rattle.balance_core.specs.Loads.{first_after, is_ready_at};
ghost use Rattle.balance_core.specs.Orders.{lesser, least};
ghost use Rattle.balance_core.specs.Least.{is_lighter, is_ready, lighter_of, carries_less, number_of, IsSeen, lightest, IsLightest};

use crate::load::{Load, ServerLoad};

/// A server that may be offered, and what was seen of it.
#[derive(Clone, Copy, Debug, PartialEq, Eq)]
pub struct ReadyServer {
    pub number: u16,
    pub server: ServerLoad,
}

/// The usable server with room that has the fewest connections for its weight. Of several it is the
/// first after the server last offered, going round in written order.
pub fn pick_least<L: Load>(last: Option<u16>, load: &L) -> Option<u16>
    ensures pick { result ≡ lightest (L.servers load.now) last }
    ensures lightest { IfSome result (IsLightest (L.servers load.now)) }
    ensures none { result ≡ None → (server : ℕ) → is_ready_at (L.servers load.now) server ≡ false }
{
    let count = load.count();
    let begin = begin_after(last, count);
    let later = lightest_of(None, 0, begin, load);
    number(lightest_of(later, begin, count, load))
}

fn number(candidate: Option<ReadyServer>) -> Option<u16>
    ensures { result ≡ number_of candidate }
{
    match candidate {
        Some(candidate) => Some(candidate.number),
        None => None,
    }
}

/// Where the round begins.
fn begin_after(last: Option<u16>, count: u16) -> u16
    ensures { result ≡ first_after last count }
{
    match last {
        Some(last) => last.saturating_add(1).min(count),
        None => 0,
    }
}

/// The lightest of the servers from `begin` up to `end` and of a later one. Each server is asked once.
fn lightest_of<L: Load>(
    later: Option<ReadyServer>,
    begin: u16,
    end: u16,
    load: &L,
) -> Option<ReadyServer>
    requires range { begin ≤ end }
    requires later { IfSome later (IsSeen (L.servers load.now)) }
    ensures lightest { (rest : List ℕ) → number_of later ≡ least (is_lighter (L.servers load.now)) rest →
        number_of result ≡ least (is_lighter (L.servers load.now)) (filter (is_ready_at (L.servers load.now)) (range_with_len begin (end - begin)) ++ rest) }
    ensures seen { IfSome result (IsSeen (L.servers load.now)) }
{
    let mut lightest = later;
    let mut number = end;
    while number > begin {
        number -= 1;
        lightest = with_server(lightest, number, load);
    }
    lightest
}

/// The lighter of a server, if it is ready, and a later one.
fn with_server<L: Load>(later: Option<ReadyServer>, number: u16, load: &L) -> Option<ReadyServer>
    requires { IfSome later (IsSeen (L.servers load.now)) }
    ensures number { number_of result ≡ (if is_ready_at (L.servers load.now) number then lesser (is_lighter (L.servers load.now)) number (number_of later) else number_of later) }
    ensures seen { IfSome result (IsSeen (L.servers load.now)) }
{
    match load.server(number) {
        Some(server) if is_ready(&server) => Some(lighter(later, ReadyServer { number, server })),
        _ => later,
    }
}

/// Whether a server is usable and has room.
fn is_ready(server: &ServerLoad) -> bool
    ensures { result ≡ is_ready server.now }
{
    server.weight > 0 && server.has_room
}

/// The later one, if it is lighter.
fn lighter(later: Option<ReadyServer>, candidate: ReadyServer) -> ReadyServer
    ensures { result ≡ lighter_of later candidate }
{
    match later {
        Some(other) => {
            if carries_less(&other.server, &candidate.server) {
                other
            } else {
                candidate
            }
        }
        None => candidate,
    }
}

/// Whether the first has fewer connections for its weight.
fn carries_less(one: &ServerLoad, other: &ServerLoad) -> bool
    ensures { result ≡ carries_less one.now other.now }
{
    u128::from(one.connections) * u128::from(other.weight)
        < u128::from(other.connections) * u128::from(one.weight)
}
