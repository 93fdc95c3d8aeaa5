//! Which sides of a connection are waited for, when one of them has been silent for too long (HAProxy manual, `timeout
//! client`, `timeout server`), and the pause before a server is dialled again (`retries`).
ghost use Rattle.std.specs.Prelude.{◌≡◌, ℕ, ◌<◌, min, None};
ghost use Rattle.relay_core.specs.Relay.{flow_of};
ghost use Rattle.link_core.specs.Idle.{GoesOn, SomeoneIsWaitedFor, due_of, first_end, is_overdue, is_waited_for, overdue, retry_pause, time_begun, waited_for_by};

use conn_model::event::Why;
use relay_core::{Relay, Way};

/// Of which sides something is expected.
#[derive(Clone, Copy, Debug, PartialEq, Eq)]
pub struct WaitedFor {
    pub client: bool,
    pub server: bool,
}

/// When the time of each side began, in ms.
#[derive(Clone, Copy, Debug, PartialEq, Eq)]
pub struct Times {
    pub client: u64,
    pub server: u64,
}

/// A side whose time began at a moment, and how long it may be silent, both in ms; a limit of 0 is none.
#[derive(Clone, Copy, Debug)]
pub struct Side {
    pub is_waited_for: bool,
    pub since: u64,
    pub limit: u64,
}

/// Whether something is expected of the side whose bytes go the one way, and which gets those of the other way.
fn is_waited_for(relay: &Relay, sends: Way, takes: Way) -> bool
    ensures { result ≡ is_waited_for (flow_of sends relay.now) (flow_of takes relay.now) }
{
    relay.asks(sends) || relay.holds(takes)
}

/// Of which sides something is expected, by the relay between them.
pub fn waited_for_by(relay: &Relay) -> WaitedFor
    ensures sides { result ≡ waited_for_by relay.now }
    ensures some { SomeoneIsWaitedFor relay.now result }
{
    WaitedFor {
        client: is_waited_for(relay, Way::Forth, Way::Back),
        server: is_waited_for(relay, Way::Back, Way::Forth),
    }
}

/// When the time of a side that had begun before begins, by what is noted now.
pub fn time_begun(before: u64, was_waited_for: bool, is_active: bool, now: u64) -> u64
    ensures { result ≡ time_begun before was_waited_for is_active now }
{
    if is_active || !was_waited_for {
        now
    } else {
        before
    }
}

fn due_of(side: Side) -> u64
    ensures { result ≡ due_of side }
{
    side.since.saturating_add(side.limit)
}

pub fn is_overdue(now: u64, side: Side) -> bool
    ensures { result ≡ is_overdue now side }
{
    side.is_waited_for && side.limit != 0 && due_of(side) <= now
}

/// Which side was silent for too long. Of two the one that was overdue first, and the client if both are level.
pub fn overdue(now: u64, client: Side, server: Side) -> Option<Why>
    ensures { result ≡ overdue now client server }
{
    let by_server = is_overdue(now, server);
    if is_overdue(now, client) && (!by_server || due_of(client) <= due_of(server)) {
        Some(Why::ClientTimeout)
    } else if by_server {
        Some(Why::ServerTimeout)
    } else {
        None
    }
}

/// The first moment at which a side may be overdue, whatever is noted of it from now on.
fn first_end(now: u64, side: Side) -> u64
    ensures { result ≡ first_end now side }
{
    if side.limit == 0 {
        return u64::MAX;
    }
    let since = if side.is_waited_for {
        side.since.min(now)
    } else {
        now
    };
    since.saturating_add(side.limit)
}

/// The first moment at which one of both sides may be overdue, whatever is noted of them from now on.
pub fn first_end_of_both(now: u64, client: Side, server: Side) -> u64
    ensures first { result ≡ min (first_end now client) (first_end now server) }
    ensures quiet { (moment : ℕ) (later_client later_server : Side) → moment < result →
        GoesOn now client later_client → GoesOn now server later_server →
        overdue moment later_client later_server ≡ None }
{
    first_end(now, client).min(first_end(now, server))
}

/// The longest pause before a server is dialled again, in ms.
const LONGEST_PAUSE: u64 = 1_000;

/// The pause before a server is dialled again that has so long to accept a connection, in ms.
pub fn retry_pause(connect: u64) -> u64
    ensures { result ≡ retry_pause connect }
{
    if connect == 0 {
        LONGEST_PAUSE
    } else {
        connect.min(LONGEST_PAUSE)
    }
}
