//! What picks of a backend go by.
ghost use Rattle.std.specs.Prelude.{◌≡◌, ◌<◌, ◌≤◌, ℕ, true, length, map, option_map, slice_get, None, Some, IfOk, IfSome};
ghost use Rattle.proxy_types.specs.declared.limits.TheConstants.{MOST_SERVERS};
ghost use Rattle.balance_core.specs.Cycles.{turn_at, IsRound};
ghost use Rattle.balance_core.specs.Rounds.{next_turn, used_turn, weights_of};
ghost use Rattle.conn_model.specs.Servers.{cursor_after, identity_in, pick_in, weight_of};
ghost use Rattle.slot_core.specs.Counts.{named_at, IdentitiesDiffer};
ghost use Rattle.conn_versions.specs.Versions.{connections_in, open_to};
ghost use Rattle.conn_versions.specs.Slots.{AreNamed, AreNoted, AreSlots, IsServed, KeepsPlaces};
ghost use Rattle.conn_versions.specs.Barred.{is_barred};
ghost use Rattle.conn_versions.specs.Picks.{IsTied};

use crate::barred::Barred;
use crate::loads::{BackendLoad, OneServer, weight_of};
use addr_core::Addr;
use balance_core::{Cycle, pick_least, pick_round, pick_source};
use list_core::{Duplicate, Seq};
use plan_types::{Backend, Server};
use proxy_types::{Method, Place, ServerIdentity};
use slot_core::{NamedPlaces, SlotIx, Slots};
use std::alloc::{AllocError, Global};

/// How far from a backend's own number the cycle of another is looked for. A file that has some backends more or less than
/// the one before has the others near.
const NEAR: usize = 8;

/// What picks of a backend go by.
#[derive(Debug, Drop)]
pub struct BackendPicks {
    /// Where the open connections of each server are counted.
    pub slots: Seq<SlotIx>,
    /// The turns of the servers.
    pub cycle: Cycle,
    /// The place of the turn that was last used, by round robin.
    pub used: Option<usize>,
}

/// The name of a server, by which it is counted.
fn identity_of(
    alloc: Global,
    backend: &Backend,
    server: &Server,
) -> Result<ServerIdentity, AllocError>
    ensures { IfOk result (λ identity. identity ≡ identity_in backend.now server.now) }
{
    Ok(ServerIdentity {
        backend: backend.name.duplicate(alloc)?,
        name: server.name.duplicate(alloc)?,
        to: server.to,
    })
}

/// Names the places of a backend's servers.
pub fn note_places(named: &mut NamedPlaces, places: &[SlotIx])
    ensures many { length named.new ≡ length named.old }
    ensures noted { AreNoted named.new places.now }
    ensures still_named { (place : ℕ) → named_at place named.old ≡ true → named_at place named.new ≡ true }
{
    for ix in places {
        named.note(*ix);
    }
}

/// The slot of each server, whose place is named from now on. One that is new has no open connection.
fn slots_of(
    alloc: Global,
    backend: &Backend,
    slots: &mut Slots,
    named: &mut NamedPlaces,
) -> Result<Seq<SlotIx>, AllocError>
    requires apart { IdentitiesDiffer slots.old }
    requires many { length named.old ≡ length slots.old }
    ensures each { IfOk result (λ places. AreSlots slots.new backend.now places) }
    ensures named { IfOk result (λ places. AreNamed named.new places) }
    ensures keeps { KeepsPlaces slots.old named.old slots.new named.new }
{
    let mut places = Seq::new(alloc);
    for server in backend.servers.as_slice() {
        let identity = identity_of(alloc, backend, server)?;
        let ix = slots.add(&identity, named)?;
        places.push(ix)?;
    }
    Ok(places)
}

/// The weight of each server.
fn weights_of(alloc: Global, servers: &[Server]) -> Result<Vec<u16>, AllocError>
    ensures { IfOk result (λ weights. weights.items ≡ map weight_of servers.now) }
{
    let mut weights = Vec::new(alloc);
    for server in servers {
        weights.push(weight_of(server))?;
    }
    Ok(weights)
}

/// The cycle of a backend, where `own` are those before it in its version and `before` those of a version before. It is a
/// copy where one of either has the same weights, of those whose numbers are near.
pub fn cycle_of(
    alloc: Global,
    servers: &[Server],
    before: &[BackendPicks],
    own: &[BackendPicks],
) -> Result<Cycle, AllocError>
    requires { length servers.now ≤ MOST_SERVERS }
    ensures { IfOk result (IsRound (map weight_of servers.now)) }
{
    let weights = weights_of(alloc, servers)?;
    let weights = weights.as_slice();
    let number = own.len();
    if let Some(cycle) = cycle_near(before, number, weights) {
        return cycle.duplicate(alloc);
    }
    match cycle_near(own, number, weights) {
        Some(cycle) => cycle.duplicate(alloc),
        None => Cycle::of(alloc, weights),
    }
}

/// A cycle of those weights of a backend whose number is near.
fn cycle_near<'a>(own: &'a [BackendPicks], number: usize, weights: &[u16]) -> Option<&'a Cycle>
    ensures { IfSome result (λ cycle. IsRound weights.now cycle.now) }
{
    if let Some(cycle) = cycle_at(own, number, weights) {
        return Some(cycle);
    }
    for near in number.saturating_sub(NEAR)..number.saturating_add(NEAR + 1) {
        if let Some(cycle) = cycle_at(own, near, weights) {
            return Some(cycle);
        }
    }
    None
}

/// The cycle of the backend of that number, if it is of those weights.
fn cycle_at<'a>(own: &'a [BackendPicks], number: usize, weights: &[u16]) -> Option<&'a Cycle>
    ensures { IfSome result (λ cycle. IsRound weights.now cycle.now) }
{
    let picks = own.get(number)?;
    if picks.cycle.is_of(weights) {
        Some(&picks.cycle)
    } else {
        None
    }
}

/// What picks of a backend go by where nothing of it was used.
pub fn picks_of(
    alloc: Global,
    backend: &Backend,
    cycle: Cycle,
    slots: &mut Slots,
    named: &mut NamedPlaces,
) -> Result<BackendPicks, AllocError>
    requires round { IsRound (map weight_of backend.now.servers) cycle }
    requires apart { IdentitiesDiffer slots.old }
    requires many { length named.old ≡ length slots.old }
    ensures slots { IfOk result (λ own. AreSlots slots.new backend.now own.slots) }
    ensures named { IfOk result (λ own. AreNamed named.new own.slots) }
    ensures keeps { KeepsPlaces slots.old named.old slots.new named.new }
    ensures tied { IfOk result (IsTied backend.now None) }
{
    let places = slots_of(alloc, backend, slots, named)?;
    Ok(BackendPicks {
        slots: places,
        cycle,
        used: None,
    })
}

/// Where the open connections of the server of that number are counted.
pub fn slot_of(own: &BackendPicks, number: u16) -> SlotIx
    requires { number < length own.now.slots }
    ensures { slice_get own.now.slots number ≡ Some result }
{
    own.slots.as_slice()[usize::from(number)]
}

/// How many connections to the server of that number in a backend are open, if there is one.
pub fn connections_at(
    backend: &Backend,
    own: &BackendPicks,
    slots: &Slots,
    server: u16,
) -> Option<u64>
    requires { IsServed slots.now backend.now own.now.slots }
    ensures { result ≡ connections_in (open_to slots.now) (Some backend.now) server }
{
    let number = usize::from(server);
    if number < backend.servers.len() {
        Some(slots.count(slot_of(own, server)))
    } else {
        None
    }
}

/// The server that was last offered.
fn server_of(cursor: Option<Place>) -> Option<u16>
    ensures { result ≡ option_map (λ turn. turn.server) cursor }
{
    match cursor {
        Some(turn) => Some(turn.server),
        None => None,
    }
}

/// The number of the server that is picked by round robin.
fn pick_next(cycle: &Cycle, used: Option<usize>, load: &BackendLoad<'_>) -> Option<u16>
    ensures { IsRound (weights_of load.now) cycle.now → result ≡ option_map (λ turn. turn.server) (next_turn load.now (turn_at cycle.now used)) }
{
    match pick_round(cycle, used, load) {
        Some(placed) => Some(placed.server),
        None => None,
    }
}

/// The number of the server of a backend that is picked for a source.
pub fn pick(
    backend: &Backend,
    cursor: Option<Place>,
    own: &BackendPicks,
    slots: &Slots,
    barred: Barred<'_>,
    source: &Addr,
) -> Option<u16>
    requires served { IsServed slots.now backend.now own.now.slots }
    requires tied { IsTied backend.now cursor own.now }
    ensures { result ≡ option_map (λ turn. turn.server) (pick_in (open_to slots.now) (is_barred barred.entry.down.now barred.entry.lines.now) backend.now cursor source.now) }
{
    let load = BackendLoad {
        backend,
        places: own.slots.as_slice(),
        slots,
        barred,
    };
    match backend.method {
        Method::RoundRobin => pick_next(&own.cycle, own.used, &load),
        Method::LeastConn => pick_least(server_of(cursor), &load),
        Method::Source => pick_source(source, &load),
    }
}

/// The next place of that server, going round.
fn next_of_server(
    cycle: &Cycle,
    used: Option<usize>,
    servers: &[Server],
    number: u16,
) -> Option<usize>
    requires few { length servers.now ≤ MOST_SERVERS }
    requires round { IsRound (map weight_of servers.now) cycle.now }
    ensures { turn_at cycle.now result ≡ used_turn (map weight_of servers.now) (turn_at cycle.now used) number }
{
    match pick_round(cycle, used, &OneServer { servers, number }) {
        Some(placed) => Some(placed.place),
        None => None,
    }
}

/// The turn at a place.
fn turn_at(cycle: &Cycle, place: Option<usize>) -> Option<Place>
    ensures { result ≡ turn_at cycle.now place }
{
    match place {
        Some(place) => match cycle.places().get(place) {
            Some(turn) => Some(*turn),
            None => None,
        },
        None => None,
    }
}

/// Moves what was last used of a backend, once that server of it was offered. It takes no memory.
pub fn use_server(
    backend: &Backend,
    cursor: Option<Place>,
    own: &mut BackendPicks,
    number: u16,
) -> Option<Place>
    requires few { length backend.now.servers ≤ MOST_SERVERS }
    requires tied { IsTied backend.now cursor own.old }
    ensures cursor { result ≡ cursor_after backend.now number cursor }
    ensures tied { IsTied backend.now result own.new }
    ensures slots { own.new.slots ≡ own.old.slots }
{
    match backend.method {
        Method::RoundRobin => {
            own.used = next_of_server(&own.cycle, own.used, backend.servers.as_slice(), number);
            turn_at(&own.cycle, own.used)
        }
        Method::LeastConn => Some(Place {
            server: number,
            turn: 0,
        }),
        Method::Source => cursor,
    }
}
