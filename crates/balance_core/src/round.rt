//! Round robin.
ghost use Rattle.std.specs.Prelude.{◌≡◌, ◌-◌, ◌≤◌, length, find, option_map, option_and_then, slice_get, Some, IfSome};
ghost use Rattle.std.specs.List.{range_with_len};
ghost use Rattle.balance_core.specs.Loads.{first_after, has_room_at, next_after, room_in};
ghost use Rattle.balance_core.specs.Rounds.{weights_of, next_turn};
ghost use Rattle.balance_core.specs.Cycles.{IsRound, turn_at, placed_at, passes_at, next_place};

use crate::cycle::Cycle;
use crate::load::{Load, Rooms, has_room};
use proxy_types::Place;

/// A place of the cycle, counted from 0, and its server.
#[derive(Clone, Copy, Debug, PartialEq, Eq)]
pub struct Placed {
    pub place: usize,
    pub server: u16,
}

/// The first place after the last one used, going round, whose server has room. Its turn is the next one
/// of the servers, where the cycle is of their weights.
pub fn pick_round<L: Load>(cycle: &Cycle, last: Option<usize>, load: &L) -> Option<Placed>
    ensures turn { IsRound (weights_of (L.servers load.now)) cycle.now → turn_at cycle.now (option_map (λ placed. placed.place) result) ≡ next_turn (L.servers load.now) (turn_at cycle.now last) }
    ensures server { IfSome result (λ placed. option_map (λ turn. turn.server) (slice_get cycle.now placed.place) ≡ Some placed.server) }
{
    place_after(cycle, last, load)
}

fn place_after<L: Load>(cycle: &Cycle, last: Option<usize>, load: &L) -> Option<Placed>
    ensures { result ≡ next_place (has_room_at (L.servers load.now)) cycle.now last }
{
    let places = cycle.places();
    let next = next_after(last, places.len());
    if let Some(turn) = places.get(next) {
        let server = turn.server;
        if has_room(load, server) {
            return Some(Placed {
                place: next,
                server,
            });
        }
    }
    let rooms = Rooms::of(load);
    place_with_room(places, last, &rooms)
}

/// The place that comes next, going round.
fn next_after(last: Option<usize>, count: usize) -> usize
    ensures { result ≡ next_after last count }
{
    let begin = begin_after(last, count);
    if begin == count { 0 } else { begin }
}

fn place_with_room(places: &[Place], last: Option<usize>, rooms: &Rooms) -> Option<Placed>
    ensures { result ≡ next_place (room_in rooms.now) places.now last }
{
    if !rooms.any() {
        return None;
    }
    let begin = begin_after(last, places.len());
    match first_with_room(places, begin, places.len(), rooms) {
        Some(placed) => Some(placed),
        None => first_with_room(places, 0, begin, rooms),
    }
}

/// Where the round begins.
fn begin_after(last: Option<usize>, count: usize) -> usize
    ensures { result ≡ first_after last count }
{
    match last {
        Some(last) => last.saturating_add(1).min(count),
        None => 0,
    }
}

/// The first place from `begin` up to `end` whose server has room.
fn first_with_room(places: &[Place], begin: usize, end: usize, rooms: &Rooms) -> Option<Placed>
    requires { end ≤ length places.now }
    ensures { result ≡ option_map (placed_at places.now) (find (passes_at (room_in rooms.now) places.now) (range_with_len begin (end - begin))) }
{
    for n in begin..end {
        let server = places[n].server;
        if rooms.has(server) {
            return Some(Placed { place: n, server });
        }
    }
    None
}
