//! What a pick looks at.
ghost use Rattle.std.specs.Prelude.{◌≡◌, ◌≤◌, ℕ, List, length, slice_get};
ghost use Rattle.balance_core.specs.declared.load.ServerLoad.{ServerLoad};
ghost use Rattle.balance_core.specs.Loads.{weight_at, has_room_at};
ghost use Rattle.proxy_types.specs.declared.limits.TheConstants.{MOST_SERVERS};

use proxy_types::MOST_SERVERS;
use std::marker::Model;

/// What a pick looks at of a server.
#[derive(Clone, Copy, Debug, PartialEq, Eq)]
pub struct ServerLoad {
    /// 0 for a server that is disabled.
    pub weight: u16,
    /// Whether it may be offered one more connection.
    pub has_room: bool,
    /// How many connections are open.
    pub connections: u64,
}

/// The servers of a backend, numbered from 0 in written order.
pub trait Load {
    ghost servers: { Self → List ServerLoad };

    /// How many servers there are.
    fn count(&self) -> u16
        ensures value { result ≡ length (servers self.now) }
        ensures few { result ≤ MOST_SERVERS };

    /// The server of that number.
    fn server(&self, number: u16) -> Option<ServerLoad>
        ensures { result ≡ slice_get (servers self.now) number };
}

/// The weight of a server, 0 where there is no such server.
pub fn weight_of<L: Load>(load: &L, number: u16) -> u16
    ensures { result ≡ weight_at (L.servers load.now) number }
{
    match load.server(number) {
        Some(server) => server.weight,
        None => 0,
    }
}

/// Whether there is such a server, and it has room.
pub fn has_room<L: Load>(load: &L, number: u16) -> bool
    ensures { result ≡ has_room_at (L.servers load.now) number }
{
    match load.server(number) {
        Some(server) => server.has_room,
        None => false,
    }
}

/// Which servers have room, by their numbers.
#[derive(Drop)]
pub struct Rooms {
    rooms: [bool; MOST_SERVERS],
}

impl Model for Rooms {
    ghost use Rattle.std.specs.Prelude.{List, Bool};

    ghost Value = { List Bool };

    ghost view = { λ r. r.rooms };
}

impl Rooms {
    ghost use Rattle.std.specs.List.{list_any};
    ghost use Rattle.balance_core.specs.Loads.{room_in};

    /// Asks each server once.
    pub fn of<L: Load>(load: &L) -> Rooms
        ensures { (number : ℕ) → room_in result number ≡ has_room_at (L.servers load.now) number }
    {
        let mut rooms = [false; MOST_SERVERS];
        for number in 0..load.count() {
            rooms[usize::from(number)] = has_room(load, number);
        }
        Rooms { rooms }
    }

    /// Whether some server has room.
    pub fn any(&self) -> bool
        ensures { result ≡ list_any (λ room. room) self.now }
    {
        self.rooms.iter().any(|room| *room)
    }

    /// Whether the server has room.
    pub fn has(&self, number: u16) -> bool
        ensures { result ≡ room_in self.now number }
    {
        match self.rooms.get(usize::from(number)) {
            Some(has_room) => *has_room,
            None => false,
        }
    }
}
