//! What picks see of the servers of a backend.
ghost use Rattle.std.specs.Prelude.{◌≡◌, ◌&&◌, not, slice_get};
ghost use Rattle.std.specs.Option.{option_copied};
ghost use Rattle.conn_model.specs.Servers.{has_room, weight_by, weight_of};

use crate::barred::Barred;
use balance_core::{Load, ServerLoad};
use plan_types::{Backend, Server};
use proxy_types::Method;
use slot_core::{SlotIx, Slots};
use std::marker::Model;

/// The servers of a backend, with their open connections.
#[derive(Drop)]
pub struct BackendLoad<'a> {
    pub backend: &'a Backend,
    pub places: &'a [SlotIx],
    pub slots: &'a Slots,
    /// From which servers the pick is barred.
    pub barred: Barred<'a>,
}

impl<'a> Model for BackendLoad<'a> {
    ghost use Rattle.std.specs.Prelude.{List};
    ghost use Rattle.balance_core.specs.declared.load.ServerLoad.{ServerLoad};
    ghost use Rattle.conn_model.specs.Servers.{loads_of};
    ghost use Rattle.conn_versions.specs.Versions.{open_to};
    ghost use Rattle.conn_versions.specs.Barred.{is_barred};
    ghost use Rattle.conn_versions.specs.Slots.{IsServed};

    ghost Value = { List ServerLoad };

    ghost view = { λ l. loads_of (open_to l.slots.now) (is_barred l.barred.down.now l.barred.lines.now) l.backend.now };

    ghost invariant = { λ l. IsServed l.slots.now l.backend.now l.places.now };
}

impl Load for BackendLoad<'_> {
    ghost servers = { λ load. load };

    fn count(&self) -> u16 {
        self.backend.servers.len() as u16
    }

    fn server(&self, number: u16) -> Option<ServerLoad> {
        match item(self.backend.servers.as_slice(), number) {
            Some(server) => {
                let ix = self.places[usize::from(number)];
                let is_barred = self.barred.bars(self.backend, server);
                Some(load_of(self.backend.method, is_barred, server, self.slots.count(ix)))
            }
            None => None,
        }
    }
}

/// The item of that number, the first being 0.
pub fn item<T>(items: &[T], number: u16) -> Option<&T>
    ensures { option_copied result ≡ slice_get items.now number }
{
    items.get(usize::from(number))
}

/// The load of a server to which so many connections are open, and from which the pick may be barred.
fn load_of(method: Method, is_barred: bool, server: &Server, connections: u64) -> ServerLoad
    ensures { result ≡ record { weight = weight_by method is_barred server.now; has_room = not is_barred && has_room server.now.limit connections; connections = connections } }
{
    ServerLoad {
        weight: weight_by(method, is_barred, server),
        has_room: !is_barred && has_room(server, connections),
        connections,
    }
}

/// By source a server from which the pick is barred has no weight.
fn weight_by(method: Method, is_barred: bool, server: &Server) -> u16
    ensures { result ≡ weight_by method is_barred server.now }
{
    match method {
        Method::Source => { if is_barred { 0 } else { weight_of(server) } }
        Method::RoundRobin | Method::LeastConn => weight_of(server),
    }
}

/// A server that is disabled has no weight.
pub fn weight_of(server: &Server) -> u16
    ensures { result ≡ weight_of server.now }
{
    if server.disabled { 0 } else { server.weight }
}

/// Whether a server may have one connection more than so many.
fn has_room(server: &Server, connections: u64) -> bool
    ensures { result ≡ has_room server.now.limit connections }
{
    server.limit == 0 || connections < server.limit
}

/// The servers of a backend, of which the one of that number alone has room.
#[derive(Drop)]
pub struct OneServer<'a> {
    pub servers: &'a [Server],
    pub number: u16,
}

impl<'a> Model for OneServer<'a> {
    ghost use Rattle.std.specs.Prelude.{List, length, ◌≤◌};
    ghost use Rattle.proxy_types.specs.declared.limits.TheConstants.{MOST_SERVERS};
    ghost use Rattle.balance_core.specs.declared.load.ServerLoad.{ServerLoad};
    ghost use Rattle.conn_versions.specs.Picks.{loads_of_one};

    ghost Value = { List ServerLoad };

    ghost view = { λ o. loads_of_one o.number o.servers.now };

    ghost invariant = { λ o. length o.servers.now ≤ MOST_SERVERS };
}

impl Load for OneServer<'_> {
    ghost servers = { λ load. load };

    fn count(&self) -> u16 {
        self.servers.len() as u16
    }

    fn server(&self, number: u16) -> Option<ServerLoad> {
        match item(self.servers, number) {
            Some(server) => Some(ServerLoad {
                weight: weight_of(server),
                has_room: number == self.number,
                connections: 0,
            }),
            None => None,
        }
    }
}
