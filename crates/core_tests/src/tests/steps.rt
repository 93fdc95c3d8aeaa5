//! Steps of a core.
use addr_core::{Addr, Endpoint, Pair};
use conn_core::Core;
use conn_model::event::{ConnId, Event, Why};
use conn_model::reply::Said;

/// The addresses of a connection from a port of 192.0.2.5 to 127.0.0.1:9000.
pub fn pair_from(port: u16) -> Option<Pair> {
    let source = Endpoint {
        addr: Addr::V4(0xc000_0205),
        port,
    };
    let destination = Endpoint {
        addr: Addr::V4(0x7f00_0001),
        port: 9000,
    };
    Pair::of(source, destination)
}

/// The serial that a connection is offered a server with.
pub fn offer(core: &mut Core, moment: u64, pair: Pair) -> Option<u64> {
    match core.step(moment, &Event::Accept(0, pair)) {
        Ok(reply) => match &reply.said {
            Said::Offer { id, .. } => Some(id.serial),
            _ => None,
        },
        Err(_) => None,
    }
}

/// Whether the connection with a serial is closed.
pub fn close(core: &mut Core, moment: u64, serial: u64) -> bool {
    core.step(moment, &Event::Close(id_of(serial), Why::Failed))
        .is_ok()
}

/// The connection of the first frontend with a serial.
pub fn id_of(serial: u64) -> ConnId {
    ConnId {
        frontend: 0,
        serial,
    }
}
