//! Records as they are written.
ghost use Rattle.std.specs.Prelude.{IsTrue};
ghost use Rattle.conn_model.specs.HandedIn.{HasPieceInLimit};
ghost use Rattle.conn_model.specs.History.{owned_event};

use crate::tests::records::{RECORD, RELOAD_RECORD};
use crate::tests::runs::CONFIG;
use addr_core::{Addr, Endpoint, Pair};
use audit_core::write_record;
use conn_core::Core;
use conn_model::event::{ConnId, Event, PIECE_LIMIT, Why};
use record_core::{Record, copy_event};
use std::alloc::Global;

/// The text of a reload by which a server of another address is used, and the rule is gone.
const RELOADED: &str =
    "frontend f\nbind 127.0.0.1:9000\ndefault_backend b\nbackend b\nserver s 10.0.0.21:80\n";

const FIRST: ConnId = ConnId {
    frontend: 0,
    serial: 1,
};

/// The addresses of a connection from that address to 127.0.0.1:9000.
pub fn pair_from(source: u32, port: u16) -> Option<Pair> {
    let source = Endpoint {
        addr: Addr::V4(source),
        port,
    };
    let destination = Endpoint {
        addr: Addr::V4(0x7f00_0001),
        port: 9000,
    };
    Pair::of(source, destination)
}

/// Whether an event can be handed in.
fn can_come(event: &Event) -> bool
    ensures { IsTrue result → HasPieceInLimit (owned_event event.now) }
{
    match event {
        Event::Piece(_, bytes) => bytes.len() <= PIECE_LIMIT,
        Event::Accept(..)
        | Event::Connected(_)
        | Event::ConnectFailed(_)
        | Event::Close(..)
        | Event::Expire(_)
        | Event::Reload(_)
        | Event::Mark(..) => true,
    }
}

/// Whether an event is answered, and its record could be written.
fn writes(alloc: Global, core: &mut Core, moment: u64, event: &Event, out: &mut Vec<u8>) -> bool
    requires { HasPieceInLimit (owned_event event.now) }
{
    let Ok(reply) = core.step(moment, event) else {
        return false;
    };
    let Ok(event) = copy_event(alloc, event) else {
        return false;
    };
    let record = Record {
        number: moment.saturating_add(1),
        moment,
        event,
        reply,
    };
    write_record(out, &record).is_ok()
}

/// The record of the events, each of them at the moment of its place in the list.
fn recorded(alloc: Global, events: &[Event<'_>]) -> Option<Vec<u8>> {
    let mut core = Core::open(alloc, CONFIG).ok()?;
    let mut out = Vec::new(alloc);
    let mut all = true;
    let mut moment = 0u64;
    for event in events {
        all = can_come(event) && writes(alloc, &mut core, moment, event, &mut out) && all;
        moment = moment.saturating_add(1);
    }
    core.end();
    if all { Some(out) } else { None }
}

/// Whether these events have that record.
fn is_recorded(alloc: Global, events: &[Event<'_>], record: &[u8]) -> bool {
    match recorded(alloc, events) {
        Some(out) => out.as_slice() == record,
        None => false,
    }
}

/// Whether what is written of the answers of a core is their record, without a reload and with one.
fn are_recorded(alloc: Global) -> Option<(bool, bool)> {
    let near = pair_from(0xc000_0205, 4000)?;
    let far = pair_from(0xc633_6409, 4001)?;
    let plain = [
        Event::Accept(0, near),
        Event::Accept(0, far),
        Event::Close(FIRST, Why::Done),
    ];
    let reloading = [
        Event::Accept(0, near),
        Event::Reload(RELOADED),
        Event::Accept(0, far),
        Event::Close(FIRST, Why::Done),
    ];
    let is_plain = is_recorded(alloc, &plain, RECORD);
    Some((is_plain, is_recorded(alloc, &reloading, RELOAD_RECORD)))
}

#[test]
fn records_are_written_without_a_reload_and_with_one(rt: HostRuntime) {
    assert_eq!(rt; are_recorded(rt.alloc()), Some((true, true)));
}
