//! Copies of what a record keeps.
ghost use Rattle.std.specs.Prelude.{◌≡◌, ◌<◌, ◌^◌, length, IfOk, OnOk};
ghost use Rattle.std.specs.Str.{IsUtf8};
ghost use Rattle.addr_core.specs.Text.{IsEndpoint};
ghost use Rattle.conn_model.specs.HandedIn.{AreBytes, HasPieceInLimit, IsHandedIn, IsId};
ghost use Rattle.conn_model.specs.History.{owned_event};

use addr_core::{Addr, Endpoint};
use arrayvec::ArrayVec;
use conn_model::event::{ConnId, Event, OwnedEvent};
use conn_model::reply::{Reply, Said};
use list_core::Seq;
use plan_types::Track;
use pp_v1::LINE_LIMIT;
use proxy_types::COUNTERS;
use std::alloc::{AllocError, Global};

/// Says of a name what its type does. It does nothing.
fn attest_id(id: &ConnId)
    ensures { IsId id.now }
{
    let ConnId { frontend, serial } = *id;
    let (_frontend, _serial) = (frontend, serial);
}

/// The same of an endpoint.
fn attest_endpoint(endpoint: &Endpoint)
    ensures { IsEndpoint endpoint.now }
{
    let _port = endpoint.port;
    match endpoint.addr {
        Addr::V4(number) => {
            let _number = number;
        }
        Addr::V6(number) => {
            let _number = number;
        }
    }
}

/// The same of bytes.
fn attest_bytes(bytes: &[u8])
    ensures { AreBytes bytes.now }
{
    let _length = bytes.len();
}

/// The same of a text.
fn attest_text(text: &str)
    ensures { IsUtf8 text.now × (length text.now < 2 ^ 63) }
{
    let _length = text.len();
}

/// The same of an event. What no type says is how long its piece is.
fn attest(event: &Event)
    ensures { HasPieceInLimit (owned_event event.now) → IsHandedIn (owned_event event.now) }
{
    match event {
        Event::Accept(listener, real) => {
            let _listener = *listener;
            attest_endpoint(&real.source());
            attest_endpoint(&real.destination());
        }
        Event::Piece(id, bytes) => {
            attest_id(id);
            attest_bytes(bytes);
        }
        Event::Connected(id) | Event::ConnectFailed(id) | Event::Close(id, _) | Event::Expire(id) =>
            attest_id(id),
        Event::Reload(text) => attest_text(text),
        Event::Mark(backend, server, _) => {
            let _backend = *backend;
            let _server = *server;
        }
    }
}

/// The event with memory of its own. Only the bytes of a piece and the text of a reload need memory.
pub fn copy_event(alloc: Global, event: &Event) -> Result<OwnedEvent, AllocError>
    ensures copy { IfOk result (λ copy. copy ≡ owned_event event.now) }

    // What the types do not say of an event that can be handed in is how long its piece is.
    ensures handed_in { OnOk result (HasPieceInLimit (owned_event event.now) →
        IsHandedIn (owned_event event.now)) }
{
    attest(event);
    match *event {
        Event::Accept(listener, real) => Ok(OwnedEvent::Accept(listener, real)),
        Event::Piece(id, bytes) => Ok(OwnedEvent::Piece(id, copy_text(alloc, bytes)?)),
        Event::Connected(id) => Ok(OwnedEvent::Connected(id)),
        Event::ConnectFailed(id) => Ok(OwnedEvent::ConnectFailed(id)),
        Event::Close(id, why) => Ok(OwnedEvent::Close(id, why)),
        Event::Expire(id) => Ok(OwnedEvent::Expire(id)),
        Event::Reload(text) => Ok(OwnedEvent::Reload(copy_text(alloc, text.as_bytes())?)),
        Event::Mark(backend, server, health) => Ok(OwnedEvent::Mark(backend, server, health)),
    }
}

/// The bytes in memory of their own, copied at once.
fn copy_text(alloc: Global, bytes: &[u8]) -> Result<Seq<u8>, AllocError>
    ensures { IfOk result (λ copy. copy ≡ bytes.now) }
{
    let mut copy = Vec::with_capacity(alloc, bytes.len())?;
    copy.extend_from_slice(bytes)?;
    Ok(Seq::of(copy))
}

/// An equal reply, without taking memory.
pub fn copy_reply(reply: &Reply) -> Reply
    ensures { result ≡ reply.now }
{
    Reply {
        said: copy_said(&reply.said),
        tracks: copy_tracks(&reply.tracks),
    }
}

fn copy_said(said: &Said) -> Said
    ensures { result ≡ said.now }
{
    match *said {
        Said::Wait { id, used } => Said::Wait { id, used },
        Said::Offer {
            id,
            used,
            line,
            server,
            to,
            judged,
            ref send,
        } => Said::Offer {
            id,
            used,
            line,
            server,
            to,
            judged,
            send: copy_bytes(send),
        },
        Said::Refuse { id, used, cause } => Said::Refuse { id, used, cause },
        Said::Up { id } => Said::Up { id },
        Said::Closed { id, why } => Said::Closed { id, why },
        Said::Reloaded { version } => Said::Reloaded { version },
        Said::Marked { line, health } => Said::Marked { line, health },
    }
}

fn copy_bytes(bytes: &ArrayVec<u8, LINE_LIMIT>) -> ArrayVec<u8, LINE_LIMIT>
    ensures { result ≡ bytes.now }
{
    let mut copy = ArrayVec::new();
    let Ok(()) = copy.try_extend_from_slice(bytes.as_slice()) else {
        unreachable!()
    };
    copy
}

fn copy_tracks(tracks: &ArrayVec<Track, COUNTERS>) -> ArrayVec<Track, COUNTERS>
    ensures { result ≡ tracks.now }
{
    let mut copy = ArrayVec::new();
    let Ok(()) = copy.try_extend_from_slice(tracks.as_slice()) else {
        unreachable!()
    };
    copy
}
