//! Whether two records are equal.
ghost use Rattle.std.specs.Prelude.{◌≡◌, ◌↔◌, IsTrue};

use addr_core::{Endpoint, Pair};
use arrayvec::ArrayVec;
use conn_model::event::{ConnId, Health, OwnedEvent, Why};
use conn_model::reply::{Cause, Reply, Said};
use plan_types::Track;
use pp_v1::LINE_LIMIT;
use proxy_types::COUNTERS;
use record_core::Record;

/// Whether the records are equal.
pub(crate) fn same_record(one: &Record, other: &Record) -> bool
    ensures { IsTrue result ↔ (one.now ≡ other.now) }
{
    one.number == other.number
        && one.moment == other.moment
        && same_event(&one.event, &other.event)
        && same_reply(&one.reply, &other.reply)
}

fn same_event(one: &OwnedEvent, other: &OwnedEvent) -> bool
    ensures { IsTrue result ↔ (one.now ≡ other.now) }
{
    match (one, other) {
        (OwnedEvent::Accept(listener, real), OwnedEvent::Accept(other_listener, other_real)) => {
            *listener == *other_listener && same_pair(real, other_real)
        }
        (OwnedEvent::Piece(id, bytes), OwnedEvent::Piece(other_id, other_bytes)) => {
            same_id(id, other_id) && bytes.as_slice() == other_bytes.as_slice()
        }
        (OwnedEvent::Connected(id), OwnedEvent::Connected(other_id)) => same_id(id, other_id),
        (OwnedEvent::ConnectFailed(id), OwnedEvent::ConnectFailed(other_id)) => {
            same_id(id, other_id)
        }
        (OwnedEvent::Close(id, why), OwnedEvent::Close(other_id, other_why)) => {
            same_id(id, other_id) && same_why(why, other_why)
        }
        (OwnedEvent::Expire(id), OwnedEvent::Expire(other_id)) => same_id(id, other_id),
        (OwnedEvent::Reload(text), OwnedEvent::Reload(other_text)) => {
            text.as_slice() == other_text.as_slice()
        }
        (
            OwnedEvent::Mark(backend, server, health),
            OwnedEvent::Mark(other_backend, other_server, other_health),
        ) => {
            *backend == *other_backend
                && *server == *other_server
                && same_health(health, other_health)
        }
        _ => false,
    }
}

fn same_reply(one: &Reply, other: &Reply) -> bool
    ensures { IsTrue result ↔ (one.now ≡ other.now) }
{
    same_said(&one.said, &other.said) && same_tracks(&one.tracks, &other.tracks)
}

fn same_said(one: &Said, other: &Said) -> bool
    ensures { IsTrue result ↔ (one.now ≡ other.now) }
{
    match (one, other) {
        (
            Said::Wait { id, used },
            Said::Wait {
                id: other_id,
                used: other_used,
            },
        ) => same_id(id, other_id) && *used == *other_used,
        (
            Said::Offer {
                id,
                used,
                line,
                server,
                to,
                judged,
                send,
            },
            Said::Offer {
                id: other_id,
                used: other_used,
                line: other_line,
                server: other_server,
                to: other_to,
                judged: other_judged,
                send: other_send,
            },
        ) => {
            same_id(id, other_id)
                && *used == *other_used
                && *line == *other_line
                && *server == *other_server
                && same_endpoint(to, other_to)
                && same_pair(judged, other_judged)
                && same_bytes(send, other_send)
        }
        (
            Said::Refuse { id, used, cause },
            Said::Refuse {
                id: other_id,
                used: other_used,
                cause: other_cause,
            },
        ) => same_id(id, other_id) && *used == *other_used && same_cause(cause, other_cause),
        (Said::Up { id }, Said::Up { id: other_id }) => same_id(id, other_id),
        (
            Said::Closed { id, why },
            Said::Closed {
                id: other_id,
                why: other_why,
            },
        ) => same_id(id, other_id) && same_why(why, other_why),
        (
            Said::Reloaded { version },
            Said::Reloaded {
                version: other_version,
            },
        ) => *version == *other_version,
        (
            Said::Marked { line, health },
            Said::Marked {
                line: other_line,
                health: other_health,
            },
        ) => *line == *other_line && same_health(health, other_health),
        _ => false,
    }
}

fn same_id(one: &ConnId, other: &ConnId) -> bool
    ensures { IsTrue result ↔ (one.now ≡ other.now) }
{
    *one == *other
}

fn same_health(one: &Health, other: &Health) -> bool
    ensures { IsTrue result ↔ (one.now ≡ other.now) }
{
    *one == *other
}

fn same_why(one: &Why, other: &Why) -> bool
    ensures { IsTrue result ↔ (one.now ≡ other.now) }
{
    *one == *other
}

fn same_cause(one: &Cause, other: &Cause) -> bool
    ensures { IsTrue result ↔ (one.now ≡ other.now) }
{
    *one == *other
}

fn same_endpoint(one: &Endpoint, other: &Endpoint) -> bool
    ensures { IsTrue result ↔ (one.now ≡ other.now) }
{
    *one == *other
}

fn same_pair(one: &Pair, other: &Pair) -> bool
    ensures { IsTrue result ↔ (one.now ≡ other.now) }
{
    *one == *other
}

fn same_bytes(one: &ArrayVec<u8, LINE_LIMIT>, other: &ArrayVec<u8, LINE_LIMIT>) -> bool
    ensures { IsTrue result ↔ (one.now ≡ other.now) }
{
    one.as_slice() == other.as_slice()
}

fn same_tracks(one: &ArrayVec<Track, COUNTERS>, other: &ArrayVec<Track, COUNTERS>) -> bool
    ensures { IsTrue result ↔ (one.now ≡ other.now) }
{
    one.as_slice() == other.as_slice()
}
