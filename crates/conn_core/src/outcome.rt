//! What becomes of a connection.
ghost use Rattle.std.specs.Prelude.{◌≡◌, ◌≤◌, length};
ghost use Rattle.conn_model.specs.Answer.{reply_of};
ghost use Rattle.conn_core.specs.Outcome.{form_of, header_in, offer_of, reply_by, said_by};

use crate::tracking::present_tracks;
use addr_core::Pair;
use arrayvec::ArrayVec;
use conn_model::event::ConnId;
use conn_model::reply::{Cause, Reply, Said};
use conn_rows::ServerChoice;
use plan_types::Server;
use pp_any::{write_v1, write_v2};
use pp_v1::LINE_LIMIT;
use rule_engine::Tracks;

/// A server for a connection.
#[derive(Drop)]
pub struct Offer {
    pub seat: ServerChoice,
    /// The form of the header that the server is sent before the stream.
    pub header: HeaderForm,
}

/// The form in which a server is sent the judged pair.
#[derive(Clone, Copy, Debug, PartialEq, Eq)]
pub enum HeaderForm {
    /// It is sent no header.
    Absent,
    Version1,
    Version2,
}

/// What becomes of a connection.
#[derive(Drop)]
pub enum Outcome {
    /// It waits for its PROXY header.
    Wait,
    Offer(Offer),
    Refuse(Cause),
}

/// What becomes of a connection, and what the step tracks for it. The caller of `admission` or of `decide` makes the place,
/// which they write: by value its 544 bytes were copied at each return. Before it is decided, a place says that the
/// connection waits, and that is no answer.
#[derive(Drop)]
pub struct TrackedOutcome {
    pub outcome: Outcome,
    pub tracks: Tracks,
}

/// The reply to a connection of which that becomes. So many bytes of the piece belong to its header.
#[inline(always)]
pub fn reply(id: ConnId, used: u64, decision: &TrackedOutcome) -> Reply
    ensures { result ≡ reply_by id used decision.now }
{
    Reply {
        said: said(id, used, &decision.outcome),
        tracks: present_tracks(&decision.tracks),
    }
}

/// The reply of a step that tracks nothing.
#[inline(always)]
pub fn plain_reply(said: Said) -> Reply
    ensures { result ≡ reply_of said }
{
    Reply {
        said,
        tracks: ArrayVec::new(),
    }
}

/// What is said to a connection of that outcome. So many bytes of the piece belong to its header.
#[inline(always)]
fn said(id: ConnId, used: u64, outcome: &Outcome) -> Said
    ensures { result ≡ said_by id used outcome.now }
{
    match outcome {
        Outcome::Wait => Said::Wait { id, used },
        Outcome::Offer(offer) => offer_said(id, used, offer),
        Outcome::Refuse(cause) => Said::Refuse {
            id,
            used,
            cause: *cause,
        },
    }
}

/// The same where that is an offer.
#[inline(always)]
pub fn offer_said(id: ConnId, used: u64, offer: &Offer) -> Said
    ensures { result ≡ said_by id used (Outcome.Offer offer.now) }
{
    let Offer { seat, header: form } = offer;
    Said::Offer {
        id,
        used,
        line: seat.line,
        server: seat.server,
        to: seat.to,
        judged: seat.judged,
        send: header(*form, seat.judged),
    }
}

/// The offer of a server that has that number in its backend.
#[inline(always)]
pub fn offer_of(number: u16, server: &Server, judged: Pair) -> Offer
    ensures { result ≡ offer_of number server.now judged }
{
    Offer {
        seat: ServerChoice {
            server: number,
            line: server.line,
            to: server.to,
            judged,
        },
        header: form_of(server),
    }
}

fn form_of(server: &Server) -> HeaderForm
    ensures { result ≡ form_of server.now }
{
    if server.send_proxy_v2 {
        HeaderForm::Version2
    } else if server.send_proxy {
        HeaderForm::Version1
    } else {
        HeaderForm::Absent
    }
}

/// The header of that form, which states the judged pair (proxy-protocol.txt, section 2).
fn header(form: HeaderForm, judged: Pair) -> ArrayVec<u8, LINE_LIMIT>
    ensures { result ≡ record { items = header_in form judged } }
{
    match form {
        HeaderForm::Absent => ArrayVec::new(),
        HeaderForm::Version1 => write_v1(&judged),
        HeaderForm::Version2 => in_line(write_v2(&judged).as_slice()),
    }
}

fn in_line(bytes: &[u8]) -> ArrayVec<u8, LINE_LIMIT>
    requires { length bytes.now ≤ LINE_LIMIT }
    ensures { result ≡ record { items = bytes.now } }
{
    let mut copy = ArrayVec::new();
    match copy.try_extend_from_slice(bytes) {
        Ok(()) => copy,
        Err(_) => unreachable!(),
    }
}
