//! What a request asks for.
ghost use Rattle.std.specs.Prelude.{◌≡◌, ◌≢◌, codes};
ghost use Rattle.httparse.specs.Grammar.{MayBecomeRequest, NeverHasRequest};
ghost use Rattle.status_http.specs.Request.{path_in, query_place, AsksForState};

use httparse::spans::{EMPTY_HEADER_SPAN, parse_request};
use httparse::{Error, Status};

/// How many fields a request may have.
const MOST_FIELDS: usize = 64;

/// What the bytes that came ask for.
#[derive(Clone, Copy, Debug, PartialEq, Eq)]
pub enum RequestKind {
    /// The state: `GET /metrics`.
    Metrics,
    /// Something else than the state.
    OtherPath,
    /// To do something else than to read.
    OtherMethod,
    /// The head has more bytes or more fields than are read.
    TooLong,
    /// No bytes that may follow make a request of them.
    Unreadable,
    /// The head is not whole yet.
    Incomplete,
}

/// Where the query of a target begins, if it has one.
fn query_place(target: &[u8]) -> Option<usize>
    ensures { result ≡ query_place target.now }
{
    target.iter().position(|byte| *byte == b'?')
}

/// The path of a target, without its query.
fn path_of(target: &[u8]) -> &[u8]
    ensures { result.now ≡ path_in target.now }
{
    match query_place(target) {
        Some(end) => target.get(..end).unwrap_or(target),
        None => target,
    }
}

fn kind_by(method: &[u8], target: &[u8]) -> RequestKind
    ensures state { result ≡ RequestKind.Metrics → (method.now ≡ codes "GET") × (path_in target.now ≡ codes "/metrics") }
    ensures complete { result ≢ RequestKind.Incomplete }
    ensures readable { result ≢ RequestKind.Unreadable }
{
    if !matches!(method, b"GET") {
        RequestKind::OtherMethod
    } else if matches!(path_of(target), b"/metrics") {
        RequestKind::Metrics
    } else {
        RequestKind::OtherPath
    }
}

/// What the bytes of a connection ask for, as far as they came.
pub fn kind_of_request(bytes: &[u8]) -> RequestKind
    ensures metrics { result ≡ RequestKind.Metrics → AsksForState bytes.now }
    ensures incomplete { result ≡ RequestKind.Incomplete → MayBecomeRequest bytes.now }
    ensures unreadable { result ≡ RequestKind.Unreadable → NeverHasRequest bytes.now }
{
    let mut fields = [EMPTY_HEADER_SPAN; MOST_FIELDS];
    match parse_request(bytes, &mut fields) {
        Ok(Status::Complete(head)) => kind_by(head.method.of(bytes), head.path.of(bytes)),
        Ok(Status::Partial) => RequestKind::Incomplete,
        Err(Error::TooManyHeaders) => RequestKind::TooLong,
        Err(_) => RequestKind::Unreadable,
    }
}
