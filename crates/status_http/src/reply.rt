//! The heads of replies. Each reply ends its connection.
use crate::request::RequestKind;
use std::alloc::AllocError;
use text_core::decimal::append_decimal;

/// How many bytes the head of a request may have.
pub const MOST_HEAD_BYTES: usize = 4_096;

const UNREADABLE: &[u8] =
    b"HTTP/1.0 400 Bad Request\r\nConnection: close\r\nContent-Length: 0\r\n\r\n";

const OTHER_PATH: &[u8] =
    b"HTTP/1.0 404 Not Found\r\nConnection: close\r\nContent-Length: 0\r\n\r\n";

const OTHER_METHOD: &[u8] =
    b"HTTP/1.0 405 Method Not Allowed\r\nAllow: GET\r\nConnection: close\r\nContent-Length: 0\r\n\r\n";

const TOO_LONG: &[u8] =
    b"HTTP/1.0 431 Request Header Fields Too Large\r\nConnection: close\r\nContent-Length: 0\r\n\r\n";

const UNKNOWN: &[u8] =
    b"HTTP/1.0 503 Service Unavailable\r\nConnection: close\r\nContent-Length: 0\r\n\r\n";

/// The reply to a request that is not given the state: also to one that asks for it while it is not known. One that is not
/// whole gets none.
pub fn refusal_of(kind: RequestKind) -> Option<&'static [u8]> {
    match kind {
        RequestKind::Metrics => Some(UNKNOWN),
        RequestKind::OtherPath => Some(OTHER_PATH),
        RequestKind::OtherMethod => Some(OTHER_METHOD),
        RequestKind::TooLong => Some(TOO_LONG),
        RequestKind::Unreadable => Some(UNREADABLE),
        RequestKind::Incomplete => None,
    }
}

/// Appends the head of a reply that has so many bytes of metrics after it. Where memory runs out, the front of it may be
/// there.
pub fn write_head(out: &mut Vec<u8>, length: usize) -> Result<(), AllocError> {
    out.extend_from_slice(
        b"HTTP/1.0 200 OK\r\nContent-Type: text/plain; version=0.0.4; charset=utf-8\r\nContent-Length: ",
    )?;
    append_decimal(out, length as u64)?;
    out.extend_from_slice(b"\r\nConnection: close\r\n\r\n")
}
