//! Reading a line.
ghost use Rattle.std.specs.Prelude.{◌≡◌, ◌∷◌, []};
ghost use Rattle.std.specs.List.{slice_split};
ghost use Rattle.std.specs.Option.{option_copied};
ghost use Rattle.std.specs.Str.{bytes_eq};
ghost use Rattle.pp_v1.specs.Line.{address_of, between, declared, fields_of, is_blank, line_meaning, port_of, says, text_meaning, IsLine};

use crate::meaning::Meaning;
use addr_core::{Addr, Endpoint, Pair, read_addr};
use text_core::cut_at;
use text_core::decimal::read_decimal;

/// Why a line is no header of version 1 (proxy-protocol.txt, section 2.1). Where several hold of one line, it is
/// the first of them in this order.
#[derive(Clone, Copy)]
pub enum V1Fault {
    /// It has another protocol than `TCP4`, `TCP6` or `UNKNOWN`, or not four fields after `TCP4` or `TCP6`, or
    /// an empty one.
    BadLine,
    /// One of the first two fields is no address of the protocol's family.
    BadAddress,
    /// One of the last two fields is no decimal number from 0 to 65535 without leading zeros.
    BadPort,
}

/// The protocol of a line that declares a pair.
#[derive(Clone, Copy)]
enum Protocol {
    Tcp4,
    Tcp6,
}

/// The address of a field, of the family of the protocol.
fn address(protocol: Protocol, field: &[u8]) -> Result<Addr, V1Fault>
    ensures { result ≡ address_of protocol field.now }
{
    match (protocol, read_addr(field)) {
        (Protocol::Tcp4, Ok(Addr::V4(number))) => Ok(Addr::V4(number)),
        (Protocol::Tcp6, Ok(Addr::V6(number))) => Ok(Addr::V6(number)),
        (Protocol::Tcp4, Ok(Addr::V6(_))) => Err(V1Fault::BadAddress),
        (Protocol::Tcp6, Ok(Addr::V4(_))) => Err(V1Fault::BadAddress),
        (Protocol::Tcp4, Err(_)) => Err(V1Fault::BadAddress),
        (Protocol::Tcp6, Err(_)) => Err(V1Fault::BadAddress),
    }
}

fn port(field: &[u8]) -> Result<u16, V1Fault>
    ensures { result ≡ port_of field.now }
{
    match read_decimal(field, u64::from(u16::MAX)) {
        Some(number) => Ok(number as u16),
        None => Err(V1Fault::BadPort),
    }
}

/// The pair of four fields.
fn declared(protocol: Protocol, a: &[u8], b: &[u8], c: &[u8], d: &[u8]) -> Result<Meaning, V1Fault>
    ensures { result ≡ declared protocol a.now b.now c.now d.now }
{
    let from = address(protocol, a)?;
    let to = address(protocol, b)?;
    let first = port(c)?;
    let second = port(d)?;
    let source = Endpoint {
        addr: from,
        port: first,
    };
    let destination = Endpoint {
        addr: to,
        port: second,
    };
    match Pair::of(source, destination) {
        Some(pair) => Ok(Meaning::Declared(pair)),
        None => Err(V1Fault::BadAddress),
    }
}

fn four_fields(
    protocol: Protocol,
    a: &[u8],
    b: &[u8],
    c: &[u8],
    d: &[u8],
) -> Result<Meaning, V1Fault>
    ensures { result ≡ fields_of protocol (a.now ∷ b.now ∷ c.now ∷ d.now ∷ []) }
{
    if a.is_empty() || b.is_empty() || c.is_empty() || d.is_empty() {
        return Err(V1Fault::BadLine);
    }
    declared(protocol, a, b, c, d)
}

/// What the fields after the protocol declare.
fn fields(protocol: Protocol, text: &[u8]) -> Result<Meaning, V1Fault>
    ensures { result ≡ fields_of protocol (slice_split is_blank text.now) }
{
    let Some((a, rest)) = cut_at(text, b' ') else {
        return Err(V1Fault::BadLine);
    };
    let Some((b, rest)) = cut_at(rest, b' ') else {
        return Err(V1Fault::BadLine);
    };
    let Some((c, d)) = cut_at(rest, b' ') else {
        return Err(V1Fault::BadLine);
    };
    match cut_at(d, b' ') {
        Some(_) => Err(V1Fault::BadLine),
        None => four_fields(protocol, a, b, c, d),
    }
}

fn is(word: &[u8], name: &[u8]) -> bool
    ensures { result ≡ bytes_eq word.now name.now }
{
    word == name
}

/// What a word says that no other follows.
fn alone(word: &[u8]) -> Result<Meaning, V1Fault>
    ensures { result ≡ says (word.now ∷ []) }
{
    if is(word, b"UNKNOWN") {
        return Ok(Meaning::Real);
    }
    Err(V1Fault::BadLine)
}

/// What a word and the text after it say.
fn followed(word: &[u8], text: &[u8]) -> Result<Meaning, V1Fault>
    ensures { result ≡ says (word.now ∷ slice_split is_blank text.now) }
{
    if is(word, b"UNKNOWN") {
        return Ok(Meaning::Real);
    }
    if is(word, b"TCP4") {
        return fields(Protocol::Tcp4, text);
    }
    if is(word, b"TCP6") {
        return fields(Protocol::Tcp6, text);
    }
    Err(V1Fault::BadLine)
}

fn text_meaning(text: &[u8]) -> Result<Meaning, V1Fault>
    ensures { result ≡ text_meaning text.now }
{
    match cut_at(text, b' ') {
        Some((word, rest)) => followed(word, rest),
        None => alone(text),
    }
}

/// The text between `PROXY ` and the end of the line.
fn between(line: &[u8]) -> Option<&[u8]>
    ensures { option_copied result ≡ between line.now }
{
    line.strip_prefix(b"PROXY ")?.strip_suffix(b"\r\n")
}

/// What a line of version 1 says (proxy-protocol.txt, section 2.1): all bytes up to the first CR LF, which
/// belongs to it, and `LINE_LIMIT` of them at most. After `UNKNOWN` and a space anything may follow.
pub fn read_line(line: &[u8]) -> Result<Meaning, V1Fault>
    requires { IsLine line.now }
    ensures { result ≡ line_meaning line.now }
{
    match between(line) {
        Some(text) => text_meaning(text),
        None => Err(V1Fault::BadLine),
    }
}
