//! What lines mostly begin with, read in one pass: words, numbers, names of connections, and endpoints of IPv4. What is
//! not found here is read elsewhere.
ghost use Rattle.std.specs.Prelude.{◌≡◌, ◌≢◌, ◌↔◌, ◌<◌, ◌^◌, ◌≤◌, ◌++◌, ◌∷◌, codes, length, take, true, IfSome, IfNone, IsTrue};
ghost use Rattle.addr_core.specs.Family.{same_family};
ghost use Rattle.std.specs.Str.{bytes_eq};
ghost use Rattle.text_core.specs.Decimal.{decimal};
ghost use Rattle.addr_core.specs.Dotted.{dotted_text};
ghost use Rattle.addr_core.specs.Text.{endpoint_text, IsEndpoint};
ghost use Rattle.conn_model.specs.HandedIn.{IsId};
ghost use Rattle.event_text.specs.Script.{id_text};

use addr_core::{Addr, Endpoint, Pair};
use conn_model::event::ConnId;
use text_core::decimal::{has_leading_zero, read_decimal};

/// A number of so many digits, and one more, fits in 64 bits.
const MOST_SAFE_DIGITS: usize = 18;

/// Whether a text begins so.
#[inline(always)]
fn begins(text: &[u8], front: &[u8]) -> bool
    ensures { IsTrue result ↔ take (length front.now) text.now ≡ front.now }
{
    if text.len() < front.len() {
        return false;
    }
    for at in 0..front.len() {
        if text[at] != front[at] {
            return false;
        }
    }
    true
}

/// Whether a word is this text.
#[inline(always)]
pub fn is_word(word: &[u8], text: &[u8]) -> bool
    ensures { result ≡ bytes_eq word.now text.now }
{
    word.len() == text.len() && begins(word, text)
}

/// The text after a front, if it begins so.
#[inline(always)]
pub fn after<'a>(text: &'a [u8], front: &[u8]) -> Option<&'a [u8]>
    ensures some { IfSome result (λ rest. text.now ≡ front.now ++ rest.now) }
    ensures none { IfNone result (take (length front.now) text.now ≢ front.now) }
{
    if !begins(text, front) {
        return None;
    }
    Some(&text[front.len()..])
}

/// The number before a mark, and the text after it. A number of more than 18 digits may have none, and one with a fault
/// has none.
pub fn number_before(text: &[u8], mark: u8) -> Option<(u64, &[u8])>
    ensures { IfSome result (λ parts. text.now ≡ decimal parts.0 ++ mark ∷ parts.1.now) }
{
    let mut number = 0u64;
    for at in 0..text.len().min(MOST_SAFE_DIGITS + 1) {
        let byte = text[at];
        if byte == mark {
            if at == 0 || has_leading_zero(&text[..at]) {
                return None;
            }
            return Some((number, &text[at + 1..]));
        }
        if !byte.is_ascii_digit() {
            return None;
        }
        number = number * 10 + u64::from(byte - b'0');
    }
    None
}

/// A number of 16 bits before a mark, and the text after it.
fn short_before(text: &[u8], mark: u8) -> Option<(u16, &[u8])>
    ensures { IfSome result (λ parts. text.now ≡ decimal parts.0 ++ mark ∷ parts.1.now) }
{
    let (number, rest) = number_before(text, mark)?;
    let short = u16::try_from(number).ok()?;
    Some((short, rest))
}

/// A part of an address of IPv4 before a mark, and the text after it.
fn part_before(text: &[u8], mark: u8) -> Option<(u8, &[u8])>
    ensures { IfSome result (λ parts. text.now ≡ decimal parts.0 ++ mark ∷ parts.1.now) }
{
    let (number, rest) = number_before(text, mark)?;
    let part = u8::try_from(number).ok()?;
    Some((part, rest))
}

/// The number of four parts.
fn joined(a: u8, b: u8, c: u8, d: u8) -> u32
    ensures { dotted_text result
        ≡ decimal a ++ 46 ∷ (decimal b ++ 46 ∷ (decimal c ++ 46 ∷ decimal d)) }
{
    ((u32::from(a) * 256 + u32::from(b)) * 256 + u32::from(c)) * 256 + u32::from(d)
}

/// An address of IPv4 before a colon, and the text after it.
fn addr_before(text: &[u8]) -> Option<(u32, &[u8])>
    ensures { IfSome result (λ parts. text.now ≡ dotted_text parts.0 ++ 58 ∷ parts.1.now) }
{
    let (a, rest) = part_before(text, b'.')?;
    let (b, rest) = part_before(rest, b'.')?;
    let (c, rest) = part_before(rest, b'.')?;
    let (d, rest) = part_before(rest, b':')?;
    Some((joined(a, b, c, d), rest))
}

/// An endpoint of IPv4 before a space, and the text after it.
fn endpoint_before(text: &[u8]) -> Option<(Endpoint, &[u8])>
    ensures text { IfSome result (λ parts. text.now ≡ endpoint_text parts.0 ++ 32 ∷ parts.1.now) }
    ensures fits { IfSome result (λ parts. IsEndpoint parts.0) }
{
    let (number, rest) = addr_before(text)?;
    let (port, rest) = short_before(rest, b' ')?;
    let addr = Addr::V4(number);
    Some((Endpoint { addr, port }, rest))
}

/// The endpoint of IPv4 that a text is.
fn endpoint(text: &[u8]) -> Option<Endpoint>
    ensures text { IfSome result (λ endpoint. text.now ≡ endpoint_text endpoint) }
    ensures fits { IfSome result (λ endpoint. IsEndpoint endpoint) }
{
    let (number, rest) = addr_before(text)?;
    let port = read_decimal(rest, u64::from(u16::MAX))?;
    let addr = Addr::V4(number);
    Some(Endpoint {
        addr,
        port: port as u16,
    })
}

/// The pair of two endpoints of IPv4, with a space between them.
pub fn pair(text: &[u8]) -> Option<Pair>
    ensures text { IfSome result (λ real. text.now
        ≡ endpoint_text real.source ++ 32 ∷ endpoint_text real.destination) }
    ensures source { IfSome result (λ real. IsEndpoint real.source) }
    ensures destination { IfSome result (λ real. IsEndpoint real.destination) }
    ensures family { IfSome result (λ real.
        same_family real.source.addr real.destination.addr ≡ true) }
{
    let (source, rest) = endpoint_before(text)?;
    let destination = endpoint(rest)?;
    Pair::of(source, destination)
}

/// The name of a connection before a space, and the text after it.
pub fn id_before(text: &[u8]) -> Option<(ConnId, &[u8])>
    ensures text { IfSome result (λ parts. text.now ≡ id_text parts.0 ++ 32 ∷ parts.1.now) }
    ensures fits { IfSome result (λ parts. IsId parts.0) }
{
    let (frontend, rest) = short_before(text, b'.')?;
    let (serial, rest) = number_before(rest, b' ')?;
    Some((ConnId { frontend, serial }, rest))
}

/// The name of a connection that a text is.
pub fn id(text: &[u8]) -> Option<ConnId>
    ensures text { IfSome result (λ id. text.now ≡ id_text id) }
    ensures fits { IfSome result (λ id. IsId id) }
{
    let (frontend, rest) = short_before(text, b'.')?;
    let serial = read_decimal(rest, u64::MAX)?;
    Some(ConnId { frontend, serial })
}
