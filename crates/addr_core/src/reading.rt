//! Reading addresses, endpoints and networks.
ghost use Rattle.std.specs.Prelude.{◌≡◌, ◌+◌, ◌*◌, ◌<◌, ◌↔◌, ◌∷◌, [], Ok};
ghost use Rattle.std.specs.List.{list_any, slice_split};
ghost use Rattle.text_core.specs.Cut.{cut};
ghost use Rattle.addr_core.specs.Dotted.{dotted_of, four_of, is_colon, is_dot, octet_of};
ghost use Rattle.addr_core.specs.Text.{addr_of, bare_of, bracketed_of, endpoint_of, in_brackets, net_in, net_of, with_bits, with_port, IsAddr, IsEndpoint, IsEndpointText, IsNet, IsNetText, IsText};

use crate::addr::{Addr, Endpoint};
use crate::net::Net;
use crate::six::six;
use text_core::decimal::{are_digits, has_leading_zero, number_up_to, read_decimal};
use text_core::{cut, cut_at};

/// Why a text is no address, endpoint or network (RFC 3986, section 3.2.2; RFC 4291, section 2.2; RFC
/// 4632, section 3.1). Of an address it is the fault of its first part that has one; the address comes before
/// the port and the bits.
#[derive(Clone, Copy, Debug, PartialEq, Eq)]
pub enum AddrFault {
    /// There is no character in the place of an address.
    Empty,
    /// A part of an IPv4 address has a character that is no decimal digit, or an IPv6 address has one
    /// that is no hexadecimal digit, colon or dot.
    BadDigit,
    /// A part of an IPv4 address has a 0 before another digit.
    LeadingZero,
    /// A part of an IPv4 address is above 255, or a group of an IPv6 address has more than four digits.
    OutOfRange,
    /// The address has not the parts or groups of its family.
    BadGroups,
    /// The bits of a network are no decimal number up to the width of its family.
    BadPrefix,
    /// The port is no decimal number from 0 to 65535, or there is none.
    BadPort,
}

fn has_colon(text: &[u8]) -> bool
    ensures { result ≡ list_any is_colon text.now }
{
    text.contains(&b':')
}

/// The number of a part of an IPv4 address, or the first of its faults in their order.
fn octet_or_fault(part: &[u8]) -> Result<u8, AddrFault>
    ensures { result ≡ octet_of part.now }
{
    if !are_digits(part) {
        return Err(AddrFault::BadDigit);
    }
    if has_leading_zero(part) {
        return Err(AddrFault::LeadingZero);
    }
    match number_up_to(part, 255) {
        Some(number) => Ok(number as u8),
        None => Err(AddrFault::OutOfRange),
    }
}

/// The same, where a part that has no fault is read in one pass.
fn octet(part: &[u8]) -> Result<u8, AddrFault>
    ensures { result ≡ octet_of part.now }
{
    match read_decimal(part, 255) {
        Some(number) => Ok(number as u8),
        None => octet_or_fault(part),
    }
}

fn four(a: &[u8], b: &[u8], c: &[u8], d: &[u8]) -> Result<u32, AddrFault>
    ensures { result ≡ four_of a.now b.now c.now d.now }
{
    let a = u32::from(octet(a)?);
    let b = u32::from(octet(b)?);
    let c = u32::from(octet(c)?);
    let d = u32::from(octet(d)?);
    Ok(((a * 256 + b) * 256 + c) * 256 + d)
}

fn four_parts(a: &[u8], b: &[u8], c: &[u8], d: &[u8]) -> Result<u32, AddrFault>
    ensures { result ≡ dotted_of (a.now ∷ b.now ∷ c.now ∷ d.now ∷ []) }
{
    if a.is_empty() || b.is_empty() || c.is_empty() || d.is_empty() {
        return Err(AddrFault::BadGroups);
    }
    four(a, b, c, d)
}

/// The number of an IPv4 address in dotted decimal.
pub(crate) fn dotted(text: &[u8]) -> Result<u32, AddrFault>
    ensures { result ≡ dotted_of (slice_split is_dot text.now) }
{
    let Some((a, rest)) = cut_at(text, b'.') else {
        return Err(AddrFault::BadGroups);
    };
    let Some((b, rest)) = cut_at(rest, b'.') else {
        return Err(AddrFault::BadGroups);
    };
    let Some((c, d)) = cut_at(rest, b'.') else {
        return Err(AddrFault::BadGroups);
    };
    match cut_at(d, b'.') {
        Some(_) => Err(AddrFault::BadGroups),
        None => four_parts(a, b, c, d),
    }
}

fn addr_in(text: &[u8]) -> Result<Addr, AddrFault>
    ensures { result ≡ addr_of text.now }
{
    if text.is_empty() {
        return Err(AddrFault::Empty);
    }
    if has_colon(text) {
        let number = six(text)?;
        return Ok(Addr::V6(number));
    }
    let number = dotted(text)?;
    Ok(Addr::V4(number))
}

fn with_port(text: &[u8], addr: Addr) -> Result<Endpoint, AddrFault>
    ensures { result ≡ with_port text.now addr }
{
    match read_decimal(text, u64::from(u16::MAX)) {
        Some(port) => Ok(Endpoint {
            addr,
            port: port as u16,
        }),
        None => Err(AddrFault::BadPort),
    }
}

fn in_brackets(addr: Addr) -> Result<Addr, AddrFault>
    ensures { result ≡ in_brackets addr }
{
    match addr {
        Addr::V4(_) => Err(AddrFault::BadGroups),
        Addr::V6(_) => Ok(addr),
    }
}

fn bracketed(text: &[u8]) -> Result<Endpoint, AddrFault>
    ensures { result ≡ bracketed_of (cut (93 ∷ 58 ∷ []) text.now) }
{
    let Some((addr, port)) = cut(text, b"]:") else {
        return Err(AddrFault::BadPort);
    };
    with_port(port, in_brackets(addr_in(addr)?)?)
}

fn bare(text: &[u8]) -> Result<Endpoint, AddrFault>
    ensures { result ≡ bare_of (cut (58 ∷ []) text.now) }
{
    let Some((addr, port)) = cut_at(text, b':') else {
        return Err(AddrFault::BadPort);
    };
    with_port(port, addr_in(addr)?)
}

fn endpoint_in(text: &[u8]) -> Result<Endpoint, AddrFault>
    ensures { result ≡ endpoint_of text.now }
{
    if text.is_empty() {
        return Err(AddrFault::Empty);
    }
    if text[0] == b'[' {
        return bracketed(&text[1..]);
    }
    bare(text)
}

fn with_bits(text: &[u8], addr: Addr) -> Result<Net, AddrFault>
    ensures { result ≡ with_bits text.now addr }
{
    match read_decimal(text, u64::from(addr.width())) {
        Some(bits) => Ok(Net::of(addr, bits as u8)),
        None => Err(AddrFault::BadPrefix),
    }
}

fn net_in(text: &[u8]) -> Result<Net, AddrFault>
    ensures { result ≡ net_of text.now }
{
    match cut_at(text, b'/') {
        Some((addr, bits)) => with_bits(bits, addr_in(addr)?),
        None => {
            let addr = addr_in(text)?;
            Ok(Net::of(addr, addr.width()))
        }
    }
}

/// The address of a text. Of IPv4 it is in dotted decimal, as `127.0.0.1`: the rule `IPv4address` of RFC
/// 3986, section 3.2.2. No part has a 0 before another digit, which some readers take for octal. Of
/// IPv6 it has a form of RFC 4291, section 2.2, as `2001:db8::1` or `::ffff:192.0.2.1`.
pub fn read_addr(text: &[u8]) -> Result<Addr, AddrFault>
    ensures exact { result ≡ addr_of text.now }

    // An address is read of its own texts, and of no other.
    ensures own_texts { (addr : Addr) → IsAddr addr → (result ≡ Ok addr) ↔ IsText text.now addr }
{
    addr_in(text)
}

/// The endpoint of a text as `127.0.0.1:80`, the form of an address with its port in HAProxy's keywords
/// `bind` and `server`. An address of IPv6 is in brackets (RFC 3986, section 3.2.2).
pub fn read_endpoint(text: &[u8]) -> Result<Endpoint, AddrFault>
    ensures exact { result ≡ endpoint_of text.now }

    // An endpoint is read of its own texts, and of no other.
    ensures own_texts { (endpoint : Endpoint) → IsEndpoint endpoint →
        (result ≡ Ok endpoint) ↔ IsEndpointText text.now endpoint }
{
    endpoint_in(text)
}

/// The network of a text as `10.0.0.0/8` or `2001:db8::/32` (RFC 4632, section 3.1; RFC 4291, section 2.3), or of one
/// address, as a value of HAProxy's `src`.
pub fn read_net(text: &[u8]) -> Result<Net, AddrFault>
    ensures exact { result ≡ net_of text.now }

    // A network is read of its own texts, and of no other.
    ensures own_texts { (net : Net) → IsNet net → (result ≡ Ok net) ↔ IsNetText text.now net }
{
    net_in(text)
}
