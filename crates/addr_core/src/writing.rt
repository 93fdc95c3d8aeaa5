//! Writing addresses and endpoints.
ghost use Rattle.std.specs.Prelude.{◌≡◌, ◌+◌, ◌^◌, ◌<◌, ◌≤◌, ◌∷◌, ◌++◌, [], length, Ok};
ghost use Rattle.text_core.specs.Decimal.{decimal};
ghost use Rattle.addr_core.specs.Dotted.{dotted_text};
ghost use Rattle.addr_core.specs.Groups.{groups_of, groups_text};
ghost use Rattle.addr_core.specs.Text.{addr_of, endpoint_of, endpoint_text, host_text, text_limit, text_of, IsAddr, IsEndpoint};

use crate::addr::{Addr, Endpoint, MOST_ADDR_BYTES, MOST_ENDPOINT_BYTES};
use crate::groups::{groups_of, write_groups};
use arrayvec::ArrayString;
use text_core::decimal::push_decimal;

fn push_octet(text: &mut ArrayString<MOST_ADDR_BYTES>, octet: u8)
    requires { length text.old.bytes + 3 ≤ MOST_ADDR_BYTES }
    ensures bytes { text.new.bytes ≡ text.old.bytes ++ decimal octet }
    ensures room { length text.new.bytes ≤ length text.old.bytes + 3 }
{
    push_decimal(text, u64::from(octet));
}

fn push_dot(text: &mut ArrayString<MOST_ADDR_BYTES>)
    requires { length text.old.bytes < MOST_ADDR_BYTES }
    ensures bytes { text.new.bytes ≡ text.old.bytes ++ 46 ∷ [] }
    ensures room { length text.new.bytes ≡ length text.old.bytes + 1 }
{
    text.push('.');
}

fn dotted(number: u32) -> ArrayString<MOST_ADDR_BYTES>
    ensures text { result.bytes ≡ dotted_text number }
    ensures number { number < 2 ^ 32 }
    ensures length { length result.bytes ≤ 15 }
{
    let mut text = ArrayString::new();
    push_octet(&mut text, (number >> 24) as u8);
    push_dot(&mut text);
    push_octet(&mut text, ((number >> 16) % 256) as u8);
    push_dot(&mut text);
    push_octet(&mut text, ((number >> 8) % 256) as u8);
    push_dot(&mut text);
    push_octet(&mut text, (number % 256) as u8);
    text
}

/// The text of an IPv6 address.
fn six(number: u128) -> ArrayString<MOST_ADDR_BYTES>
    ensures text { result.bytes ≡ groups_text (groups_of number) }
    ensures number { number < 2 ^ 128 }
    ensures length { length result.bytes ≤ MOST_ADDR_BYTES }
{
    write_groups(&groups_of(number))
}

fn addr_text(addr: &Addr) -> ArrayString<MOST_ADDR_BYTES>
    ensures text { result.bytes ≡ text_of addr.now }
    ensures in_range { IsAddr addr.now }
    ensures length { length result.bytes ≤ text_limit addr.now }
{
    match *addr {
        Addr::V4(number) => dotted(number),
        Addr::V6(number) => six(number),
    }
}

/// The address as text: an IPv4 address in dotted decimal, as `127.0.0.1`, an IPv6 address by RFC
/// 5952, section 4, as `2001:db8::1`.
pub fn write_addr(addr: &Addr) -> ArrayString<MOST_ADDR_BYTES>
    ensures text { result.bytes ≡ text_of addr.now }
    ensures length { length result.bytes ≤ text_limit addr.now }

    // What is written is read again.
    ensures read_again { addr_of result.bytes ≡ Ok addr.now }
    ensures in_range { IsAddr addr.now }
{
    addr_text(addr)
}

fn push_port(text: &mut ArrayString<MOST_ENDPOINT_BYTES>, port: u16)
    requires { length text.old.bytes + 6 ≤ MOST_ENDPOINT_BYTES }
    ensures text { text.new.bytes ≡ text.old.bytes ++ 58 ∷ decimal port }
    ensures port { port < 2 ^ 16 }
{
    text.push(':');
    push_decimal(text, u64::from(port));
}

fn host_text(addr: &Addr) -> ArrayString<MOST_ENDPOINT_BYTES>
    ensures text { result.bytes ≡ host_text addr.now }
    ensures room { length result.bytes ≤ 41 }
    ensures in_range { IsAddr addr.now }
{
    let bare = addr_text(addr);
    let mut text = ArrayString::new();
    match addr {
        Addr::V4(_) => {
            text.push_str(bare.as_str());
            text
        }
        Addr::V6(_) => {
            text.push('[');
            text.push_str(bare.as_str());
            text.push(']');
            text
        }
    }
}

fn endpoint_text(endpoint: &Endpoint) -> ArrayString<MOST_ENDPOINT_BYTES>
    ensures text { result.bytes ≡ endpoint_text endpoint.now }
    ensures in_range { IsEndpoint endpoint.now }
{
    let mut text = host_text(&endpoint.addr);
    push_port(&mut text, endpoint.port);
    text
}

/// The endpoint as text: the address, a colon and the port, as `127.0.0.1:80`. An IPv6 address is in
/// brackets, as in `[2001:db8::1]:80` (RFC 5952, section 6).
pub fn write_endpoint(endpoint: &Endpoint) -> ArrayString<MOST_ENDPOINT_BYTES>
    ensures text { result.bytes ≡ endpoint_text endpoint.now }

    // What is written is read again.
    ensures read_again { endpoint_of result.bytes ≡ Ok endpoint.now }
{
    endpoint_text(endpoint)
}
