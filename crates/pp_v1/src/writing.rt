//! Writing a line.
ghost use Rattle.std.specs.Prelude.{◌≡◌, ◌+◌, ◌^◌, ◌<◌, ◌≤◌, ◌∷◌, ◌++◌, codes, length, Ok};
ghost use Rattle.std.specs.List.{join_with_byte};
ghost use Rattle.text_core.specs.Decimal.{decimal};
ghost use Rattle.addr_core.specs.Text.{text_limit, text_of, IsAddr};
ghost use Rattle.pp_v1.specs.Line.{line_limit, line_meaning, line_of, line_words, protocol_text, IsPair};
ghost use Rattle.pp_v1.specs.declared.meaning.Meaning.TheVariants.{Declared};

use crate::LINE_LIMIT;
use addr_core::{Addr, Pair, write_addr};
use arrayvec::ArrayVec;
use text_core::decimal::write_decimal;

/// Appends the bytes. There must be room.
fn push(line: &mut ArrayVec<u8, LINE_LIMIT>, bytes: &[u8])
    requires { length line.old.items + length bytes.now ≤ LINE_LIMIT }
    ensures { line.new.items ≡ line.old.items ++ bytes.now }
{
    match line.try_extend_from_slice(bytes) {
        Ok(()) => {}
        Err(_) => {}
    }
}

fn push_protocol(line: &mut ArrayVec<u8, LINE_LIMIT>, addr: &Addr)
    requires { length line.old.items + 4 ≤ LINE_LIMIT }
    ensures items { line.new.items ≡ line.old.items ++ protocol_text addr.now }
    ensures length { length line.new.items ≡ length line.old.items + 4 }
{
    match addr {
        Addr::V4(_) => push(line, b"TCP4"),
        Addr::V6(_) => push(line, b"TCP6"),
    }
}

/// Appends a space and an address.
fn push_addr(line: &mut ArrayVec<u8, LINE_LIMIT>, addr: &Addr)
    requires { length line.old.items + 40 ≤ LINE_LIMIT }
    ensures items { line.new.items ≡ line.old.items ++ 32 ∷ text_of addr.now }
    ensures length { length line.new.items ≤ length line.old.items + 1 + text_limit addr.now }
    ensures in_range { IsAddr addr.now }
{
    let text = write_addr(addr);
    push(line, b" ");
    push(line, text.as_str().as_bytes());
}

/// Appends a space and a port.
fn push_port(line: &mut ArrayVec<u8, LINE_LIMIT>, port: u16)
    requires { length line.old.items + 6 ≤ LINE_LIMIT }
    ensures items { line.new.items ≡ line.old.items ++ 32 ∷ decimal port }
    ensures length { length line.new.items ≤ length line.old.items + 6 }
    ensures in_range { port < 2 ^ 16 }
{
    let text = write_decimal(u64::from(port));
    push(line, b" ");
    push(line, text.as_str().as_bytes());
}

/// The line without its end.
fn body(pair: &Pair) -> ArrayVec<u8, LINE_LIMIT>
    ensures items { result.items ≡ codes "PROXY " ++ join_with_byte 32 (line_words pair.now) }
    ensures length { length result.items + 2 ≤ line_limit pair.now.source.addr }
    ensures in_range { IsPair pair.now }
{
    let source = pair.source();
    let destination = pair.destination();
    let mut line = ArrayVec::new();
    push(&mut line, b"PROXY ");
    push_protocol(&mut line, &source.addr);
    push_addr(&mut line, &source.addr);
    push_addr(&mut line, &destination.addr);
    push_port(&mut line, source.port);
    push_port(&mut line, destination.port);
    line
}

fn line_text(pair: &Pair) -> ArrayVec<u8, LINE_LIMIT>
    ensures line { result.items ≡ line_of pair.now }
    ensures length { length result.items ≤ line_limit pair.now.source.addr }
    ensures in_range { IsPair pair.now }
{
    let mut line = body(pair);
    push(&mut line, b"\r\n");
    line
}

/// The line that declares the pair, CR LF included: at most 56 bytes for `TCP4`, 104 for `TCP6`
/// (proxy-protocol.txt, section 2.1). An IPv6 address has the form of RFC 5952, section 4.
pub fn write_v1(pair: &Pair) -> ArrayVec<u8, LINE_LIMIT>
    ensures line { result.items ≡ line_of pair.now }
    ensures length { length result.items ≤ line_limit pair.now.source.addr }

    // What is written is read again.
    ensures read_again { line_meaning result.items ≡ Ok (Declared pair.now) }
{
    line_text(pair)
}
