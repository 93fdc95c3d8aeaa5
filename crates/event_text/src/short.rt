//! Short forms: what most lines have, numbers of five digits at most and addresses of IPv4. Each is put together in a block,
//! and appended at once. A line with anything else is written part by part (`replies`).
ghost use Rattle.std.specs.Prelude.{◌≡◌, ◌+◌, ◌≤◌, ◌<◌, ◌^◌, ◌++◌, length, codes, IfSome, IsTrue, OnOk};
ghost use Rattle.text_core.specs.Decimal.{decimal};
ghost use Rattle.addr_core.specs.declared.addr.Addr.TheVariants.{V4};
ghost use Rattle.addr_core.specs.Text.{endpoint_text, text_of};
ghost use Rattle.event_text.specs.Script.{id_text};
ghost use Rattle.event_text.specs.Replies.{track_text};

use addr_core::{Addr, Endpoint};
use arrayvec::ArrayVec;
use conn_model::event::ConnId;
use plan_types::Track;
use std::alloc::{AllocError, Global};
use text_core::decimal::push_short;

/// Room for the front of a line, with five bytes for each of its numbers.
const BLOCK_BYTES: usize = 64;

/// The same of an offer, up to the bytes that are sent.
const OFFER_BYTES: usize = 160;

/// The same of an accept, whose listener and endpoints these are.
const ACCEPT_BYTES: usize = 80;

/// How many bytes a word in a block has at most.
pub const MOST_WORD_BYTES: usize = 16;

/// Numbers below this have five digits at most.
const FEW: u64 = 0x1_0000;

/// An address of IPv4, and a port.
pub type ShortPlace = (u32, u16);

/// Whether a number has a short form.
pub fn is_short(number: u64) -> bool
    ensures { IsTrue result → number < 2 ^ 16 }
{
    number < FEW
}

/// The short form of an endpoint, if it has one.
pub fn short_place(endpoint: &Endpoint) -> Option<ShortPlace>
    ensures { IfSome result
        (λ place. (endpoint.now.addr ≡ V4 place.0) × (endpoint.now.port ≡ place.1)) }
{
    match endpoint.addr {
        Addr::V4(number) => Some((number, endpoint.port)),
        Addr::V6(_) => None,
    }
}

/// Appends a word. There must be room.
fn push_word<const CAP: usize>(text: &mut ArrayVec<u8, CAP>, word: &[u8])
    requires { length text.old.items + length word.now ≤ CAP }
    ensures { text.new.items ≡ text.old.items ++ word.now }
{
    for byte in word {
        text.push(*byte);
    }
}

/// Appends an IPv4 address in dotted decimal. There must be room for five bytes for each of its numbers.
fn push_dotted<const CAP: usize>(text: &mut ArrayVec<u8, CAP>, number: u32)
    requires { length text.old.items + 23 ≤ CAP }
    ensures text { text.new.items ≡ text.old.items ++ text_of (V4 number) }
    ensures fits { length text.new.items ≤ length text.old.items + 23 }
{
    push_short(text, (number / 0x100_0000) as u16);
    text.push(b'.');
    push_short(text, (number / 0x1_0000 % 0x100) as u16);
    text.push(b'.');
    push_short(text, (number / 0x100 % 0x100) as u16);
    text.push(b'.');
    push_short(text, (number % 0x100) as u16);
}

/// Appends a word, an IPv4 address after it, and a port. There must be room.
fn push_place<const CAP: usize>(text: &mut ArrayVec<u8, CAP>, name: &[u8], number: u32, port: u16)
    requires { length text.old.items + length name.now + 29 ≤ CAP }
    ensures text { text.new.items
        ≡ text.old.items ++ (name.now ++ text_of (V4 number) ++ codes ":" ++ decimal port) }
    ensures fits { length text.new.items ≤ length text.old.items + length name.now + 29 }
{
    push_word(text, name);
    push_dotted(text, number);
    text.push(b':');
    push_short(text, port);
}

/// Appends the name of a connection. There must be room.
fn push_id<const CAP: usize>(text: &mut ArrayVec<u8, CAP>, frontend: u16, serial: u16)
    requires { length text.old.items + 11 ≤ CAP }
    ensures text { text.new.items
        ≡ text.old.items ++ (decimal frontend ++ codes "." ++ decimal serial) }
    ensures fits { length text.new.items ≤ length text.old.items + 11 }
{
    push_short(text, frontend);
    text.push(b'.');
    push_short(text, serial);
}

/// An IPv4 address.
pub fn write_short_addr(out: &mut Vec<u8>, number: u32) -> Result<(), AllocError>
    ensures { OnOk result (out.new.items ≡ out.old.items ++ text_of (V4 number)) }
{
    let mut text: ArrayVec<u8, BLOCK_BYTES> = ArrayVec::new();
    push_dotted(&mut text, number);
    out.extend_from_slice(text.as_slice())
}

/// A word, an IPv4 address after it, and a port.
pub fn write_short_place(
    out: &mut Vec<u8>,
    name: &[u8],
    number: u32,
    port: u16,
) -> Result<(), AllocError>
    requires { length name.now ≤ MOST_WORD_BYTES }
    ensures { OnOk result (out.new.items
        ≡ out.old.items ++ (name.now ++ text_of (V4 number) ++ codes ":" ++ decimal port)) }
{
    let mut text: ArrayVec<u8, BLOCK_BYTES> = ArrayVec::new();
    push_place(&mut text, name, number, port);
    out.extend_from_slice(text.as_slice())
}

/// A word, and the name of a connection after it.
pub fn write_short_named(out: &mut Vec<u8>, name: &[u8], id: &ConnId) -> Result<(), AllocError>
    requires word { length name.now ≤ MOST_WORD_BYTES }
    requires serial { id.now.serial < 2 ^ 16 }
    ensures { OnOk result (out.new.items ≡ out.old.items ++ (name.now ++ id_text id.now)) }
{
    let mut text: ArrayVec<u8, BLOCK_BYTES> = ArrayVec::new();
    push_word(&mut text, name);
    push_id(&mut text, id.frontend, id.serial as u16);
    out.extend_from_slice(text.as_slice())
}

/// A word, the name of a connection, and a word after it.
pub fn write_short_ended(
    out: &mut Vec<u8>,
    name: &[u8],
    id: &ConnId,
    why: &[u8],
) -> Result<(), AllocError>
    requires word { length name.now ≤ MOST_WORD_BYTES }
    requires why { length why.now ≤ MOST_WORD_BYTES }
    requires serial { id.now.serial < 2 ^ 16 }
    ensures { OnOk result (out.new.items
        ≡ out.old.items ++ (name.now ++ id_text id.now ++ codes " " ++ why.now)) }
{
    let mut text: ArrayVec<u8, BLOCK_BYTES> = ArrayVec::new();
    push_word(&mut text, name);
    push_id(&mut text, id.frontend, id.serial as u16);
    text.push(b' ');
    push_word(&mut text, why);
    out.extend_from_slice(text.as_slice())
}

/// The listener of an accept, the client and the local end of its connection.
pub fn write_short_accept(
    out: &mut Vec<u8>,
    listener: u16,
    from: ShortPlace,
    to: ShortPlace,
) -> Result<(), AllocError>
    ensures { OnOk result (out.new.items ≡ out.old.items ++ (codes " accept " ++ decimal listener
        ++ codes " " ++ (text_of (V4 from.0) ++ codes ":" ++ decimal from.1)
        ++ codes " " ++ (text_of (V4 to.0) ++ codes ":" ++ decimal to.1))) }
{
    let mut text: ArrayVec<u8, ACCEPT_BYTES> = ArrayVec::new();
    push_word(&mut text, b" accept ");
    push_short(&mut text, listener);
    push_place(&mut text, b" ", from.0, from.1);
    push_place(&mut text, b" ", to.0, to.1);
    out.extend_from_slice(text.as_slice())
}

/// Appends the front of the line of an offer. There must be room.
fn push_given<const CAP: usize>(text: &mut ArrayVec<u8, CAP>, id: &ConnId, used: u16, line: u16)
    requires serial { id.now.serial < 2 ^ 16 }
    requires room { length text.old.items + 40 ≤ CAP }
    ensures text { text.new.items ≡ text.old.items
        ++ (codes "offer " ++ id_text id.now
        ++ codes " used " ++ decimal used ++ codes " line " ++ decimal line) }
    ensures fits { length text.new.items ≤ length text.old.items + 40 }
{
    push_word(text, b"offer ");
    push_id(text, id.frontend, id.serial as u16);
    push_word(text, b" used ");
    push_short(text, used);
    push_word(text, b" line ");
    push_short(text, line);
}

/// The line of an offer up to the bytes that are sent.
pub fn write_short_offer(
    out: &mut Vec<u8>,
    id: &ConnId,
    used: u16,
    line: u16,
    to: ShortPlace,
    source: ShortPlace,
    destination: ShortPlace,
) -> Result<(), AllocError>
    requires { id.now.serial < 2 ^ 16 }
    ensures { OnOk result (out.new.items ≡ out.old.items
        ++ (codes "offer " ++ id_text id.now
        ++ codes " used " ++ decimal used ++ codes " line " ++ decimal line
        ++ codes " to " ++ (text_of (V4 to.0) ++ codes ":" ++ decimal to.1)
        ++ codes " src " ++ (text_of (V4 source.0) ++ codes ":" ++ decimal source.1)
        ++ codes " dst " ++ (text_of (V4 destination.0) ++ codes ":" ++ decimal destination.1)
        ++ codes " send ")) }
{
    let mut text: ArrayVec<u8, OFFER_BYTES> = ArrayVec::new();
    push_given(&mut text, id, used, line);
    push_place(&mut text, b" to ", to.0, to.1);
    push_place(&mut text, b" src ", source.0, source.1);
    push_place(&mut text, b" dst ", destination.0, destination.1);
    push_word(&mut text, b" send ");
    out.extend_from_slice(text.as_slice())
}

/// What a counter tracks under an IPv4 address, in a version whose number is short.
pub fn write_short_track(
    out: &mut Vec<u8>,
    track: &Track,
    version: u16,
    number: u32,
) -> Result<(), AllocError>
    requires version { track.now.table.version ≡ version }
    requires key { track.now.key ≡ V4 number }
    ensures { OnOk result (out.new.items ≡ out.old.items ++ track_text track.now) }
{
    let mut text: ArrayVec<u8, BLOCK_BYTES> = ArrayVec::new();
    push_word(&mut text, b" sc");
    push_short(&mut text, u16::from(track.counter));
    text.push(b'=');
    push_short(&mut text, version);
    text.push(b'.');
    push_short(&mut text, track.table.position);
    text.push(b'/');
    push_dotted(&mut text, number);
    out.extend_from_slice(text.as_slice())
}
