//! The first 16 bytes of a header.
ghost use Rattle.std.specs.Prelude.{◌≡◌};
ghost use Rattle.pp_v2.specs.Head.{command_fault, declared, family_fault, head_of, length_fault, pair_length, signature_fault};

use crate::fault::V2Fault;

/// The bytes that a header begins with.
pub const SIGNATURE: [u8; 12] = *b"\r\n\r\n\0\r\nQUIT\n";

/// The most bytes of a pair in a block: two addresses of IPv6 and two ports (proxy-protocol.txt,
/// section 2.2).
pub const MOST_PAIR_BYTES: usize = 36;

/// The family of the addresses that a header declares.
#[derive(Clone, Copy, Debug, PartialEq, Eq)]
pub enum Family {
    V4,
    V6,
}

impl Family {
    /// How many bytes two addresses and two ports take.
    pub fn pair_length(&self) -> u8
        ensures { result ≡ pair_length self.now }
    {
        match *self {
            Family::V4 => 12,
            Family::V6 => MOST_PAIR_BYTES as u8,
        }
    }
}

/// What the first 16 bytes of a header say.
#[derive(Clone, Copy)]
pub struct Head {
    /// The family of the pair at the beginning of the block. Without one the block is skipped, and the
    /// connection's own addresses count: that is so under LOCAL, and under PROXY with a family or a transport
    /// other than TCP over IPv4 or IPv6.
    pub declares: Option<Family>,
    /// How many bytes the block has.
    pub len: u16,
}

fn signature_fault(bytes: &[u8]) -> Option<V2Fault>
    ensures { result ≡ signature_fault bytes.now }
{
    if bytes.starts_with(&SIGNATURE) {
        None
    } else {
        Some(V2Fault::NotProxy)
    }
}

/// What is wrong with the byte of the version and the command, the 13th.
pub fn command_fault(command: u8) -> Option<V2Fault>
    ensures { result ≡ command_fault command }
{
    if command / 16 != 2 {
        Some(V2Fault::BadVersion)
    } else if command % 16 > 1 {
        Some(V2Fault::BadCommand)
    } else {
        None
    }
}

/// What is wrong with the byte of the family and the transport, the 14th, after that of the command.
pub fn family_fault(command: u8, family: u8) -> Option<V2Fault>
    ensures { result ≡ family_fault command family }
{
    if command % 16 == 1 && (family / 16 > 3 || family % 16 > 2) {
        Some(V2Fault::BadFamily)
    } else {
        None
    }
}

fn declared(command: u8, family: u8) -> Option<Family>
    ensures { result ≡ declared command family }
{
    if command % 16 != 1 {
        return None;
    }
    match family {
        0x11 => Some(Family::V4),
        0x21 => Some(Family::V6),
        _ => None,
    }
}

fn length_fault(declares: Option<Family>, len: u16) -> Option<V2Fault>
    ensures { result ≡ length_fault declares len }
{
    match declares {
        Some(family) if len < u16::from(family.pair_length()) => Some(V2Fault::ShortBlock),
        Some(_) => None,
        None => None,
    }
}

/// Reads the first 16 bytes of a header.
pub fn read_head(bytes: &[u8; 16]) -> Result<Head, V2Fault>
    ensures { result ≡ head_of bytes.now }
{
    if let Some(fault) = signature_fault(bytes) {
        return Err(fault);
    }
    if let Some(fault) = command_fault(bytes[12]) {
        return Err(fault);
    }
    if let Some(fault) = family_fault(bytes[12], bytes[13]) {
        return Err(fault);
    }
    let head = Head {
        declares: declared(bytes[12], bytes[13]),
        len: u16::from_be_bytes([bytes[14], bytes[15]]),
    };
    if let Some(fault) = length_fault(head.declares, head.len) {
        return Err(fault);
    }
    Ok(head)
}
