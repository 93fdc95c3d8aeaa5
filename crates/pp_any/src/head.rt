//! The first 16 bytes of version 2.
ghost use Rattle.std.specs.Prelude.{◌≡◌, ◌<◌, ◌≤◌, ℕ, List, [], ◌∷◌, ◌++◌, length, take};
ghost use Rattle.pp_any.specs.Status.{early_fault};
ghost use Rattle.pp_any.specs.Rest.{Fits, IsInHead, IsWholeHead, IsAtBlock};
ghost use Rattle.pp_any.specs.Fed.{Answers, used_in};

use crate::block::Block;
use crate::fault::HeaderFault;
use crate::fed::Fed;
use crate::parser::Parser;
use crate::skip::Skip;
use crate::state::State;
use arrayvec::ArrayVec;
use pp_v1::Meaning;
use pp_v2::{SIGNATURE, V2Fault, command_fault, family_fault, read_head};

/// The bytes that were read of the first 16.
#[derive(Drop)]
pub struct HeaderStart {
    pub bytes: ArrayVec<u8, 16>,
}

/// The fault that the last of these bytes makes certain. They are fewer than 16.
fn fault_at_last(bytes: &[u8]) -> Option<V2Fault>
    requires some { 0 < length bytes.now }
    requires few { length bytes.now < 16 }
    ensures { result ≡ early_fault bytes.now }
{
    let len = bytes.len();
    if len <= SIGNATURE.len() {
        if bytes[len - 1] != SIGNATURE[len - 1] {
            return Some(V2Fault::NotProxy);
        }
        return None;
    }
    match len {
        13 => command_fault(bytes[12]),
        14 => family_fault(bytes[12], bytes[13]),
        _ => None,
    }
}

/// The answer to a piece after the first 16 bytes of the header.
fn feed_block(head: pp_v2::Head, piece: &[u8]) -> Fed
    requires { Fits head }
    ensures answers { (b : List ℕ) → IsAtBlock b head → Answers b piece.now result }
    ensures used { used_in result ≤ length piece.now }
{
    let missing = u32::from(head.len);
    if missing == 0 {
        return Fed::Whole(Meaning::Real, 0);
    }
    match head.declares {
        Some(family) => Block::new(family, missing).feed(piece),
        None => Skip { missing }.feed(piece),
    }
}

/// What all 16 bytes say, and then the piece from a place on.
fn feed_after(head: &[u8; 16], piece: &[u8], read: usize) -> Fed
    requires { read ≤ length piece.now }
    ensures answers { (b : List ℕ) → head.now ≡ b ++ take read piece.now → IsWholeHead head.now → Answers b piece.now result }
    ensures used { used_in result ≤ length piece.now }
{
    match read_head(head) {
        Ok(head) => feed_block(head, &piece[read..]).later(read),
        Err(fault) => Fed::Bad(HeaderFault::from(fault), read),
    }
}

impl HeaderStart {
    /// A head of which the first byte was read.
    pub fn after_first_byte() -> HeaderStart
        ensures { result.bytes.items ≡ 13 ∷ [] }
    {
        let mut bytes = ArrayVec::new();
        bytes.push(b'\r');
        HeaderStart { bytes }
    }

    pub fn feed(self, piece: &[u8]) -> Fed
        requires { IsInHead self.bytes.items }
        ensures answers { Answers self.bytes.items piece.now result }
        ensures used { used_in result ≤ length piece.now }
    {
        let HeaderStart { mut bytes } = self;
        for (at, byte) in piece.iter().enumerate() {
            bytes.push(*byte);
            if let Ok(head) = <&[u8; 16]>::try_from(bytes.as_slice()) {
                return feed_after(head, piece, at + 1);
            }
            if let Some(fault) = fault_at_last(bytes.as_slice()) {
                return Fed::Bad(HeaderFault::from(fault), at + 1);
            }
        }
        Fed::More(Parser::at(State::Head(HeaderStart { bytes })))
    }
}
