//! A block that begins with a pair.
ghost use Rattle.std.specs.Prelude.{◌≡◌, ◌+◌, ◌-◌, ◌<◌, ◌≤◌, ◌++◌, ℕ, List, [], length, take};
ghost use Rattle.pp_v2.specs.Head.{pair_length};
ghost use Rattle.pp_any.specs.Rest.{IsInBlock, IsRest};
ghost use Rattle.pp_any.specs.Fed.{Answers, used_in};

use crate::fed::Fed;
use crate::parser::Parser;
use crate::rest::Rest;
use crate::state::State;
use arrayvec::ArrayVec;
use pp_v1::Meaning;
use pp_v2::{Family, MOST_PAIR_BYTES, read_block};

/// The bytes that were read of a pair of that family, and how many are missing to the end of the block.
#[derive(Drop)]
pub struct Block {
    pub family: Family,
    pub bytes: ArrayVec<u8, MOST_PAIR_BYTES>,
    pub missing: u32,
}

/// Takes from a piece what is wanting of a pair.
fn take_pair(family: Family, bytes: &mut ArrayVec<u8, MOST_PAIR_BYTES>, piece: &[u8])
    requires { length bytes.old.items ≤ pair_length family }
    ensures { bytes.new.items ≡ take (pair_length family) (bytes.old.items ++ piece.now) }
{
    let wanting = usize::from(family.pair_length()) - bytes.len();
    let taken = wanting.min(piece.len());
    let Ok(()) = bytes.try_extend_from_slice(&piece[..taken]) else {
        unreachable!()
    };
}

impl Block {
    /// A block of which no byte was read.
    pub fn new(family: Family, missing: u32) -> Block
        ensures family { result.family ≡ family }
        ensures bytes { result.bytes.items ≡ [] }
        ensures missing { result.missing ≡ missing }
    {
        Block {
            family,
            bytes: ArrayVec::new(),
            missing,
        }
    }

    pub fn feed(self, piece: &[u8]) -> Fed
        requires { IsInBlock self.family self.bytes.items self.missing }
        ensures answers { (b : List ℕ) → IsRest b (Rest.Block self.family self.bytes self.missing) → Answers b piece.now result }
        ensures used { used_in result ≤ length piece.now }
    {
        let Block {
            family,
            mut bytes,
            missing,
        } = self;
        take_pair(family, &mut bytes, piece);
        let all = missing as usize;
        if all <= piece.len() {
            let pair = read_block(family, bytes.as_slice());
            return Fed::Whole(Meaning::Declared(pair), all);
        }
        let missing = missing - piece.len() as u32;
        Fed::More(Parser::at(State::Block(Block {
            family,
            bytes,
            missing,
        })))
    }
}
