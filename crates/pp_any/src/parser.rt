//! The parser.
ghost use Rattle.std.specs.Prelude.{◌≡◌, ◌^◌, ◌<◌, ◌≤◌, ℕ, List, [], length};
ghost use Rattle.pp_any.specs.Rest.{IsRest, IsState, rest_in};
ghost use Rattle.pp_any.specs.Fed.{Answers, bytes_of, used_in};
ghost use Rattle.pp_any.specs.NextPiece.{Tells};

use crate::block::Block;
use crate::fault::HeaderFault;
use crate::fed::Fed;
use crate::head::HeaderStart;
use crate::line::HeaderLine;
use crate::rest::Rest;
use crate::skip::Skip;
use crate::state::State;
use arrayvec::ArrayVec;
use std::marker::Model;

/// A parser that waits for more bytes of a header. A feed spends it. It holds at most `pp_v1::LINE_LIMIT` bytes, and
/// takes no memory.
#[derive(Drop)]
pub struct Parser {
    state: State,
}

impl Model for Parser {
    ghost use Rattle.pp_any.specs.declared.rest.Rest.{Rest};

    ghost Value = { Rest };

    ghost use Rattle.pp_any.specs.Rest.{IsState, rest_in};

    ghost view = { λ p. rest_in p.state };

    ghost invariant = { λ p. IsState p.state };
}

/// A parser that was fed nothing.
impl Default for Parser {
    ghost use Rattle.std.specs.Prelude.{[]};
    ghost use Rattle.pp_any.specs.Rest.{IsRest};

    ghost is_default = { λ parser. IsRest [] parser };

    fn default() -> Self {
        Parser::new()
    }
}

fn copied<const CAP: usize>(bytes: &[u8]) -> ArrayVec<u8, CAP>
    requires { length bytes.now ≤ CAP }
    ensures { result.items ≡ bytes.now }
{
    let mut copy = ArrayVec::new();
    let Ok(()) = copy.try_extend_from_slice(bytes) else {
        unreachable!()
    };
    copy
}

fn start(piece: &[u8]) -> Fed
    ensures answers { Answers [] piece.now result }
    ensures used { used_in result ≤ length piece.now }
{
    let Some(first) = piece.first() else {
        return Fed::More(Parser::new());
    };
    match *first {
        b'P' => HeaderLine::after_first_byte().feed(&piece[1..]).later(1),
        b'\r' => HeaderStart::after_first_byte().feed(&piece[1..]).later(1),
        _ => Fed::Bad(HeaderFault::NotProxy, 1),
    }
}

impl Parser {
    /// A parser that was fed nothing.
    pub fn new() -> Parser
        ensures { IsRest [] result }
    {
        Parser {
            state: State::Start,
        }
    }

    pub(crate) fn at(state: State) -> Parser
        requires { IsState state }
        ensures { result ≡ rest_in state }
    {
        Parser { state }
    }

    /// Feeds a piece.
    pub fn feed(self, piece: &[u8]) -> Fed
        // A parser that was fed some bytes answers the status of those bytes and the piece together.
        ensures answers { (b : List ℕ) → IsRest b self → Answers b piece.now result }

        // What it holds of those bytes is enough to say so.
        ensures tells { (b : List ℕ) → IsRest b self → Tells self piece.now result }

        // The bytes used are of this piece.
        ensures used { used_in result ≤ length piece.now }
    {
        match self.state {
            State::Start => start(piece),
            State::Line(line) => line.feed(piece),
            State::Head(head) => head.feed(piece),
            State::Block(block) => block.feed(piece),
            State::Skip(skip) => skip.feed(piece),
        }
    }

    /// Feeds the pieces of a list in turn, until one of them decides. The bytes used are counted over all of
    /// them together.
    pub fn feed_all(self, pieces: &[&[u8]]) -> Fed
        requires { length (bytes_of pieces.now) < 2 ^ 64 }

        // However the bytes are cut into pieces, the answer is the status of all of them.
        ensures answers { (b : List ℕ) → IsRest b self → Answers b (bytes_of pieces.now) result }
    {
        let mut parser = self;
        let mut read = 0;
        for piece in pieces {
            match parser.feed(piece) {
                Fed::More(next) => parser = next,
                Fed::Whole(meaning, used) => return Fed::Whole(meaning, read + used),
                Fed::Bad(fault, used) => return Fed::Bad(fault, read + used),
            }
            read += piece.len();
        }
        Fed::More(parser)
    }

    /// What is held of the bytes that were fed.
    pub fn rest(&self) -> Rest
        ensures { result ≡ self.now }
    {
        match &self.state {
            State::Start => Rest::Read(ArrayVec::new()),
            State::Line(line) => Rest::Read(copied(line.bytes.as_slice())),
            State::Head(head) => Rest::Read(copied(head.bytes.as_slice())),
            State::Block(block) => {
                Rest::Block(block.family, copied(block.bytes.as_slice()), block.missing)
            }
            State::Skip(skip) => Rest::Skip(skip.missing),
        }
    }
}
