//! A line of version 1.
ghost use Rattle.std.specs.Prelude.{◌≡◌, ◌<◌, ◌≤◌, [], ◌∷◌, length, IsNone};
ghost use Rattle.pp_any.specs.Status.{line_decision, meaning_of_line};
ghost use Rattle.pp_v1.specs.Line.{IsLine};
ghost use Rattle.pp_any.specs.Rest.{IsInLine, IsNextInLine};
ghost use Rattle.pp_any.specs.Fed.{Answers, used_in};

use crate::fault::HeaderFault;
use crate::fed::Fed;
use crate::parser::Parser;
use crate::state::State;
use arrayvec::ArrayVec;
use pp_v1::{LINE_LIMIT, Meaning, read_line};

const BEGINNING: [u8; 6] = *b"PROXY ";

/// The bytes of a line that has not ended.
#[derive(Drop)]
pub struct HeaderLine {
    pub bytes: ArrayVec<u8, LINE_LIMIT>,
}

#[tactic(auto, unfolding(crate::specs::Status::meaning_of_line))]
fn meaning_of(line: &[u8]) -> Result<Meaning, HeaderFault>
    requires { IsLine line.now }
    ensures { result ≡ meaning_of_line line.now }
{
    let meaning = read_line(line)?;
    Ok(meaning)
}

/// What the last of these bytes decides.
fn last_decision(bytes: &[u8]) -> Option<Result<Meaning, HeaderFault>>
    requires { IsNextInLine bytes.now }
    ensures decision { result ≡ line_decision bytes.now }
    ensures room { IsNone result → length bytes.now < LINE_LIMIT }
{
    let len = bytes.len();
    if len <= BEGINNING.len() {
        if bytes[len - 1] != BEGINNING[len - 1] {
            return Some(Err(HeaderFault::NotProxy));
        }
        return None;
    }
    if bytes[len - 2] == b'\r' && bytes[len - 1] == b'\n' {
        return Some(meaning_of(bytes));
    }
    if len >= LINE_LIMIT {
        return Some(Err(HeaderFault::TooLong));
    }
    None
}

impl HeaderLine {
    /// A line of which the first byte was read.
    pub fn after_first_byte() -> HeaderLine
        ensures { result.bytes.items ≡ 80 ∷ [] }
    {
        let mut bytes = ArrayVec::new();
        bytes.push(b'P');
        HeaderLine { bytes }
    }

    pub fn feed(self, piece: &[u8]) -> Fed
        requires { IsInLine self.bytes.items }
        ensures answers { Answers self.bytes.items piece.now result }
        ensures used { used_in result ≤ length piece.now }
    {
        let HeaderLine { mut bytes } = self;
        for (at, byte) in piece.iter().enumerate() {
            bytes.push(*byte);
            if let Some(decision) = last_decision(bytes.as_slice()) {
                return Fed::of(decision, at + 1);
            }
        }
        Fed::More(Parser::at(State::Line(HeaderLine { bytes })))
    }
}
