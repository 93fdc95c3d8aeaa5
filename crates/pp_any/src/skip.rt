//! A block that is skipped.
ghost use Rattle.std.specs.Prelude.{◌≡◌, ◌<◌, ◌≤◌, ℕ, List, length};
ghost use Rattle.pp_any.specs.Rest.{IsRest};
ghost use Rattle.pp_any.specs.Fed.{Answers, used_in};

use crate::fed::Fed;
use crate::parser::Parser;
use crate::rest::Rest;
use crate::state::State;
use pp_v1::Meaning;

/// A block of which so many bytes are missing.
#[derive(Drop)]
pub struct Skip {
    pub missing: u32,
}

impl Skip {
    pub fn feed(self, piece: &[u8]) -> Fed
        requires { 0 < self.missing }
        ensures answers { (b : List ℕ) → IsRest b (Rest.Skip self.missing) → Answers b piece.now result }
        ensures used { used_in result ≤ length piece.now }
    {
        let missing = self.missing as usize;
        if missing <= piece.len() {
            return Fed::Whole(Meaning::Real, missing);
        }
        let missing = self.missing - piece.len() as u32;
        Fed::More(Parser::at(State::Skip(Skip { missing })))
    }
}
