//! What a parser answers to a piece.
ghost use Rattle.std.specs.Prelude.{◌≡◌, ◌+◌, ◌<◌, ◌^◌};
ghost use Rattle.pp_any.specs.Fed.{later, answer_of, used_in};

use crate::fault::HeaderFault;
use crate::parser::Parser;
use pp_v1::Meaning;

/// What a parser answers to a piece of bytes.
#[derive(Drop)]
pub enum Fed {
    /// Nothing is decided yet. The parser took the whole piece.
    More(Parser),
    /// A header ends in the piece. So many bytes of the piece belong to it, and those after them are the
    /// connection's own.
    Whole(Meaning, usize),
    /// The header has a fault. So many bytes of the piece were judged, the last of them being the one that makes it
    /// certain.
    Bad(HeaderFault, usize),
}

impl Fed {
    /// The answer of a decision at the last of so many bytes.
    pub(crate) fn of(decision: Result<Meaning, HeaderFault>, used: usize) -> Fed
        ensures { result ≡ answer_of decision used }
    {
        match decision {
            Ok(meaning) => Fed::Whole(meaning, used),
            Err(fault) => Fed::Bad(fault, used),
        }
    }

    /// The same of a piece that has so many bytes more in front.
    pub(crate) fn later(self, before: usize) -> Fed
        requires { used_in self + before < 2 ^ 64 }
        ensures { result ≡ later before self }
    {
        match self {
            Fed::More(parser) => Fed::More(parser),
            Fed::Whole(meaning, used) => Fed::Whole(meaning, used + before),
            Fed::Bad(fault, used) => Fed::Bad(fault, used + before),
        }
    }
}
