//! A caller of the parser of PROXY headers.
ghost use Rattle.std.specs.Prelude.{[], ◌<◌, ◌^◌, length};
ghost use Rattle.pp_any.specs.Fed.{Answers, bytes_of};

use pp_any::{Fed, Parser};

/// What the first bytes of a client are: the beginning of a header, a whole one and how many bytes it has, or none, by
/// which fault and by which byte.
pub fn judge_header(bytes: &[u8]) -> Fed
    ensures { Answers [] bytes.now result }
{
    Parser::new().feed(bytes)
}

/// The same of bytes that came in pieces. Where a piece decides, those after it are not looked at.
pub fn judge_pieces(pieces: &[&[u8]]) -> Fed
    requires { length (bytes_of pieces.now) < 2 ^ 64 }
    ensures { Answers [] (bytes_of pieces.now) result }
{
    Parser::new().feed_all(pieces)
}
