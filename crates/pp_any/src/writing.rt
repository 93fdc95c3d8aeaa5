//! Writing headers of either version.
ghost use Rattle.std.specs.Prelude.{◌≡◌, ◌++◌, ℕ, List, length};
ghost use Rattle.pp_v1.specs.declared.meaning.Meaning.TheVariants.{Declared};
ghost use Rattle.pp_v1.specs.Line.{line_of};
ghost use Rattle.pp_v2.specs.Block.{header_of};
ghost use Rattle.pp_any.specs.Status.{Whole, status};

use addr_core::Pair;
use arrayvec::ArrayVec;
use pp_v1::LINE_LIMIT;
use pp_v2::MOST_WRITTEN_BYTES;

/// The line of version 1 that declares the pair, as `pp_v1::write_v1` writes it.
pub fn write_v1(pair: &Pair) -> ArrayVec<u8, LINE_LIMIT>
    ensures line { result.items ≡ line_of pair.now }

    // Whatever follows it, it is a whole header that declares the pair.
    ensures whole { (c : List ℕ) → status (result.items ++ c) ≡ Whole (length result.items) (Declared pair.now) }
{
    pp_v1::write_v1(pair)
}

/// The header of version 2 that declares the pair, as `pp_v2::write_v2` writes it.
pub fn write_v2(pair: &Pair) -> ArrayVec<u8, MOST_WRITTEN_BYTES>
    ensures header { result.items ≡ header_of pair.now }

    // Whatever follows it, it is a whole header that declares the pair.
    ensures whole { (c : List ℕ) → status (result.items ++ c) ≡ Whole (length result.items) (Declared pair.now) }
{
    pp_v2::write_v2(pair)
}
