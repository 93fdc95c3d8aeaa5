//! Laws of the status.
ghost use Rattle.std.specs.Prelude.{◌≡◌, ◌≢◌, ◌⊎◌, ◌↔◌, ◌<◌, ◌≤◌, ◌++◌, ℕ, List, [], length, take, None, Ok, Err};
ghost use Rattle.pp_v1.specs.declared.meaning.Meaning.{Meaning};
ghost use Rattle.pp_any.specs.declared.fault.HeaderFault.{HeaderFault};
ghost use Rattle.pp_any.specs.Status.{Fault, Wait, Whole, decision, status};
ghost use Rattle.pp_any.specs.declared.rest.Rest.{Rest};
ghost use Rattle.pp_any.specs.Rest.{IsRest};
ghost use Rattle.pp_any.specs.NextPiece.{rest_on, status_on};
ghost use Rattle.pp_any.specs.Header.{IsBlock, IsDecidedAt, IsHeader, SaysInLine, shifted};

/// The status of bytes is what the first of them decides that decides anything.
pub fn status_is_decided_first()
    ensures whole { (b : List ℕ) (count : ℕ) (meaning : Meaning) → (status b ≡ Whole count meaning) ↔ IsDecidedAt b count (Ok meaning) }
    ensures fault { (b : List ℕ) (count : ℕ) (fault : HeaderFault) → (status b ≡ Fault fault count) ↔ IsDecidedAt b count (Err fault) }
    ensures wait { (b : List ℕ) → (status b ≡ Wait) ↔ ((k : ℕ) → 0 < k → k ≤ length b → decision (take k b) ≡ None) }
{}

/// A header is a line of version 1, or 16 bytes and a block of version 2, in the forms of proxy-protocol.txt; and
/// each of these is a header.
pub fn headers_are_lines_and_blocks()
    ensures { (b : List ℕ) (meaning : Meaning) → IsHeader b meaning ↔ (SaysInLine b meaning ⊎ IsBlock b meaning) }
{}

/// What is decided of bytes stays so, whatever follows them. So no header is a proper prefix of another.
pub fn status_is_decided_once()
    ensures decided { (b c : List ℕ) → status b ≢ Wait → status (b ++ c) ≡ status b }
    ensures header { (b c : List ℕ) (meaning other : Meaning) → IsHeader b meaning → IsHeader (b ++ c) other → c ≡ [] }
{}

/// Of two lists of bytes a parser holds the same. Then, whatever follows them, both wait, or the same is decided at
/// the same byte of what follows; and if both wait, a parser holds the same of them again.
pub fn rest_decides()
    ensures status { (a b : List ℕ) (rest : Rest) → IsRest a rest → IsRest b rest
        → (c : List ℕ) → shifted (length b) (status (a ++ c)) ≡ shifted (length a) (status (b ++ c)) }
    ensures rest { (a b : List ℕ) (rest : Rest) → IsRest a rest → IsRest b rest
        → (c : List ℕ) (more : Rest) → IsRest (a ++ c) more → IsRest (b ++ c) more }
{}

/// What follows some bytes can be judged by what a parser holds of them: the same is decided, at the same byte; and
/// where nothing is decided, what a parser then holds follows from what it held.
pub fn rest_goes_on()
    ensures status { (b : List ℕ) (rest : Rest) → IsRest b rest → (c : List ℕ) → status (b ++ c) ≡ shifted (length b) (status_on rest c) }
    ensures rest { (b : List ℕ) (rest : Rest) → IsRest b rest → (c : List ℕ) → status_on rest c ≡ Wait → IsRest (b ++ c) (rest_on rest c) }
    ensures whole { (b : List ℕ) (rest : Rest) → IsRest b rest → (c : List ℕ) (used : ℕ) (meaning : Meaning) → status_on rest c ≡ Whole used meaning → used ≤ length c }
    ensures fault { (b : List ℕ) (rest : Rest) → IsRest b rest → (c : List ℕ) (used : ℕ) (fault : HeaderFault) → status_on rest c ≡ Fault fault used → used ≤ length c }
{}
