//! What may be wrong with a test or a condition.
use std::fmt;

/// Why the words of a test or a condition are refused (HAProxy manual, "using ACLs to form
/// conditions"). Of the words, read from the left, the first wrong one decides.
#[derive(Clone, Copy, Debug, PartialEq, Eq)]
pub enum AclFault {
    /// A word in the place of a criterion that is none.
    UnknownCriterion,
    /// A word that is no pattern of its criterion.
    BadPattern,
    /// A criterion without a pattern.
    NoPattern,
    /// A name that is not declared.
    UnknownName,
    /// An empty `{`, one that is not closed, or a stray `}`.
    BadBraces,
    /// A group of terms without a term.
    EmptyGroup,
    /// A name with another character, or a reserved one.
    BadName,
    /// There was no memory. This says nothing of the words.
    NoMemory,
}

impl fmt::Display for AclFault {
    ghost use Rattle.std.specs.Prelude.{Some};
    ghost use Rattle.acl_core.specs.Names.{name_of};

    ghost output = { λ fault. Some (name_of fault) };

    fn fmt<W: fmt::Write>(&self, f: &mut fmt::Formatter<W>) -> fmt::Result {
        let name = match *self {
            AclFault::UnknownCriterion => "UnknownCriterion",
            AclFault::BadPattern => "BadPattern",
            AclFault::NoPattern => "NoPattern",
            AclFault::UnknownName => "UnknownName",
            AclFault::BadBraces => "BadBraces",
            AclFault::EmptyGroup => "EmptyGroup",
            AclFault::BadName => "BadName",
            AclFault::NoMemory => "NoMemory",
        };
        f.write_str(name)
    }
}
