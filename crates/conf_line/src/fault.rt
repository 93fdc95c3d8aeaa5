//! What may be wrong with the lines of a configuration.
use acl_core::AclFault;
use conf_text::LineKind;
use std::fmt;

/// What is wrong with a line of a configuration. Of the words of a line, read from the left, the first
/// that is wrong decides.
#[derive(Clone, Copy, Debug, PartialEq, Eq)]
pub enum ConfKind {
    /// The line's own characters.
    Text(LineKind),
    /// A keyword before any section.
    NoSection,
    /// A first word that is no keyword.
    UnknownKeyword,
    /// A line, a word or a name that the language has and this reader does not take.
    Unsupported,
    /// The line ends too early.
    MissingWord,
    /// A word is left over.
    ExtraWord,
    BadNumber,
    /// No address with a port from 1 to 65535.
    BadAddress,
    /// A name or an endpoint that an earlier line has.
    Duplicate,
    /// A test or a condition.
    Acl(AclFault),
    /// More lines of a kind than are taken.
    Limit,
    NoMemory,
}

/// What is wrong with a configuration: the first faulty line, and its fault.
#[derive(Clone, Copy, Debug, PartialEq, Eq)]
pub struct ConfFault {
    pub line: u32,
    pub kind: ConfKind,
}

/// The kind's name, as `Unsupported` or `Acl BadPattern`.
impl fmt::Display for ConfKind {
    ghost use Rattle.std.specs.Prelude.{Some};
    ghost use Rattle.conf_line.specs.Names.{conf_name};

    ghost output = { λ kind. Some (conf_name kind) };

    fn fmt<W: fmt::Write>(&self, f: &mut fmt::Formatter<W>) -> fmt::Result {
        let name = match self {
            ConfKind::Text(kind) => return write!(f, "Text {kind}"),
            ConfKind::NoSection => "NoSection",
            ConfKind::UnknownKeyword => "UnknownKeyword",
            ConfKind::Unsupported => "Unsupported",
            ConfKind::MissingWord => "MissingWord",
            ConfKind::ExtraWord => "ExtraWord",
            ConfKind::BadNumber => "BadNumber",
            ConfKind::BadAddress => "BadAddress",
            ConfKind::Duplicate => "Duplicate",
            ConfKind::Acl(fault) => return write!(f, "Acl {fault}"),
            ConfKind::Limit => "Limit",
            ConfKind::NoMemory => "NoMemory",
        };
        f.write_str(name)
    }
}
