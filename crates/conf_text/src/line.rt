//! A line, and what may be wrong with one.
use list_core::Seq;
use std::error::Error;
use std::fmt;
use text_core::Word;

/// The most bytes that a text has.
pub const MOST_BYTES: usize = 1_048_576;

/// The most lines that a text has.
pub const MOST_LINES: u32 = 65_535;

/// The most bytes that a line has, its comment counted, its end not.
pub const MOST_BYTES_OF_LINE: usize = 2_048;

/// The most words that a line has.
pub const MOST_WORDS: usize = 64;

/// A line by its number, the first being 1, and its words. A line may have no word.
#[derive(Drop)]
pub struct Line<'a> {
    pub number: u32,
    pub words: Seq<Word<'a>>,
}

/// What is wrong with a line. Where several hold of one line, it is the first of them in this order; of a text, it
/// is that of the first faulty line.
#[derive(Clone, Copy, Debug, PartialEq, Eq)]
pub enum LineKind {
    /// More than `MOST_BYTES_OF_LINE` bytes. On line 0: a text of more than `MOST_BYTES`.
    TooLong,
    /// More than `MOST_WORDS` words.
    TooManyWords,
    /// More than `MOST_LINES` lines.
    TooManyLines,
    /// `"`, `'` or `\` outside a comment.
    Quoting,
    /// A character outside a comment that is neither a blank nor one of 0x21 to 0x7E.
    NotAscii,
    /// There was no memory. This says nothing of the text, and is on line 0.
    NoMemory,
}

/// What is wrong with a text, and on which line. Line 0 is no line.
#[derive(Clone, Copy, Debug, PartialEq, Eq)]
pub struct LineFault {
    pub line: u32,
    pub kind: LineKind,
}

impl LineKind {
    ghost use Rattle.std.specs.Prelude.{◌≡◌};
    ghost use Rattle.conf_text.specs.Names.{name_of};

    pub fn name(&self) -> &'static str
        ensures { result.now ≡ name_of self.now }
    {
        match self {
            LineKind::TooLong => "TooLong",
            LineKind::TooManyWords => "TooManyWords",
            LineKind::TooManyLines => "TooManyLines",
            LineKind::Quoting => "Quoting",
            LineKind::NotAscii => "NotAscii",
            LineKind::NoMemory => "NoMemory",
        }
    }
}

/// The kind's name.
impl fmt::Display for LineKind {
    ghost use Rattle.std.specs.Prelude.{Some};
    ghost use Rattle.conf_text.specs.Names.{name_of};

    ghost output = { λ k. Some (name_of k) };

    fn fmt<W: fmt::Write>(&self, f: &mut fmt::Formatter<W>) -> fmt::Result {
        f.write_str(self.name())
    }
}

/// As `line 3: Quoting`.
impl fmt::Display for LineFault {
    ghost use Rattle.std.specs.Prelude.{Some};
    ghost use Rattle.conf_text.specs.Names.{fault_text};

    ghost output = { λ f. Some (fault_text f) };

    fn fmt<W: fmt::Write>(&self, f: &mut fmt::Formatter<W>) -> fmt::Result {
        write!(f, "line {}: {}", self.line, self.kind)
    }
}

impl Error for LineFault {}
