//! The lines of a text.
use crate::line::{Line, LineFault, LineKind};
use crate::reading::read_lines;
use list_core::{Seq, Stop};
use std::alloc::Global;
use std::marker::Model;

/// The lines of a text in turn. Contracts see their list.
#[derive(Drop)]
pub struct Lines<'a> {
    items: Seq<Line<'a>>,
}

impl<'a> Model for Lines<'a> {
    ghost use Rattle.std.specs.Prelude.{List};
    ghost use Rattle.conf_text.specs.declared.line.Line.{Line};

    ghost Value = { List Line };

    ghost view = { λ s. s.items };
}

impl<'a> Lines<'a> {
    ghost use Rattle.std.specs.Prelude.{◌≡◌, ◌⊎◌, ◌↔◌, Ok, Err, [], length, IfOk, IfErr, IsTrue};
    ghost use Rattle.conf_text.specs.Lines.{lines_of, no_memory, AreLines, IsTextFault};

    /// Reads the lines of a text.
    ///
    /// The text is split at LF, and a last part without LF is a line unless it is empty. A CR right
    /// before the LF or the end of the text is dropped. Blanks are space and tab.
    pub fn of(alloc: Global, text: &'a str) -> Result<Lines<'a>, LineFault>
        ensures exact { IfOk result (λ lines. lines_of text.now ≡ Ok lines) }
        ensures exact_fault { IfErr result (λ fault. (fault ≡ no_memory) ⊎ (lines_of text.now ≡ Err fault)) }

        // Each line is what its part of the text says by itself.
        ensures each_line { IfOk result (λ lines. AreLines text.now lines) }

        // A fault is that of the first line that has one, or of the text's length.
        ensures fault { IfErr result (λ fault. (fault ≡ no_memory) ⊎ IsTextFault text.now fault) }
    {
        match read_lines(alloc, text) {
            Ok(items) => Ok(Lines { items }),
            Err(Stop::Fault(fault)) => Err(fault),
            Err(Stop::Memory) => Err(LineFault {
                line: 0,
                kind: LineKind::NoMemory,
            }),
        }
    }

    pub fn as_slice(&self) -> &[Line<'a>]
        ensures { result.now ≡ self.now }
    {
        self.items.as_slice()
    }

    pub fn len(&self) -> usize
        ensures { result ≡ length self.now }
    {
        self.items.len()
    }

    pub fn is_empty(&self) -> bool
        ensures { IsTrue result ↔ (self.now ≡ []) }
    {
        self.items.len() == 0
    }
}
