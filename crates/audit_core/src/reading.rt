//! The lines of a record are read and checked.
ghost use Rattle.std.specs.Prelude.{◌≡◌, ◌-◌, ◌≤◌, ℕ, List, [], Some, Ok, Err, OnOk, IfErr};
ghost use Rattle.text_core.specs.Parts.{parts, is_line_feed};
ghost use Rattle.device_core.specs.Device.{raised_by};
ghost use Rattle.device_core.specs.declared.patience.TheConstants.{MOST_READS};
ghost use Rattle.replay_core.specs.Reading.{IsSpent};
ghost use Rattle.audit_core.specs.Standing.{verdict_in};
ghost use Rattle.audit_core.specs.Check.{Stops, IsRead};

use crate::auditor::Auditor;
use crate::fault::CheckFault;
use device_core::Input;
use line_reader::{LineReader, Next};

/// Checks all lines of a record.
pub fn check_lines<I: Input>(
    auditor: &mut Auditor,
    lines: &mut LineReader,
    reader: &mut I,
) -> Result<(), CheckFault>
    requires nothing { lines.old.kept ≡ [] }
    requires reads { lines.old.reads ≡ MOST_READS }
    ensures ok { OnOk result ((text : List ℕ) → I.left reader.old ≡ Some text → verdict_in auditor.old (parts is_line_feed text) ≡ Ok auditor.new) }
    ensures stops { IfErr result (λ f. (text : List ℕ) → I.left reader.old ≡ Some text → Stops auditor.old text f.kind f.line) }
    ensures calls { I.calls reader.new ≡ raised_by (MOST_READS - lines.new.reads) (I.calls reader.old) }
    ensures no_more { lines.new.reads ≤ MOST_READS }
    ensures spent { IfErr result (λ f. IsRead f.kind →
        IsSpent (I.failures reader.old) (I.failures reader.new) (I.stalls reader.old) (I.stalls reader.new) (I.calls reader.old) (I.calls reader.new)) }
{
    loop {
        match lines.advance(reader) {
            Ok(Next::Line) => auditor.check_line(lines.line())?,
            Ok(Next::LastLine) => {
                auditor.check_line(lines.line())?;
                return auditor.finish();
            }
            Ok(Next::End) => return auditor.finish(),
            Err(fault) => return Err(auditor.reading_fault(fault)),
        }
    }
}
