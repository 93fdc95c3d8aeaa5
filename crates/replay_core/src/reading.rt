//! A script is read and answered.
ghost use Rattle.std.specs.Prelude.{◌≡◌, ◌≢◌, ◌-◌, ◌≤◌, ℕ, List, [], Some, None, Ok, Err, OnOk, IfErr};
ghost use Rattle.device_core.specs.Device.{raised_by};
ghost use Rattle.device_core.specs.Patience.{IsUnblocked};
ghost use Rattle.device_core.specs.declared.patience.TheConstants.{MOST_READS};
ghost use Rattle.config_core.specs.declared.fault.OpenFault.{OpenFault};
ghost use Rattle.replay_core.specs.Progress.{GaveUp};
ghost use Rattle.replay_core.specs.Reading.{AnswersAll, IsSpent, Stops};

use crate::fault::ReplayFault;
use crate::session::Session;
use device_core::{Input, Output};
use line_reader::{LineReader, Next};

/// Answers all of a script, and leaves the last answers to be sent.
pub fn answer_all<I: Input, O: Output>(
    session: &mut Session,
    lines: &mut LineReader,
    reader: &mut I,
    writer: &mut O,
) -> Result<(), ReplayFault>
    requires nothing { lines.old.kept ≡ [] }
    requires reads { lines.old.reads ≡ MOST_READS }
    ensures ok { OnOk result ((script sent : List ℕ) → I.left reader.old ≡ Some script → O.held writer.old ≡ Some sent →
        (I.left reader.new ≡ Some []) × AnswersAll sent session.old script (O.held writer.new) session.new None) }
    ensures stops { IfErr result (λ f. (script sent : List ℕ) → I.left reader.old ≡ Some script → O.held writer.old ≡ Some sent →
        Stops sent session.old script (I.left reader.new) (O.held writer.new) session.new f) }
    ensures calls { I.calls reader.new ≡ raised_by (MOST_READS - lines.new.reads) (I.calls reader.old) }
    ensures no_more { lines.new.reads ≤ MOST_READS }
    ensures spent { result ≡ Err ReplayFault.Read →
        IsSpent (I.failures reader.old) (I.failures reader.new) (I.stalls reader.old) (I.stalls reader.new) (I.calls reader.old) (I.calls reader.new) }
    ensures unfailed { result ≢ Err ReplayFault.Write → O.failures writer.new ≡ O.failures writer.old }
    ensures unblocked { result ≢ Err ReplayFault.Write → IsUnblocked (O.stalls writer.old) (O.stalls writer.new) }
    ensures gave_up { result ≡ Err ReplayFault.Write → GaveUp (O.failures writer.old) (O.failures writer.new) (O.stalls writer.old) (O.stalls writer.new) }
    ensures not_config { (o : OpenFault) → result ≢ Err (ReplayFault.Config o) }
{
    loop {
        match lines.advance(reader) {
            Ok(Next::Line) => {
                session.answer_line(lines.line())?;
                session.send_many(writer)?;
            }
            Ok(Next::LastLine) => return session.answer_last(lines.line()),
            Ok(Next::End) => return session.at_end(),
            Err(fault) => return Err(session.script_fault(fault)),
        }
    }
}
