//! A record is checked.
ghost use Rattle.std.specs.Prelude.{◌≡◌, ◌≤◌, ◌⊎◌, ℕ, List, length, take, Some, Ok, Err, IfOk, IfErr, OnOk};
ghost use Rattle.device_core.specs.Device.{raised_by};
ghost use Rattle.device_core.specs.declared.patience.TheConstants.{MOST_READS};
ghost use Rattle.plan_types.specs.declared.plan.Plan.{Plan};
ghost use Rattle.config_core.specs.Meaning.{meaning};
ghost use Rattle.config_core.specs.declared.fault.OpenFault.{OpenFault};
ghost use Rattle.conn_core.specs.Machine.{IsOpened};
ghost use Rattle.conn_model.specs.HandedIn.{AreHandedIn};
ghost use Rattle.conn_model.specs.History.{opening, Entry, IsLegal, IsWell};
ghost use Rattle.conn_model.specs.declared.event.TheConstants.{PIECE_LIMIT};
ghost use Rattle.text_core.specs.Parts.{parts, is_line_feed};
ghost use Rattle.replay_core.specs.Reading.{IsSpent};
ghost use Rattle.audit_core.specs.Standing.{standing_counts, verdict_in, IsStarted};
ghost use Rattle.audit_core.specs.Verdict.{fault_at, verdict, IsChecked, IsWithinLimits};
ghost use Rattle.audit_core.specs.Check.{Stops, IsFaultOf, IsOutside, IsRead};
ghost use Rattle.audit_core.specs.Record.{history_text, IsRecord};

use crate::auditor::Auditor;
use crate::fault::{CheckFault, CheckKind, Checked};
use crate::reading::check_lines;
use conn_core::{Core, OpenFault};
use conn_model::event::PIECE_LIMIT;
use device_core::Input;
use line_reader::LineReader;
use std::alloc::{AllocError, Global};

/// A fault that no line of the record has.
fn fault_of(kind: CheckKind) -> CheckFault
    ensures { result ≡ fault_at 0 kind }
{
    CheckFault { line: 0, kind }
}

/// Checks all lines of a record, and counts.
fn check_and_count<I: Input>(
    alloc: Global,
    auditor: &mut Auditor,
    reader: &mut I,
) -> Result<Checked, CheckFault>
    ensures ok { IfOk result (λ c. (text : List ℕ) → I.left reader.old ≡ Some text → standing_counts (verdict_in auditor.old (parts is_line_feed text)) ≡ Ok c) }
    ensures stops { IfErr result (λ f. (text : List ℕ) → I.left reader.old ≡ Some text → Stops auditor.old text f.kind f.line) }
    ensures calls { (n : ℕ) × (n ≤ MOST_READS) × (I.calls reader.new ≡ raised_by n (I.calls reader.old)) }
    ensures spent { IfErr result (λ f. IsRead f.kind →
        IsSpent (I.failures reader.old) (I.failures reader.new) (I.stalls reader.old) (I.stalls reader.new) (I.calls reader.old) (I.calls reader.new)) }
{
    let Ok(mut lines) = LineReader::new(alloc) else {
        return Err(fault_of(CheckKind::NoMemory));
    };
    check_lines(auditor, &mut lines, reader)?;
    let Ok(live) = auditor.live() else {
        return Err(fault_of(CheckKind::NoMemory));
    };
    Ok(Checked {
        records: auditor.records(),
        live,
    })
}

/// A core on the configuration.
fn open_core(alloc: Global, config: &str) -> Result<Core, CheckFault>
    ensures ok { IfOk result (λ core. IsOpened config.now 0 core) }
    ensures well { IfOk result IsWell }
    ensures fault { IfErr result (λ f. (f ≡ fault_at 0 CheckKind.NoMemory) ⊎ ((o : OpenFault) × (f ≡ fault_at 0 (CheckKind.Config o)) × (meaning config.now ≡ Err o))) }
{
    match Core::open(alloc, config) {
        Ok(core) => Ok(core),
        Err(OpenFault::NoMemory) => Err(fault_of(CheckKind::NoMemory)),
        Err(fault) => Err(fault_of(CheckKind::Config(fault))),
    }
}

/// Room for the piece of a line.
fn piece_buffer(alloc: Global) -> Result<Vec<u8>, AllocError>
    ensures { IfOk result (λ piece. length piece.items ≡ PIECE_LIMIT) }
{
    Ok(vec![in alloc; 0; PIECE_LIMIT]?)
}

/// A check at the opening of the configuration.
pub fn open_auditor(alloc: Global, config: &str) -> Result<Auditor, CheckFault>
    ensures ok { IfOk result (λ auditor. IsStarted config.now auditor) }
    ensures fault { IfErr result (λ f. (f ≡ fault_at 0 CheckKind.NoMemory) ⊎ ((o : OpenFault) × (f ≡ fault_at 0 (CheckKind.Config o)) × (meaning config.now ≡ Err o))) }
{
    let Ok(piece) = piece_buffer(alloc) else {
        return Err(fault_of(CheckKind::NoMemory));
    };
    match open_core(alloc, config) {
        Ok(core) => {
            let auditor = Auditor::new(alloc, core, piece);
            Ok(auditor)
        }
        Err(fault) => Err(fault),
    }
}

/// Checks a record against the configuration: each of its events is answered again, by a core that opens with the
/// configuration, and has to be answered as its reply says. What is kept depends on the connections that are open, on
/// one line, and on the text of a reload until it is answered. At most `device_core::MOST_READS` reads are made.
pub fn check_record<I: Input>(
    alloc: Global,
    config: &str,
    reader: &mut I,
) -> Result<Checked, CheckFault>
    // The text is the record of a legal history, and these are its counts.
    ensures checked { IfOk result (λ c. (text : List ℕ) → I.left reader.old ≡ Some text → IsChecked config.now text c) }

    // The same by the definition of what a check says, and else the first faulty line.
    ensures verdict { IfOk result (λ c. (text : List ℕ) → I.left reader.old ≡ Some text → (plan : Plan) × (meaning config.now ≡ Ok plan) × (verdict plan text ≡ Ok c)) }
    ensures fault { IfErr result (λ f. (text : List ℕ) → I.left reader.old ≡ Some text → IsFaultOf config.now text f.kind f.line) }

    // So the record of a legal history is found right, unless the device or memory failed.
    ensures passes { IfErr result (λ f. (text : List ℕ) (plan : Plan) (history : List Entry) → I.left reader.old ≡ Some text → meaning config.now ≡ Ok plan →
        IsLegal (opening plan 0) history → IsRecord history (parts is_line_feed text) → IsWithinLimits (parts is_line_feed text) → IsOutside f.kind) }

    // And so is the record that is written of it.
    ensures written { IfErr result (λ f. (plan : Plan) (history : List Entry) → I.left reader.old ≡ Some (history_text history) → meaning config.now ≡ Ok plan →
        IsLegal (opening plan 0) history → AreHandedIn history → IsWithinLimits (parts is_line_feed (history_text history)) → IsOutside f.kind) }

    // Where such a record was cut anywhere, only its last line can be faulty, or a line that is missing after that.
    ensures cut { IfErr result (λ f. (plan : Plan) (history : List Entry) (count : ℕ) →
        I.left reader.old ≡ Some (take count (history_text history)) → meaning config.now ≡ Ok plan →
        IsLegal (opening plan 0) history → AreHandedIn history →
        IsWithinLimits (parts is_line_feed (history_text history)) →
        IsOutside f.kind ⊎ (length (parts is_line_feed (take count (history_text history))) ≤ f.line)) }

    // The configuration is opened exactly if it has a meaning.
    ensures opened { IfOk result (λ _. (plan : Plan) × (meaning config.now ≡ Ok plan)) }

    // The device gives up before the check does.
    ensures calls { (n : ℕ) × (n ≤ MOST_READS) × (I.calls reader.new ≡ raised_by n (I.calls reader.old)) }
    ensures spent { IfErr result (λ f. IsRead f.kind →
        IsSpent (I.failures reader.old) (I.failures reader.new) (I.stalls reader.old) (I.stalls reader.new) (I.calls reader.old) (I.calls reader.new)) }
{
    match open_auditor(alloc, config) {
        Ok(mut auditor) => {
            let checked = check_and_count(alloc, &mut auditor, reader);
            auditor.end();
            checked
        }
        Err(fault) => Err(fault),
    }
}
