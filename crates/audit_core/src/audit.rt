//! What an operator reads of a record.
ghost use Rattle.std.specs.Prelude.{◌≡◌, ◌≢◌, ◌⊎◌, ◌++◌, ◌≤◌, ℕ, List, Some, None, Ok, Err, IfSome, IfNone, IfOk, OnOk, OnErr};
ghost use Rattle.device_core.specs.Device.{raised_by};
ghost use Rattle.device_core.specs.declared.patience.TheConstants.{MOST_READS};
ghost use Rattle.plan_types.specs.declared.plan.Plan.{Plan};
ghost use Rattle.config_core.specs.Meaning.{meaning};
ghost use Rattle.replay_core.specs.Progress.{GaveUp};
ghost use Rattle.replay_core.specs.Reading.{IsSpent};
ghost use Rattle.replay_core.specs.Replay.{IsFront};
ghost use Rattle.audit_core.specs.Audit.{fault_text, kind_name, Finds};
ghost use Rattle.audit_core.specs.Check.{IsOutside, IsRead};
ghost use Rattle.audit_core.specs.Ended.{audit_output, IsAudited};
ghost use Rattle.audit_core.specs.Verdict.{verdict};
ghost use Rattle.audit_core.specs.declared.fault.Checked.{Checked};
ghost use Rattle.audit_core.specs.declared.fault.CheckFault as faults;

use crate::check::{check_record, open_auditor};
use crate::fault::{CheckFault, CheckKind};
use crate::printing::{again, print_all, write_bytes};
use device_core::{Input, Output};
use replay_core::PrintFault;
use std::alloc::{AllocError, Global};
use text_core::decimal::append_decimal;

fn write_kind(out: &mut Vec<u8>, kind: &CheckKind) -> Result<(), AllocError>
    ensures { OnOk result (out.new.items ≡ out.old.items ++ kind_name kind.now) }
{
    match kind {
        CheckKind::Format => out.extend_from_slice(b"Format"),
        CheckKind::WrongReply => out.extend_from_slice(b"WrongReply"),
        CheckKind::NoMemory => out.extend_from_slice(b"NoMemory"),
        CheckKind::Read => out.extend_from_slice(b"Read"),
        CheckKind::TooLong => out.extend_from_slice(b"TooLong"),
        CheckKind::Config(_) => out.extend_from_slice(b"Config"),
    }
}

/// The line of a fault.
fn fault_line(alloc: Global, fault: &CheckFault) -> Result<Vec<u8>, AllocError>
    ensures { IfOk result (λ line. line.items ≡ fault_text fault.now) }
{
    let mut out = Vec::new(alloc);
    out.extend_from_slice(b"line ")?;
    append_decimal(&mut out, fault.line)?;
    out.extend_from_slice(b": ")?;
    write_kind(&mut out, &fault.kind)?;
    out.extend_from_slice(b"\n")?;
    Ok(out)
}

/// Writes the line of a fault.
fn write_fault<O: Output>(
    alloc: Global,
    fault: &CheckFault,
    writer: &mut O,
) -> Result<(), PrintFault>
    ensures ok { OnOk result ((sent : List ℕ) → O.held writer.old ≡ Some sent → O.held writer.new ≡ Some (sent ++ fault_text fault.now)) }
    ensures front { OnErr result ((sent : List ℕ) → O.held writer.old ≡ Some sent → IsFront (O.held writer.new) (sent ++ fault_text fault.now)) }
    ensures not_read { result ≢ Err PrintFault.Read }
    ensures gave_up { result ≡ Err PrintFault.Write → GaveUp (O.failures writer.old) (O.failures writer.new) (O.stalls writer.old) (O.stalls writer.new) }
{
    match fault_line(alloc, fault) {
        Ok(line) => write_bytes(line.as_slice(), writer),
        Err(_) => Err(PrintFault::NoMemory),
    }
}

/// The fault of a device or of memory, which has no line.
fn outside(kind: &CheckKind) -> Option<PrintFault>
    ensures inside { IfNone result (¬ IsOutside kind.now) }
    ensures read { result ≡ Some PrintFault.Read → IsRead kind.now }
    ensures not_write { result ≢ Some PrintFault.Write }
{
    match kind {
        CheckKind::Read => Some(PrintFault::Read),
        CheckKind::NoMemory => Some(PrintFault::NoMemory),
        CheckKind::Format | CheckKind::WrongReply | CheckKind::TooLong | CheckKind::Config(_) => {
            None
        }
    }
}

/// Writes the line of a fault, unless the device or memory failed.
pub fn report<O: Output>(
    alloc: Global,
    fault: &CheckFault,
    writer: &mut O,
) -> Result<(), PrintFault>
    ensures ok { OnOk result ((sent : List ℕ) → O.held writer.old ≡ Some sent → O.held writer.new ≡ Some (sent ++ fault_text fault.now)) }
    ensures inside { OnOk result (¬ IsOutside fault.now.kind) }
    ensures front { OnErr result ((sent text : List ℕ) → O.held writer.old ≡ Some sent → (¬ IsOutside fault.now.kind → text ≡ fault_text fault.now) → IsFront (O.held writer.new) (sent ++ text)) }
    ensures read { result ≡ Err PrintFault.Read → IsRead fault.now.kind }
    ensures gave_up { result ≡ Err PrintFault.Write → GaveUp (O.failures writer.old) (O.failures writer.new) (O.stalls writer.old) (O.stalls writer.new) }
{
    match outside(&fault.kind) {
        Some(stop) => Err(stop),
        None => write_fault(alloc, fault, writer),
    }
}

/// Writes what is to be written of a record that is right.
fn print_record<I: Input, O: Output>(
    alloc: Global,
    config: &str,
    reader: &mut I,
    writer: &mut O,
) -> Result<(), PrintFault>
    ensures wrote { OnOk result ((text sent : List ℕ) (plan : Plan) (checked : Checked) → I.left reader.old ≡ Some text → O.held writer.old ≡ Some sent → meaning config.now ≡ Ok plan → verdict plan text ≡ Ok checked →
        O.held writer.new ≡ Some (sent ++ audit_output config.now text)) }
    ensures front { OnErr result ((text sent : List ℕ) (plan : Plan) (checked : Checked) → I.left reader.old ≡ Some text → O.held writer.old ≡ Some sent → meaning config.now ≡ Ok plan → verdict plan text ≡ Ok checked →
        IsFront (O.held writer.new) (sent ++ audit_output config.now text)) }
    ensures calls { (n : ℕ) × (n ≤ MOST_READS) × (I.calls reader.new ≡ raised_by n (I.calls reader.old)) }
    ensures spent { result ≡ Err PrintFault.Read → (text : List ℕ) (plan : Plan) (checked : Checked) → I.left reader.old ≡ Some text → meaning config.now ≡ Ok plan → verdict plan text ≡ Ok checked →
        IsSpent (I.failures reader.old) (I.failures reader.new) (I.stalls reader.old) (I.stalls reader.new) (I.calls reader.old) (I.calls reader.new) }
    ensures gave_up { result ≡ Err PrintFault.Write → GaveUp (O.failures writer.old) (O.failures writer.new) (O.stalls writer.old) (O.stalls writer.new) }
{
    match open_auditor(alloc, config) {
        Ok(mut auditor) => {
            let printed = print_all(alloc, &mut auditor, reader, writer);
            auditor.end();
            printed
        }
        Err(fault) => Err(again(&fault)),
    }
}

/// Checks a record by its first reader, to its end. If it is right, the second reader of the same record is read,
/// and a line is written for each connection that ended, and at the end how many entries the record has and how many
/// connections are open after them; else the line of the fault is written, which is also answered. What the second
/// reader gives is checked too: a fault there is `Read`. At most `device_core::MOST_READS` reads are made of each.
pub fn run_audit<I: Input, J: Input, O: Output>(
    alloc: Global,
    config: &str,
    reader: &mut I,
    second: &mut J,
    writer: &mut O,
) -> Result<Option<CheckFault>, PrintFault>
    ensures finds { IfOk result (λ found. (text : List ℕ) → I.left reader.old ≡ Some text → Finds config.now text found) }

    // A fault is all that is written.
    ensures fault { IfOk result (λ found. (fault : faults.CheckFault) (sent : List ℕ) → found ≡ Some fault → O.held writer.old ≡ Some sent →
        O.held writer.new ≡ Some (sent ++ fault_text fault)) }
    ensures inside { IfOk result (λ found. IfSome found (λ fault. ¬ IsOutside fault.kind)) }

    // If the second reader gives the same text, the lines of a record that is right are those of its history.
    ensures lines { result ≡ Ok None → (text sent : List ℕ) → I.left reader.old ≡ Some text → J.left second.old ≡ Some text → O.held writer.old ≡ Some sent →
        IsAudited config.now text sent (O.held writer.new) }

    // The same by the definition of what an audit writes, and after a fault the front of it.
    ensures wrote { OnOk result ((text sent : List ℕ) → I.left reader.old ≡ Some text → J.left second.old ≡ Some text → O.held writer.old ≡ Some sent →
        O.held writer.new ≡ Some (sent ++ audit_output config.now text)) }
    ensures front { OnErr result ((text sent : List ℕ) → I.left reader.old ≡ Some text → J.left second.old ≡ Some text → O.held writer.old ≡ Some sent →
        IsFront (O.held writer.new) (sent ++ audit_output config.now text)) }

    // The devices give up before the audit does.
    ensures calls { (n : ℕ) × (n ≤ MOST_READS) × (I.calls reader.new ≡ raised_by n (I.calls reader.old)) }
    ensures second_calls { (n : ℕ) × (n ≤ MOST_READS) × (J.calls second.new ≡ raised_by n (J.calls second.old)) }
    ensures spent { result ≡ Err PrintFault.Read → (text : List ℕ) → I.left reader.old ≡ Some text → J.left second.old ≡ Some text →
        IsSpent (I.failures reader.old) (I.failures reader.new) (I.stalls reader.old) (I.stalls reader.new) (I.calls reader.old) (I.calls reader.new)
        ⊎ IsSpent (J.failures second.old) (J.failures second.new) (J.stalls second.old) (J.stalls second.new) (J.calls second.old) (J.calls second.new) }
    ensures gave_up { result ≡ Err PrintFault.Write → GaveUp (O.failures writer.old) (O.failures writer.new) (O.stalls writer.old) (O.stalls writer.new) }
{
    match check_record(alloc, config, reader) {
        Ok(_checked) => {
            match print_record(alloc, config, second, writer) {
                Ok(()) => Ok(None),
                Err(fault) => Err(fault),
            }
        }
        Err(fault) => {
            match report(alloc, &fault, writer) {
                Ok(()) => Ok(Some(fault)),
                Err(stop) => Err(stop),
            }
        }
    }
}
