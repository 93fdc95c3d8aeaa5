//! A record is played against another configuration.
ghost use Rattle.std.specs.Prelude.{◌≡◌, ◌≢◌, ◌⊎◌, ◌++◌, ◌≤◌, ℕ, List, length, Some, Ok, Err, IfOk, IfErr, OnOk, OnErr};
ghost use Rattle.device_core.specs.Device.{raised_by};
ghost use Rattle.device_core.specs.declared.patience.TheConstants.{MOST_READS};
ghost use Rattle.conn_model.specs.declared.event.TheConstants.{PIECE_LIMIT};
ghost use Rattle.config_core.specs.Meaning.{meaning};
ghost use Rattle.config_core.specs.declared.fault.OpenFault.{OpenFault};
ghost use Rattle.conn_model.specs.declared.reply.StepFault.{StepFault};
ghost use Rattle.replay_core.specs.Progress.{GaveUp};
ghost use Rattle.replay_core.specs.Reading.{IsSpent};
ghost use Rattle.replay_core.specs.Replay.{IsFront};
ghost use Rattle.audit_core.specs.Audit.{fault_text};
ghost use Rattle.audit_core.specs.Check.{IsOutside};
ghost use Rattle.audit_core.specs.Standing.{IsStarted};
ghost use Rattle.audit_core.specs.Verdict.{fault_at};
ghost use Rattle.audit_core.specs.declared.fault.CheckFault as faults;
ghost use Rattle.whatif_core.specs.Whatif.{whatif_output, IsCompared, IsComparison, IsRight, IsTrial};

use crate::comparison::Comparison;
use crate::opening::{TrialFault, open_trial};
use crate::printing::print_all;
use crate::twin::Twin;
use audit_core::{CheckFault, CheckKind, again, check_record, open_auditor, report};
use conn_core::{Core, OpenFault};
use conn_model::event::PIECE_LIMIT;
use device_core::{Input, Output};
use replay_core::PrintFault;
use std::alloc::{AllocError, Global};

/// Room for the piece of a line.
fn piece_buffer(alloc: Global) -> Result<Vec<u8>, AllocError>
    ensures { IfOk result (λ piece. length piece.items ≡ PIECE_LIMIT) }
{
    Ok(vec![in alloc; 0; PIECE_LIMIT]?)
}

/// The fault of a configuration that is refused, which has no line of the record.
fn config_fault(fault: OpenFault) -> CheckFault
    ensures { result ≡ fault_at 0 (CheckKind.Config fault) }
{
    CheckFault {
        line: 0,
        kind: CheckKind::Config(fault),
    }
}

/// Both balancers at their openings.
fn open_twin(alloc: Global, config: &str, trial: Core) -> Result<Twin, PrintFault>
    ensures ok { IfOk result (λ twin. IsStarted config.now twin.checked × (twin.trial ≡ trial)) }
    ensures fault { IfErr result (λ f. (f ≡ PrintFault.NoMemory) ⊎ ((f ≡ PrintFault.Read) × (refused : OpenFault) × (meaning config.now ≡ Err refused))) }
{
    let Ok(piece) = piece_buffer(alloc) else {
        trial.end();
        return Err(PrintFault::NoMemory);
    };
    match open_auditor(alloc, config) {
        Ok(auditor) => {
            let twin = Twin::new(alloc, auditor, trial, piece);
            Ok(twin)
        }
        Err(fault) => {
            trial.end();
            Err(again(&fault))
        }
    }
}

/// Writes what is to be written of a record that is right, and answers how often anything differs.
fn print_record<I: Input, O: Output>(
    alloc: Global,
    summary: bool,
    config: &str,
    trial: Core,
    reader: &mut I,
    writer: &mut O,
) -> Result<u64, PrintFault>
    ensures wrote { IfOk result (λ differing. (other text sent : List ℕ) →
        I.left reader.old ≡ Some text → O.held writer.old ≡ Some sent →
        IsRight config.now other text trial →
        IsCompared summary config.now other text sent (O.held writer.new) differing) }
    ensures front { OnErr result ((other text sent : List ℕ) → I.left reader.old ≡ Some text → O.held writer.old ≡ Some sent → IsRight config.now other text trial →
        IsFront (O.held writer.new) (sent ++ whatif_output summary config.now other text)) }
    ensures calls { (n : ℕ) × (n ≤ MOST_READS) × (I.calls reader.new ≡ raised_by n (I.calls reader.old)) }
    ensures spent { result ≡ Err PrintFault.Read → (other text : List ℕ) → I.left reader.old ≡ Some text → IsRight config.now other text trial →
        IsSpent (I.failures reader.old) (I.failures reader.new) (I.stalls reader.old) (I.stalls reader.new) (I.calls reader.old) (I.calls reader.new) }
    ensures gave_up { result ≡ Err PrintFault.Write → GaveUp (O.failures writer.old) (O.failures writer.new) (O.stalls writer.old) (O.stalls writer.new) }
{
    match open_twin(alloc, config, trial) {
        Ok(mut twin) => {
            let printed = print_all(alloc, summary, &mut twin, reader, writer);
            twin.end();
            printed
        }
        Err(fault) => Err(fault),
    }
}

/// Checks a record, and plays it against the trial if it is right.
fn compare<I: Input, J: Input, O: Output>(
    alloc: Global,
    summary: bool,
    config: &str,
    trial: Core,
    reader: &mut I,
    second: &mut J,
    writer: &mut O,
) -> Result<Comparison, PrintFault>
    ensures finds { IfOk result (λ found. (other text : List ℕ) → I.left reader.old ≡ Some text → IsTrial config.now other trial → IsComparison config.now other text found) }
    ensures fault { IfOk result (λ found. (fault : faults.CheckFault) (sent : List ℕ) → found ≡ Comparison.Wrong fault → O.held writer.old ≡ Some sent →
        O.held writer.new ≡ Some (sent ++ fault_text fault)) }
    ensures inside { IfOk result (λ found. (fault : faults.CheckFault) → found ≡ Comparison.Wrong fault → ¬ IsOutside fault.kind) }
    ensures played { IfOk result (λ found. (fault : StepFault) → found ≢ Comparison.Refused fault) }
    ensures compared { IfOk result (λ found. (differing : ℕ) (other text sent : List ℕ) →
        found ≡ Comparison.Compared differing → I.left reader.old ≡ Some text →
        J.left second.old ≡ Some text → O.held writer.old ≡ Some sent →
        IsTrial config.now other trial →
        IsCompared summary config.now other text sent (O.held writer.new) differing) }
    ensures wrote { OnOk result ((other text sent : List ℕ) → I.left reader.old ≡ Some text → J.left second.old ≡ Some text → O.held writer.old ≡ Some sent → IsTrial config.now other trial →
        O.held writer.new ≡ Some (sent ++ whatif_output summary config.now other text)) }
    ensures front { OnErr result ((other text sent : List ℕ) → I.left reader.old ≡ Some text → J.left second.old ≡ Some text → O.held writer.old ≡ Some sent → IsTrial config.now other trial →
        IsFront (O.held writer.new) (sent ++ whatif_output summary config.now other text)) }
    ensures calls { (n : ℕ) × (n ≤ MOST_READS) × (I.calls reader.new ≡ raised_by n (I.calls reader.old)) }
    ensures second_calls { (n : ℕ) × (n ≤ MOST_READS) × (J.calls second.new ≡ raised_by n (J.calls second.old)) }
    ensures spent { result ≡ Err PrintFault.Read → (other text : List ℕ) → I.left reader.old ≡ Some text → J.left second.old ≡ Some text → IsTrial config.now other trial →
        IsSpent (I.failures reader.old) (I.failures reader.new) (I.stalls reader.old) (I.stalls reader.new) (I.calls reader.old) (I.calls reader.new)
        ⊎ IsSpent (J.failures second.old) (J.failures second.new) (J.stalls second.old) (J.stalls second.new) (J.calls second.old) (J.calls second.new) }
    ensures gave_up { result ≡ Err PrintFault.Write → GaveUp (O.failures writer.old) (O.failures writer.new) (O.stalls writer.old) (O.stalls writer.new) }
{
    match check_record(alloc, config, reader) {
        Ok(_checked) => match print_record(alloc, summary, config, trial, second, writer) {
            Ok(differing) => Ok(Comparison::Compared(differing)),
            Err(fault) => Err(fault),
        },
        Err(fault) => {
            trial.end();
            match report(alloc, &fault, writer) {
                Ok(()) => Ok(Comparison::Wrong(fault)),
                Err(stop) => Err(stop),
            }
        }
    }
}

/// Plays the record of a configuration against another one. The record is checked by its first reader, to its end. If it
/// is right, the second reader of the same record is read: a line is written for each decision of the other configuration
/// that differs, and for each connection that is lost or saved, unless a summary is wanted, and then the counts. Else the
/// line of the fault is written, which is also answered. The other configuration replaces the first one at time 0 ms,
/// before any event; if it cannot, neither reader is read and nothing is written. What the second reader gives is checked
/// too: a fault there is `Read`. At most `device_core::MOST_READS` reads are made of each.
pub fn run_whatif<I: Input, J: Input, O: Output>(
    alloc: Global,
    summary: bool,
    config: &str,
    other: &str,
    reader: &mut I,
    second: &mut J,
    writer: &mut O,
) -> Result<Comparison, PrintFault>
    ensures finds { IfOk result (λ found. (text : List ℕ) → I.left reader.old ≡ Some text → IsComparison config.now other.now text found) }

    // A fault is all that is written, and nothing is if the other configuration is refused.
    ensures fault { IfOk result (λ found. (fault : faults.CheckFault) (sent : List ℕ) → found ≡ Comparison.Wrong fault → O.held writer.old ≡ Some sent →
        O.held writer.new ≡ Some (sent ++ fault_text fault)) }
    ensures inside { IfOk result (λ found. (fault : faults.CheckFault) → found ≡ Comparison.Wrong fault → ¬ IsOutside fault.kind) }
    ensures refused { IfOk result (λ found. (fault : StepFault) → found ≡ Comparison.Refused fault → O.held writer.new ≡ O.held writer.old) }

    // If the second reader gives the same text, a right record is reported by its history, and it is answered how often
    // anything differs there.
    ensures compared { IfOk result (λ found. (differing : ℕ) (text sent : List ℕ) →
        found ≡ Comparison.Compared differing → I.left reader.old ≡ Some text →
        J.left second.old ≡ Some text → O.held writer.old ≡ Some sent →
        IsCompared summary config.now other.now text sent (O.held writer.new) differing) }

    // The same by the definition of what is written, and after a fault the front of it.
    ensures wrote { OnOk result ((text sent : List ℕ) → I.left reader.old ≡ Some text → J.left second.old ≡ Some text → O.held writer.old ≡ Some sent →
        O.held writer.new ≡ Some (sent ++ whatif_output summary config.now other.now text)) }
    ensures front { OnErr result ((text sent : List ℕ) → I.left reader.old ≡ Some text → J.left second.old ≡ Some text → O.held writer.old ≡ Some sent →
        IsFront (O.held writer.new) (sent ++ whatif_output summary config.now other.now text)) }

    // The devices give up before the run does.
    ensures calls { (n : ℕ) × (n ≤ MOST_READS) × (I.calls reader.new ≡ raised_by n (I.calls reader.old)) }
    ensures second_calls { (n : ℕ) × (n ≤ MOST_READS) × (J.calls second.new ≡ raised_by n (J.calls second.old)) }
    ensures spent { result ≡ Err PrintFault.Read → (text : List ℕ) → I.left reader.old ≡ Some text → J.left second.old ≡ Some text →
        IsSpent (I.failures reader.old) (I.failures reader.new) (I.stalls reader.old) (I.stalls reader.new) (I.calls reader.old) (I.calls reader.new)
        ⊎ IsSpent (J.failures second.old) (J.failures second.new) (J.stalls second.old) (J.stalls second.new) (J.calls second.old) (J.calls second.new) }
    ensures gave_up { result ≡ Err PrintFault.Write → GaveUp (O.failures writer.old) (O.failures writer.new) (O.stalls writer.old) (O.stalls writer.new) }
{
    match open_trial(alloc, config, other) {
        Ok(trial) => compare(alloc, summary, config, trial, reader, second, writer),
        Err(TrialFault::Config(refused)) => {
            let fault = config_fault(refused);
            match report(alloc, &fault, writer) {
                Ok(()) => Ok(Comparison::Wrong(fault)),
                Err(stop) => Err(stop),
            }
        }
        Err(TrialFault::Other(fault)) => Ok(Comparison::Refused(fault)),
        Err(TrialFault::NoMemory) => Err(PrintFault::NoMemory),
    }
}
