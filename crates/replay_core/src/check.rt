//! Whether a configuration is right.
ghost use Rattle.std.specs.Prelude.{◌≡◌, ◌≢◌, ◌++◌, ℕ, List, Some, Err, IfOk, IfErr, OnOk, OnErr};
ghost use Rattle.config_core.specs.Meaning.{meaning};
ghost use Rattle.replay_core.specs.Check.{check_output, fault_in, refused_line};
ghost use Rattle.replay_core.specs.Replay.{IsFront};
ghost use Rattle.replay_core.specs.Progress.{GaveUp};

use crate::fault::PrintFault;
use config_core::{OpenFault, read_plan};
use device_core::{Failed, Output, write_all};
use std::alloc::Global;

/// The fault of a configuration, if it has one, on the first faulty line.
fn fault_of(alloc: Global, config: &str) -> Result<Option<OpenFault>, PrintFault>
    ensures found { IfOk result (λ found. found ≡ fault_in (meaning config.now)) }
    ensures no_memory { IfErr result (λ f. f ≡ PrintFault.NoMemory) }
{
    match read_plan(alloc, config) {
        Ok(_plan) => Ok(None),
        Err(fault) => {
            if matches!(fault, OpenFault::NoMemory) {
                return Err(PrintFault::NoMemory);
            }
            Ok(Some(fault))
        }
    }
}

/// Writes a line.
fn write_line<O: Output>(line: &[u8], writer: &mut O) -> Result<(), PrintFault>
    ensures ok { OnOk result ((sent : List ℕ) → O.held writer.old ≡ Some sent → O.held writer.new ≡ Some (sent ++ line.now)) }
    ensures failures { OnOk result (O.failures writer.new ≡ O.failures writer.old) }
    ensures fault { IfErr result (λ f. f ≡ PrintFault.Write) }
    ensures front { OnErr result ((sent : List ℕ) → O.held writer.old ≡ Some sent → IsFront (O.held writer.new) (sent ++ line.now)) }
    ensures gave_up { OnErr result (GaveUp (O.failures writer.old) (O.failures writer.new) (O.stalls writer.old) (O.stalls writer.new)) }
{
    match write_all(writer, line) {
        Ok(()) => Ok(()),
        Err(Failed) => Err(PrintFault::Write),
    }
}

/// Writes the line of a fault.
fn write_fault<O: Output>(
    alloc: Global,
    fault: &OpenFault,
    writer: &mut O,
) -> Result<(), PrintFault>
    ensures ok { OnOk result ((sent : List ℕ) → O.held writer.old ≡ Some sent → O.held writer.new ≡ Some (sent ++ refused_line fault.now)) }
    ensures failures { OnOk result (O.failures writer.new ≡ O.failures writer.old) }
    ensures not_read { result ≢ Err PrintFault.Read }
    ensures no_memory { result ≡ Err PrintFault.NoMemory → writer.new ≡ writer.old }
    ensures front { result ≡ Err PrintFault.Write → (sent : List ℕ) → O.held writer.old ≡ Some sent → IsFront (O.held writer.new) (sent ++ refused_line fault.now) }
    ensures gave_up { result ≡ Err PrintFault.Write → GaveUp (O.failures writer.old) (O.failures writer.new) (O.stalls writer.old) (O.stalls writer.new) }
{
    let Ok(line) = format!(in alloc; "{}\n", *fault) else {
        return Err(PrintFault::NoMemory);
    };
    write_line(line.as_str().as_bytes(), writer)
}

/// Writes one line: `ok` where a configuration is right, else its fault, which it also answers. It is right exactly
/// where a replay opens it, as far as memory goes.
pub fn run_check<O: Output>(
    alloc: Global,
    config: &str,
    writer: &mut O,
) -> Result<Option<OpenFault>, PrintFault>
    // What was written is the line of the text, by the definition of its plan.
    ensures ok { OnOk result ((sent : List ℕ) → O.held writer.old ≡ Some sent → O.held writer.new ≡ Some (sent ++ check_output config.now)) }
    ensures found { IfOk result (λ found. found ≡ fault_in (meaning config.now)) }
    ensures failures { OnOk result (O.failures writer.new ≡ O.failures writer.old) }

    // Without memory nothing was written.
    ensures no_memory { result ≡ Err PrintFault.NoMemory → writer.new ≡ writer.old }

    // The device gives up before the call does, and what was written is a front of the line.
    ensures front { result ≡ Err PrintFault.Write → (sent : List ℕ) → O.held writer.old ≡ Some sent → IsFront (O.held writer.new) (sent ++ check_output config.now) }
    ensures gave_up { result ≡ Err PrintFault.Write → GaveUp (O.failures writer.old) (O.failures writer.new) (O.stalls writer.old) (O.stalls writer.new) }

    // Nothing is read.
    ensures not_read { result ≢ Err PrintFault.Read }
{
    let found = fault_of(alloc, config)?;
    match &found {
        None => write_line(b"ok\n", writer)?,
        Some(fault) => write_fault(alloc, fault, writer)?,
    }
    Ok(found)
}
