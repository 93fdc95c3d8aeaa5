//! Callers of the commands `check`, `replay`, `audit`, `whatif`, `explain` and `pipe`.
ghost use Rattle.std.specs.Prelude.{◌≡◌, ◌++◌, ℕ, List, Some, Err, IfOk, OnOk};
ghost use Rattle.conn_core.specs.Meaning.{meaning};
ghost use Rattle.replay_core.specs.Check.{check_output};
ghost use Rattle.audit_core.specs.Verdict.{IsChecked};
ghost use Rattle.whatif_core.specs.Whatif.{IsComparison};
ghost use Rattle.pipe_core.specs.Pipe.{IsPiped};

use addr_core::Pair;
use audit_core::{CheckFault, Checked, check_record};
use conn_core::OpenFault;
use device_core::{Input, Output};
use explain_core::{ExplainFault, explain};
use pipe_core::{PipeEnd, PipeFault, run_pipe};
use replay_core::{PrintFault, ReplayFault, Replayed, run_check, run_replay};
use std::alloc::Global;
use whatif_core::{Comparison, run_whatif};

/// Writes the line of a configuration; whether it is one. The writer may fail. If memory is lacking, nothing was
/// written.
pub fn check<O: Output>(alloc: Global, text: &str, writer: &mut O) -> Result<bool, PrintFault>
    ensures ok { OnOk result ((sent : List ℕ) → O.held writer.old ≡ Some sent →
        O.held writer.new ≡ Some (sent ++ check_output text.now)) }
    ensures no_memory { result ≡ Err PrintFault.NoMemory → writer.new ≡ writer.old }
{
    let fault = run_check(alloc, text, writer)?;
    Ok(fault.is_none())
}

/// Answers a script; how many events it has. The configuration may be refused, a line may be no event, and the reader or
/// the writer may fail. What was written by then are the answers to the lines before.
pub fn replay<I: Input, O: Output>(
    alloc: Global,
    text: &str,
    script: &mut I,
    answers: &mut O,
) -> Result<u64, ReplayFault>
    ensures refused { (fault : OpenFault) → result ≡ Err (ReplayFault.Config fault) →
        meaning text.now ≡ Err fault }
{
    let Replayed { lines } = run_replay(alloc, text, script, answers)?;
    Ok(lines)
}

/// Checks a record; what it counts. The fault says which line is wrong and why, also if it lies outside of the record: the
/// configuration is refused, the reader fails, or there is no memory.
pub fn audit<I: Input>(alloc: Global, text: &str, reader: &mut I) -> Result<Checked, CheckFault>
    ensures { IfOk result (λ counts. (read : List ℕ) → I.left reader.old ≡ Some read →
        IsChecked text.now read counts) }
{
    check_record(alloc, text, reader)
}

/// Plays a record against another configuration, and writes what that decides otherwise. The record may be wrong, and the
/// other configuration refused: that is what was found. The readers, which give the same record, or the writer may fail.
pub fn compare<I: Input, J: Input, O: Output>(
    alloc: Global,
    text: &str,
    other: &str,
    reader: &mut I,
    again: &mut J,
    writer: &mut O,
) -> Result<Comparison, PrintFault>
    ensures { IfOk result (λ found. (read : List ℕ) → I.left reader.old ≡ Some read →
        IsComparison text.now other.now read found) }
{
    run_whatif(alloc, false, text, other, reader, again, writer)
}

/// Why a frontend lets a client in or refuses it, as lines, for a client that sends no PROXY header. The configuration may
/// be refused, no frontend may have that name, and there may be no memory.
pub fn explain_client(
    alloc: Global,
    text: &str,
    frontend: &[u8],
    real: Pair,
) -> Result<Vec<u8>, ExplainFault>
    ensures refused { (fault : OpenFault) → result ≡ Err (ExplainFault.Config fault) →
        meaning text.now ≡ Err fault }
{
    let explained = explain(alloc, text, frontend, real, None)?;
    Ok(explained.text)
}

/// Judges one client by a frontend, and writes what its server would get. The fault says whether the configuration is
/// refused, no frontend has that name, a device fails, or there is no memory.
pub fn pipe<I: Input, O: Output>(
    alloc: Global,
    text: &str,
    frontend: &[u8],
    real: Pair,
    client: &mut I,
    server: &mut O,
) -> Result<PipeEnd, PipeFault>
    ensures { IfOk result (λ end. (input sent : List ℕ) →
        I.left client.old ≡ Some input → O.held server.old ≡ Some sent →
        IsPiped text.now frontend.now real input sent (I.left client.new) (O.held server.new) end) }
{
    run_pipe(alloc, text, frontend, real, client, server)
}
