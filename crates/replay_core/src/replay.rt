//! Replays of scripts.
ghost use Rattle.std.specs.Prelude.{◌≡◌, ◌≢◌, ◌⊎◌, ◌≤◌, ◌<◌, ◌++◌, ℕ, List, [], length, Option, Some, None, Ok, Err, IfOk, IfErr, OnOk, true, false};
ghost use Rattle.device_core.specs.Device.{raised_by};
ghost use Rattle.device_core.specs.declared.patience.TheConstants.{MOST_READS};
ghost use Rattle.plan_types.specs.declared.plan.Plan.{Plan};
ghost use Rattle.conn_model.specs.History.{IsWell};
ghost use Rattle.conn_model.specs.declared.event.TheConstants.{PIECE_LIMIT};
ghost use Rattle.config_core.specs.Meaning.{meaning};
ghost use Rattle.conn_core.specs.Machine.{IsOpened};
ghost use Rattle.config_core.specs.declared.fault.OpenFault.{OpenFault};
ghost use Rattle.replay_core.specs.Replay.{IsEndedBy, IsReplayed};
ghost use Rattle.replay_core.specs.Progress.{GaveUp, ReplayProgress};
ghost use Rattle.replay_core.specs.Reading.{Ends, IsSpent, Stops, WritesAll, writes_answers};

use crate::fault::ReplayFault;
use crate::reading::answer_all;
use crate::session::Session;
use conn_core::{Core, OpenFault};
use conn_model::event::PIECE_LIMIT;
use device_core::{Input, Output};
use line_reader::LineReader;
use std::alloc::{AllocError, Global};

/// What a replay did.
#[derive(Clone, Copy)]
pub struct Replayed {
    /// How many events were answered.
    pub lines: u64,
}

/// Whether what was answered before the fault is still written.
fn writes_answers(fault: &ReplayFault) -> bool
    ensures { result ≡ writes_answers fault.now }
{
    match fault {
        ReplayFault::Format(_) | ReplayFault::TooLong(_) | ReplayFault::Read => true,
        ReplayFault::Config(_) | ReplayFault::Write | ReplayFault::NoMemory => false,
    }
}

/// Writes what was answered before a fault, and says which fault ends the replay.
fn finish<O: Output>(session: &mut Session, fault: ReplayFault, writer: &mut O) -> ReplayFault
    ensures early_end { (sent : List ℕ) (s : ReplayProgress) (script : List ℕ) (left : Option (List ℕ)) →
        Stops sent s script left (O.held writer.old) session.old fault → Ends sent s script left (O.held writer.new) session.new.answered result }
    ensures gave_up { result ≡ ReplayFault.Write →
        ((fault ≡ ReplayFault.Write) × (writer.new ≡ writer.old)) ⊎ ((fault ≢ ReplayFault.Write) × GaveUp (O.failures writer.old) (O.failures writer.new) (O.stalls writer.old) (O.stalls writer.new)) }
    ensures read { result ≡ ReplayFault.Read → fault ≡ ReplayFault.Read }
    ensures config { (o : OpenFault) → result ≡ ReplayFault.Config o → fault ≡ ReplayFault.Config o }
{
    if !writes_answers(&fault) {
        return fault;
    }
    match session.send(writer) {
        Ok(()) => fault,
        Err(stop) => stop,
    }
}

/// Answers all of a script, and writes all answers.
fn answer_and_send<I: Input, O: Output>(
    alloc: Global,
    session: &mut Session,
    reader: &mut I,
    writer: &mut O,
) -> Result<(), ReplayFault>
    ensures ok { OnOk result ((script sent : List ℕ) → I.left reader.old ≡ Some script → O.held writer.old ≡ Some sent →
        WritesAll sent session.old script (O.held writer.new) session.new.answered None) }
    ensures early_end { IfErr result (λ f. (script sent : List ℕ) → I.left reader.old ≡ Some script → O.held writer.old ≡ Some sent →
        Ends sent session.old script (I.left reader.new) (O.held writer.new) session.new.answered f) }
    ensures calls { (n : ℕ) × (n ≤ MOST_READS) × (I.calls reader.new ≡ raised_by n (I.calls reader.old)) }
    ensures spent { result ≡ Err ReplayFault.Read → IsSpent (I.failures reader.old) (I.failures reader.new) (I.stalls reader.old) (I.stalls reader.new) (I.calls reader.old) (I.calls reader.new) }
    ensures gave_up { result ≡ Err ReplayFault.Write → GaveUp (O.failures writer.old) (O.failures writer.new) (O.stalls writer.old) (O.stalls writer.new) }
    ensures not_config { (o : OpenFault) → result ≢ Err (ReplayFault.Config o) }
{
    let Ok(mut lines) = LineReader::new(alloc) else {
        return Err(ReplayFault::NoMemory);
    };
    match answer_all(session, &mut lines, reader, writer) {
        Ok(()) => {
            session.send(writer)?;
            Ok(())
        }
        Err(fault) => Err(finish(session, fault, writer)),
    }
}

/// A core on the configuration.
fn open_core(alloc: Global, config: &str) -> Result<Core, ReplayFault>
    ensures ok { IfOk result (λ core. IsOpened config.now 0 core) }
    ensures well { IfOk result IsWell }
    ensures fault { IfErr result (λ f. (f ≡ ReplayFault.NoMemory) ⊎ ((o : OpenFault) × (f ≡ ReplayFault.Config o) × (meaning config.now ≡ Err o))) }
{
    match Core::open(alloc, config) {
        Ok(core) => Ok(core),
        Err(OpenFault::NoMemory) => Err(ReplayFault::NoMemory),
        Err(fault) => Err(ReplayFault::Config(fault)),
    }
}

/// Room for the piece of a line.
fn piece_buffer(alloc: Global) -> Result<Vec<u8>, AllocError>
    ensures { IfOk result (λ piece. length piece.items ≡ PIECE_LIMIT) }
{
    Ok(vec![in alloc; 0; PIECE_LIMIT]?)
}

/// Opens a core on the configuration and answers each event of the script with one line. A reload is answered after the
/// lines of its text. A line that has not its form ends the replay, after the answers to all events before it. At most
/// `device_core::MOST_READS` reads are made.
pub fn run_replay<I: Input, O: Output>(
    alloc: Global,
    config: &str,
    reader: &mut I,
    writer: &mut O,
) -> Result<Replayed, ReplayFault>
    // What was written is what is answered over the history from the opening on.
    ensures ok { IfOk result (λ r. (script sent : List ℕ) → I.left reader.old ≡ Some script → O.held writer.old ≡ Some sent →
        IsReplayed config.now script sent (O.held writer.new) r.lines) }
    ensures early_end { IfErr result (λ f. (script sent : List ℕ) → I.left reader.old ≡ Some script → O.held writer.old ≡ Some sent →
        IsEndedBy config.now script sent (I.left reader.new) (O.held writer.new) f) }

    // The configuration is opened exactly where it has a meaning.
    ensures opened { IfOk result (λ _. (plan : Plan) × (meaning config.now ≡ Ok plan)) }
    ensures refused { (o : OpenFault) → result ≡ Err (ReplayFault.Config o) → (meaning config.now ≡ Err o) × (writer.new ≡ writer.old) }

    // The devices give up before the replay does.
    ensures calls { (n : ℕ) × (n ≤ MOST_READS) × (I.calls reader.new ≡ raised_by n (I.calls reader.old)) }
    ensures spent { result ≡ Err ReplayFault.Read → IsSpent (I.failures reader.old) (I.failures reader.new) (I.stalls reader.old) (I.stalls reader.new) (I.calls reader.old) (I.calls reader.new) }
    ensures gave_up { result ≡ Err ReplayFault.Write → GaveUp (O.failures writer.old) (O.failures writer.new) (O.stalls writer.old) (O.stalls writer.new) }
{
    let Ok(piece) = piece_buffer(alloc) else {
        return Err(ReplayFault::NoMemory);
    };
    let core = match open_core(alloc, config) {
        Ok(core) => core,
        Err(fault) => return Err(fault),
    };
    let mut session = Session::new(alloc, core, piece);
    let replayed = answer_and_send(alloc, &mut session, reader, writer);
    let lines = session.end();
    match replayed {
        Ok(()) => Ok(Replayed { lines }),
        Err(fault) => Err(fault),
    }
}
