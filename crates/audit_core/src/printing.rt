//! The lines of a record that is right are written.
ghost use Rattle.std.specs.Prelude.{◌≡◌, ◌≢◌, ◌⊎◌, ◌-◌, ◌+◌, ◌≤◌, ◌<◌, ◌++◌, ℕ, List, [], length, Some, Ok, Err, OnOk, OnErr, IfErr};
ghost use Rattle.text_core.specs.Parts.{parts, is_line_feed};
ghost use Rattle.device_core.specs.Device.{raised_by};
ghost use Rattle.device_core.specs.Patience.{IsUnblocked};
ghost use Rattle.device_core.specs.declared.patience.TheConstants.{MOST_READS};
ghost use Rattle.line_reader.specs.declared.lines.TheConstants.{MOST_LINE_BYTES};
ghost use Rattle.replay_core.specs.Progress.{GaveUp};
ghost use Rattle.replay_core.specs.Reading.{IsSpent};
ghost use Rattle.replay_core.specs.Replay.{IsFront};
ghost use Rattle.audit_core.specs.Standing.{at_end, on_line, standing_counts, verdict_in, Standing};
ghost use Rattle.audit_core.specs.Ended.{counts_text};
ghost use Rattle.audit_core.specs.Printing.{all_output, counts_at, due_reply, noted_in, noted_with, record_output, second_fault, Sends, Wrote};
ghost use Rattle.audit_core.specs.declared.fault.Checked.{Checked};
ghost use Rattle.audit_core.specs.declared.fault.CheckFault.{CheckFault as Fault};
ghost use Rattle.audit_core.specs.declared.fault.TheConstants.{MOST_RECORD_LINES};

use crate::auditor::Auditor;
use crate::fault::{CheckFault, CheckKind};
use crate::journal::AuditJournal;
use device_core::{Failed, Input, Output, write_all};
use line_reader::{LineReader, Next, ReadFault};
use replay_core::{MOST_UNSENT, PrintFault};
use std::alloc::Global;

/// Writes bytes.
pub fn write_bytes<O: Output>(bytes: &[u8], writer: &mut O) -> Result<(), PrintFault>
    ensures ok { OnOk result ((sent : List ℕ) → O.held writer.old ≡ Some sent → O.held writer.new ≡ Some (sent ++ bytes.now)) }
    ensures failures { OnOk result (O.failures writer.new ≡ O.failures writer.old) }
    ensures stalls { OnOk result (IsUnblocked (O.stalls writer.old) (O.stalls writer.new)) }
    ensures fault { IfErr result (λ f. f ≡ PrintFault.Write) }
    ensures front { OnErr result ((sent rest : List ℕ) → O.held writer.old ≡ Some sent → IsFront (O.held writer.new) (sent ++ bytes.now ++ rest)) }
    ensures gave_up { OnErr result (GaveUp (O.failures writer.old) (O.failures writer.new) (O.stalls writer.old) (O.stalls writer.new)) }
{
    match write_all(writer, bytes) {
        Ok(()) => Ok(()),
        Err(Failed) => Err(PrintFault::Write),
    }
}

/// A record that was right the first time cannot be read if it is wrong now.
pub fn again(fault: &CheckFault) -> PrintFault
    ensures no_memory { fault.now.kind ≡ CheckKind.NoMemory → result ≡ PrintFault.NoMemory }
    ensures either { (result ≡ PrintFault.NoMemory) ⊎ (result ≡ PrintFault.Read) }
{
    match &fault.kind {
        CheckKind::NoMemory => PrintFault::NoMemory,
        _ => PrintFault::Read,
    }
}

/// The same of a fault if no line comes.
pub fn reading_again(fault: ReadFault) -> PrintFault
    ensures { result ≡ second_fault fault }
{
    match fault {
        ReadFault::NoMemory => PrintFault::NoMemory,
        ReadFault::TooLong | ReadFault::Read => PrintFault::Read,
    }
}

/// Takes note of the reply that the next line has to be.
fn note_due(auditor: &Auditor, journal: &mut AuditJournal) -> Result<(), PrintFault>
    ensures noted { OnOk result (noted_in journal.new ≡ noted_with (noted_in journal.old) (due_reply auditor.now.due)) }
    ensures fault { IfErr result (λ f. f ≡ PrintFault.NoMemory) }
{
    match auditor.answered() {
        None => Ok(()),
        Some((peer, reply)) => match journal.note(peer, reply) {
            Ok(()) => Ok(()),
            Err(_) => Err(PrintFault::NoMemory),
        },
    }
}

/// Checks a line once more.
pub fn check_again(auditor: &mut Auditor, line: &[u8]) -> Result<(), PrintFault>
    requires { length line.now ≤ MOST_LINE_BYTES }
    ensures ok { OnOk result (on_line auditor.old line.now ≡ Ok auditor.new) }
    ensures next { OnOk result ((auditor.new.lines ≡ auditor.old.lines + 1) × (auditor.new.lines ≤ MOST_RECORD_LINES)) }
    ensures fault { IfErr result (λ f. (f ≡ PrintFault.NoMemory) ⊎ ((f ≡ PrintFault.Read) × (fault : Fault) × (on_line auditor.old line.now ≡ Err fault))) }
{
    match auditor.check_line(line) {
        Ok(()) => Ok(()),
        Err(fault) => Err(again(&fault)),
    }
}

/// Checks once more that no line is missing.
fn finish_again(auditor: &Auditor) -> Result<(), PrintFault>
    ensures ok { OnOk result (at_end auditor.now ≡ Ok auditor.now) }
    ensures fault { IfErr result (λ f. (f ≡ PrintFault.NoMemory) ⊎ ((f ≡ PrintFault.Read) × (fault : Fault) × (at_end auditor.now ≡ Err fault))) }
{
    match auditor.finish() {
        Ok(()) => Ok(()),
        Err(fault) => Err(again(&fault)),
    }
}

/// Takes note of the reply that a line has to be, and checks the line once more.
fn take_line(
    auditor: &mut Auditor,
    journal: &mut AuditJournal,
    line: &[u8],
) -> Result<(), PrintFault>
    requires { length line.now ≤ MOST_LINE_BYTES }
    ensures ok { OnOk result (on_line auditor.old line.now ≡ Ok auditor.new) }
    ensures next { OnOk result ((auditor.new.lines ≡ auditor.old.lines + 1) × (auditor.new.lines ≤ MOST_RECORD_LINES)) }
    ensures noted { OnOk result (noted_in journal.new ≡ noted_with (noted_in journal.old) (due_reply auditor.old.due)) }
    ensures fault { IfErr result (λ f. (f ≡ PrintFault.NoMemory) ⊎ ((f ≡ PrintFault.Read) × (fault : Fault) × (on_line auditor.old line.now ≡ Err fault))) }
{
    match note_due(auditor, journal) {
        Ok(()) => check_again(auditor, line),
        Err(fault) => Err(fault),
    }
}

/// Writes the lines that were noted.
fn send<O: Output>(journal: &mut AuditJournal, writer: &mut O) -> Result<(), PrintFault>
    ensures ok { OnOk result ((sent : List ℕ) → O.held writer.old ≡ Some sent → O.held writer.new ≡ Some (sent ++ (noted_in journal.old).unsent)) }
    ensures sends { OnOk result ((sent : List ℕ) → O.held writer.old ≡ Some sent → Sends sent (noted_in journal.old) (O.held writer.new) (noted_in journal.new)) }
    ensures empty { OnOk result (noted_in journal.new ≡ record { known = (noted_in journal.old).known; unsent = [] }) }
    ensures failures { OnOk result (O.failures writer.new ≡ O.failures writer.old) }
    ensures stalls { OnOk result (IsUnblocked (O.stalls writer.old) (O.stalls writer.new)) }
    ensures fault { IfErr result (λ f. f ≡ PrintFault.Write) }
    ensures front { OnErr result ((sent rest : List ℕ) → O.held writer.old ≡ Some sent → IsFront (O.held writer.new) (sent ++ (noted_in journal.old).unsent ++ rest)) }
    ensures gave_up { OnErr result (GaveUp (O.failures writer.old) (O.failures writer.new) (O.stalls writer.old) (O.stalls writer.new)) }
{
    match write_bytes(journal.unsent(), writer) {
        Ok(()) => {
            journal.clear();
            Ok(())
        }
        Err(fault) => Err(fault),
    }
}

/// Writes the lines that were noted once they are many.
fn send_many<O: Output>(journal: &mut AuditJournal, writer: &mut O) -> Result<(), PrintFault>
    ensures sends { OnOk result ((sent : List ℕ) → O.held writer.old ≡ Some sent → Sends sent (noted_in journal.old) (O.held writer.new) (noted_in journal.new)) }
    ensures known { OnOk result ((noted_in journal.new).known ≡ (noted_in journal.old).known) }
    ensures failures { OnOk result (O.failures writer.new ≡ O.failures writer.old) }
    ensures stalls { OnOk result (IsUnblocked (O.stalls writer.old) (O.stalls writer.new)) }
    ensures fault { IfErr result (λ f. f ≡ PrintFault.Write) }
    ensures front { OnErr result ((sent rest : List ℕ) → O.held writer.old ≡ Some sent → IsFront (O.held writer.new) (sent ++ (noted_in journal.old).unsent ++ rest)) }
    ensures gave_up { OnErr result (GaveUp (O.failures writer.old) (O.failures writer.new) (O.stalls writer.old) (O.stalls writer.new)) }
{
    if journal.unsent().len() < MOST_UNSENT {
        return Ok(());
    }
    send(journal, writer)
}

/// Reads a record that is right once more, and writes the line of each connection that ended; the last ones are left
/// to be sent.
fn print_lines<I: Input, O: Output>(
    auditor: &mut Auditor,
    journal: &mut AuditJournal,
    lines: &mut LineReader,
    reader: &mut I,
    writer: &mut O,
) -> Result<(), PrintFault>
    requires nothing { lines.old.kept ≡ [] }
    requires reads { lines.old.reads ≡ MOST_READS }
    ensures ok { OnOk result ((text : List ℕ) → I.left reader.old ≡ Some text → verdict_in auditor.old (parts is_line_feed text) ≡ Ok auditor.new) }
    ensures wrote { OnOk result ((text sent : List ℕ) → I.left reader.old ≡ Some text → O.held writer.old ≡ Some sent →
        Wrote sent (noted_in journal.old) auditor.old text (O.held writer.new) (noted_in journal.new)) }
    ensures front { OnErr result ((text sent rest : List ℕ) → I.left reader.old ≡ Some text → O.held writer.old ≡ Some sent →
        IsFront (O.held writer.new) (all_output sent (noted_in journal.old) auditor.old text ++ rest)) }
    ensures calls { I.calls reader.new ≡ raised_by (MOST_READS - lines.new.reads) (I.calls reader.old) }
    ensures no_more { lines.new.reads ≤ MOST_READS }
    ensures spent { result ≡ Err PrintFault.Read → (text : List ℕ) (end : Standing) → I.left reader.old ≡ Some text → verdict_in auditor.old (parts is_line_feed text) ≡ Ok end →
        IsSpent (I.failures reader.old) (I.failures reader.new) (I.stalls reader.old) (I.stalls reader.new) (I.calls reader.old) (I.calls reader.new) }
    ensures unfailed { result ≢ Err PrintFault.Write → O.failures writer.new ≡ O.failures writer.old }
    ensures unblocked { result ≢ Err PrintFault.Write → IsUnblocked (O.stalls writer.old) (O.stalls writer.new) }
    ensures gave_up { result ≡ Err PrintFault.Write → GaveUp (O.failures writer.old) (O.failures writer.new) (O.stalls writer.old) (O.stalls writer.new) }
{
    loop {
        match lines.advance(reader) {
            Ok(Next::Line) => {
                take_line(auditor, journal, lines.line())?;
                send_many(journal, writer)?;
            }
            Ok(Next::LastLine) => {
                take_line(auditor, journal, lines.line())?;
                return finish_again(auditor);
            }
            Ok(Next::End) => return finish_again(auditor),
            Err(fault) => return Err(reading_again(fault)),
        }
    }
}

/// Adds how many entries a record has and how many connections are open, and writes what is noted.
fn print_counts<O: Output>(
    auditor: &Auditor,
    journal: &mut AuditJournal,
    writer: &mut O,
) -> Result<(), PrintFault>
    ensures ok { OnOk result ((sent : List ℕ) → O.held writer.old ≡ Some sent → O.held writer.new ≡ Some (sent ++ ((noted_in journal.old).unsent ++ counts_text (counts_at auditor.now)))) }
    ensures front { OnErr result ((sent : List ℕ) → O.held writer.old ≡ Some sent → IsFront (O.held writer.new) (sent ++ ((noted_in journal.old).unsent ++ counts_text (counts_at auditor.now)))) }
    ensures not_read { result ≢ Err PrintFault.Read }
    ensures gave_up { result ≡ Err PrintFault.Write → GaveUp (O.failures writer.old) (O.failures writer.new) (O.stalls writer.old) (O.stalls writer.new) }
{
    let Ok(live) = auditor.live() else {
        return Err(PrintFault::NoMemory);
    };
    match journal.add_counts(auditor.records(), live) {
        Ok(()) => send(journal, writer),
        Err(_) => Err(PrintFault::NoMemory),
    }
}

/// Writes the lines of a record, and then how many entries it has and how many connections are open.
pub fn print_all<I: Input, O: Output>(
    alloc: Global,
    auditor: &mut Auditor,
    reader: &mut I,
    writer: &mut O,
) -> Result<(), PrintFault>
    ensures ok { OnOk result ((text sent : List ℕ) (checked : Checked) → I.left reader.old ≡ Some text → O.held writer.old ≡ Some sent → standing_counts (verdict_in auditor.old (parts is_line_feed text)) ≡ Ok checked →
        O.held writer.new ≡ Some (sent ++ record_output auditor.old text checked)) }
    ensures front { OnErr result ((text sent : List ℕ) (checked : Checked) → I.left reader.old ≡ Some text → O.held writer.old ≡ Some sent → standing_counts (verdict_in auditor.old (parts is_line_feed text)) ≡ Ok checked →
        IsFront (O.held writer.new) (sent ++ record_output auditor.old text checked)) }
    ensures calls { (n : ℕ) × (n ≤ MOST_READS) × (I.calls reader.new ≡ raised_by n (I.calls reader.old)) }
    ensures spent { result ≡ Err PrintFault.Read → (text : List ℕ) (checked : Checked) → I.left reader.old ≡ Some text → standing_counts (verdict_in auditor.old (parts is_line_feed text)) ≡ Ok checked →
        IsSpent (I.failures reader.old) (I.failures reader.new) (I.stalls reader.old) (I.stalls reader.new) (I.calls reader.old) (I.calls reader.new) }
    ensures gave_up { result ≡ Err PrintFault.Write → GaveUp (O.failures writer.old) (O.failures writer.new) (O.stalls writer.old) (O.stalls writer.new) }
{
    let mut journal = AuditJournal::new(alloc);
    let Ok(mut lines) = LineReader::new(alloc) else {
        return Err(PrintFault::NoMemory);
    };
    print_lines(auditor, &mut journal, &mut lines, reader, writer)?;
    print_counts(auditor, &mut journal, writer)
}
