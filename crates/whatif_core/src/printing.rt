//! The differences of a record that is right are written.
ghost use Rattle.std.specs.Prelude.{◌≡◌, ◌≢◌, ◌⊎◌, ◌-◌, ◌+◌, ◌≤◌, ◌++◌, ℕ, List, [], length, Some, Ok, Err, OnOk, OnErr, IfOk, IfErr};
ghost use Rattle.text_core.specs.Parts.{parts, is_line_feed};
ghost use Rattle.device_core.specs.Device.{raised_by};
ghost use Rattle.device_core.specs.Patience.{IsUnblocked};
ghost use Rattle.device_core.specs.declared.patience.TheConstants.{MOST_READS};
ghost use Rattle.line_reader.specs.declared.lines.TheConstants.{MOST_LINE_BYTES};
ghost use Rattle.replay_core.specs.Progress.{GaveUp};
ghost use Rattle.replay_core.specs.Reading.{IsSpent};
ghost use Rattle.replay_core.specs.Replay.{IsFront};
ghost use Rattle.audit_core.specs.Standing.{verdict_in, Standing};
ghost use Rattle.audit_core.specs.declared.fault.CheckFault.{CheckFault as Fault};
ghost use Rattle.audit_core.specs.declared.fault.TheConstants.{MOST_RECORD_LINES};
ghost use Rattle.whatif_core.specs.Lines.{both_on, report_of_record, turn_at};
ghost use Rattle.whatif_core.specs.Noting.{whole_report, noted_in, noted_with, Printed, Sends, Wrote};
ghost use Rattle.whatif_core.specs.Sums.{sums_text};
ghost use Rattle.whatif_core.specs.Reporting.{written_of};

use crate::journal::WhatifJournal;
use crate::twin::Twin;
use audit_core::{reading_again, write_bytes};
use device_core::{Input, Output};
use line_reader::{LineReader, Next};
use replay_core::{MOST_UNSENT, PrintFault};
use std::alloc::Global;

/// Takes a line, and adds to the journal what both say of the entry that begins there.
fn take_line(twin: &mut Twin, journal: &mut WhatifJournal, line: &[u8]) -> Result<(), PrintFault>
    requires { length line.now ≤ MOST_LINE_BYTES }
    ensures ok { OnOk result (both_on twin.old line.now ≡ Ok twin.new) }
    ensures next { OnOk result ((twin.new.checked.lines ≡ twin.old.checked.lines + 1) × (twin.new.checked.lines ≤ MOST_RECORD_LINES)) }
    ensures noted { OnOk result (noted_in journal.new ≡ noted_with (noted_in journal.old) (turn_at twin.old line.now)) }
    ensures fault { IfErr result (λ f. (f ≡ PrintFault.NoMemory) ⊎ ((f ≡ PrintFault.Read) × (fault : Fault) × (both_on twin.old line.now ≡ Err fault))) }
{
    match twin.take_line(line) {
        Ok(None) => Ok(()),
        Ok(Some(turn)) => match journal.note(&turn) {
            Ok(()) => Ok(()),
            Err(_) => Err(PrintFault::NoMemory),
        },
        Err(fault) => Err(fault),
    }
}

/// Writes the lines of a journal.
fn send<O: Output>(journal: &mut WhatifJournal, writer: &mut O) -> Result<(), PrintFault>
    ensures ok { OnOk result ((sent : List ℕ) → O.held writer.old ≡ Some sent → O.held writer.new ≡ Some (sent ++ (noted_in journal.old).unsent)) }
    ensures sends { OnOk result ((sent : List ℕ) → O.held writer.old ≡ Some sent → Sends sent (noted_in journal.old) (O.held writer.new) (noted_in journal.new)) }
    ensures empty { OnOk result (noted_in journal.new ≡ record (noted_in journal.old) { unsent = [] }) }
    ensures failures { OnOk result (O.failures writer.new ≡ O.failures writer.old) }
    ensures stalls { OnOk result (IsUnblocked (O.stalls writer.old) (O.stalls writer.new)) }
    ensures fault { IfErr result (λ f. f ≡ PrintFault.Write) }
    ensures front { OnErr result ((sent rest : List ℕ) → O.held writer.old ≡ Some sent → IsFront (O.held writer.new) (sent ++ (noted_in journal.old).unsent ++ rest)) }
    ensures gave_up { OnErr result (GaveUp (O.failures writer.old) (O.failures writer.new) (O.stalls writer.old) (O.stalls writer.new)) }
{
    match write_bytes(journal.unsent(), writer) {
        Ok(()) => {
            journal.clear();
            Ok(())
        }
        Err(fault) => Err(fault),
    }
}

/// Writes the lines of a journal once they are many.
fn send_many<O: Output>(journal: &mut WhatifJournal, writer: &mut O) -> Result<(), PrintFault>
    ensures sends { OnOk result ((sent : List ℕ) → O.held writer.old ≡ Some sent → Sends sent (noted_in journal.old) (O.held writer.new) (noted_in journal.new)) }
    ensures others { OnOk result (noted_in journal.new ≡ record (noted_in journal.old) { unsent = (noted_in journal.new).unsent }) }
    ensures failures { OnOk result (O.failures writer.new ≡ O.failures writer.old) }
    ensures stalls { OnOk result (IsUnblocked (O.stalls writer.old) (O.stalls writer.new)) }
    ensures fault { IfErr result (λ f. f ≡ PrintFault.Write) }
    ensures front { OnErr result ((sent rest : List ℕ) → O.held writer.old ≡ Some sent → IsFront (O.held writer.new) (sent ++ (noted_in journal.old).unsent ++ rest)) }
    ensures gave_up { OnErr result (GaveUp (O.failures writer.old) (O.failures writer.new) (O.stalls writer.old) (O.stalls writer.new)) }
{
    if journal.unsent().len() < MOST_UNSENT {
        return Ok(());
    }
    send(journal, writer)
}

/// Reads a record that is right once more, and writes the line of each decision that differs and of each connection that
/// is lost or saved; the last ones are left to be sent.
fn print_lines<I: Input, O: Output>(
    twin: &mut Twin,
    journal: &mut WhatifJournal,
    lines: &mut LineReader,
    reader: &mut I,
    writer: &mut O,
) -> Result<(), PrintFault>
    requires nothing { lines.old.kept ≡ [] }
    requires reads { lines.old.reads ≡ MOST_READS }
    ensures wrote { OnOk result ((text sent : List ℕ) → I.left reader.old ≡ Some text → O.held writer.old ≡ Some sent →
        Wrote sent (noted_in journal.old) twin.old text (O.held writer.new) (noted_in journal.new) twin.new) }
    ensures front { OnErr result ((text sent rest : List ℕ) → I.left reader.old ≡ Some text → O.held writer.old ≡ Some sent →
        IsFront (O.held writer.new) ((whole_report sent (noted_in journal.old) twin.old text).text ++ rest)) }
    ensures calls { I.calls reader.new ≡ raised_by (MOST_READS - lines.new.reads) (I.calls reader.old) }
    ensures no_more { lines.new.reads ≤ MOST_READS }
    ensures spent { result ≡ Err PrintFault.Read → (text : List ℕ) (end : Standing) → I.left reader.old ≡ Some text → verdict_in twin.old.checked (parts is_line_feed text) ≡ Ok end →
        IsSpent (I.failures reader.old) (I.failures reader.new) (I.stalls reader.old) (I.stalls reader.new) (I.calls reader.old) (I.calls reader.new) }
    ensures unfailed { result ≢ Err PrintFault.Write → O.failures writer.new ≡ O.failures writer.old }
    ensures unblocked { result ≢ Err PrintFault.Write → IsUnblocked (O.stalls writer.old) (O.stalls writer.new) }
    ensures gave_up { result ≡ Err PrintFault.Write → GaveUp (O.failures writer.old) (O.failures writer.new) (O.stalls writer.old) (O.stalls writer.new) }
{
    loop {
        match lines.advance(reader) {
            Ok(Next::Line) => {
                take_line(twin, journal, lines.line())?;
                send_many(journal, writer)?;
            }
            Ok(Next::LastLine) => {
                take_line(twin, journal, lines.line())?;
                return twin.finish();
            }
            Ok(Next::End) => return twin.finish(),
            Err(fault) => return Err(reading_again(fault)),
        }
    }
}

/// Adds the counts, and writes what is left in the journal.
fn print_sums<O: Output>(journal: &mut WhatifJournal, writer: &mut O) -> Result<u64, PrintFault>
    ensures ok { OnOk result ((sent : List ℕ) → O.held writer.old ≡ Some sent → O.held writer.new ≡ Some (sent ++ ((noted_in journal.old).unsent ++ sums_text (noted_in journal.old).sums))) }
    ensures differing { IfOk result (λ count. count ≡ (noted_in journal.old).sums.differing) }
    ensures front { OnErr result ((sent : List ℕ) → O.held writer.old ≡ Some sent → IsFront (O.held writer.new) (sent ++ ((noted_in journal.old).unsent ++ sums_text (noted_in journal.old).sums))) }
    ensures not_read { result ≢ Err PrintFault.Read }
    ensures gave_up { result ≡ Err PrintFault.Write → GaveUp (O.failures writer.old) (O.failures writer.new) (O.stalls writer.old) (O.stalls writer.new) }
{
    let differing = journal.differing();
    match journal.add_sums() {
        Ok(()) => match send(journal, writer) {
            Ok(()) => Ok(differing),
            Err(fault) => Err(fault),
        },
        Err(_) => Err(PrintFault::NoMemory),
    }
}

/// Writes the differences of a record, unless a summary is wanted, and then what was counted, and answers how often
/// anything differs.
pub fn print_all<I: Input, O: Output>(
    alloc: Global,
    summary: bool,
    twin: &mut Twin,
    reader: &mut I,
    writer: &mut O,
) -> Result<u64, PrintFault>
    ensures ok { IfOk result (λ differing. (text sent : List ℕ) →
        I.left reader.old ≡ Some text → O.held writer.old ≡ Some sent →
        Printed summary twin.old text sent (O.held writer.new) differing) }
    ensures front { OnErr result ((text sent : List ℕ) → I.left reader.old ≡ Some text → O.held writer.old ≡ Some sent →
        IsFront (O.held writer.new) (sent ++ written_of (report_of_record summary twin.old text))) }
    ensures calls { (n : ℕ) × (n ≤ MOST_READS) × (I.calls reader.new ≡ raised_by n (I.calls reader.old)) }
    ensures spent { result ≡ Err PrintFault.Read → (text : List ℕ) (end : Standing) → I.left reader.old ≡ Some text → verdict_in twin.old.checked (parts is_line_feed text) ≡ Ok end →
        IsSpent (I.failures reader.old) (I.failures reader.new) (I.stalls reader.old) (I.stalls reader.new) (I.calls reader.old) (I.calls reader.new) }
    ensures gave_up { result ≡ Err PrintFault.Write → GaveUp (O.failures writer.old) (O.failures writer.new) (O.stalls writer.old) (O.stalls writer.new) }
{
    let mut journal = WhatifJournal::new(alloc, summary);
    let Ok(mut lines) = LineReader::new(alloc) else {
        return Err(PrintFault::NoMemory);
    };
    print_lines(twin, &mut journal, &mut lines, reader, writer)?;
    print_sums(&mut journal, writer)
}
