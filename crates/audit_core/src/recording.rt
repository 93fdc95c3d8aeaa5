//! The record of a book, as it is written.
ghost use Rattle.std.specs.Prelude.{◌≡◌, Err, OnOk, OnErr};
ghost use Rattle.std.specs.Io.KnownBytes.{Appends};
ghost use Rattle.device_core.specs.Patience.{IsUnblocked};
ghost use Rattle.record_core.specs.Records.{history_of, AreNumbered};
ghost use Rattle.replay_core.specs.Progress.{GaveUp};
ghost use Rattle.audit_core.specs.Record.{history_text};
ghost use Rattle.audit_core.specs.Recording.{records_text, AppendsFront, Written};

use crate::writing::write_record;
use device_core::{Failed, Output, write_all};
use record_core::Record;
use std::alloc::Global;
use thiserror::Error;

/// From how many bytes on what was made of the record is written, in one block.
const BLOCK: usize = 65_536;

/// For how many bytes a buffer of `write_through` has room, so that no memory is asked for: those of a block, and the
/// longest text that a record of sockets has. That is one of a reload, whose configuration has 1,048,576 bytes on 65,535
/// lines at the most, with a bar before each.
pub const RECORD_BUFFER: usize = 1_310_720;

/// Why a record is not written, or not whole.
#[derive(Clone, Copy, Debug, PartialEq, Eq, Error)]
pub enum RecordFault {
    #[error("cannot be written")]
    Write,
    #[error("no memory")]
    NoMemory,
}

fn write_block<W: Output>(block: &[u8], writer: &mut W) -> Result<(), RecordFault>
    ensures ok { OnOk result (Appends (W.held writer.old) (W.held writer.new) block.now) }
    ensures failures { OnOk result (W.failures writer.new ≡ W.failures writer.old) }
    ensures stalls { OnOk result (IsUnblocked (W.stalls writer.old) (W.stalls writer.new)) }
    ensures front { OnErr result (AppendsFront (W.held writer.old) (W.held writer.new) block.now) }
    ensures gave_up { OnErr result (GaveUp (W.failures writer.old) (W.failures writer.new) (W.stalls writer.old) (W.stalls writer.new)) }
{
    match write_all(writer, block) {
        Ok(()) => Ok(()),
        Err(Failed) => Err(RecordFault::Write),
    }
}

/// Writes the block once it is long.
fn send_block<W: Output>(block: &mut Vec<u8>, writer: &mut W) -> Result<(), RecordFault>
    ensures ok { OnOk result (Written (W.held writer.old) (W.held writer.new) block.new.items block.old.items) }
    ensures failures { OnOk result (W.failures writer.new ≡ W.failures writer.old) }
    ensures stalls { OnOk result (IsUnblocked (W.stalls writer.old) (W.stalls writer.new)) }
    ensures front { OnErr result (AppendsFront (W.held writer.old) (W.held writer.new) block.old.items) }
    ensures gave_up { OnErr result (GaveUp (W.failures writer.old) (W.failures writer.new) (W.stalls writer.old) (W.stalls writer.new)) }
{
    if block.len() < BLOCK {
        return Ok(());
    }
    match write_block(block.as_slice(), writer) {
        Ok(()) => {
            block.clear();
            Ok(())
        }
        Err(fault) => Err(fault),
    }
}

/// Writes the records, the oldest first, each as its lines.
pub fn write_journal<W: Output>(
    alloc: Global,
    records: &[Record],
    writer: &mut W,
) -> Result<(), RecordFault>
    ensures ok { OnOk result (Appends (W.held writer.old) (W.held writer.new) (records_text records.now)) }

    // If the records are numbered from 1, as those of a book are, it is the record of their history.
    ensures history { OnOk result (AreNumbered 1 records.now → Appends (W.held writer.old) (W.held writer.new) (history_text (history_of records.now))) }

    // After a fault the writer has the front of that text.
    ensures front { OnErr result (AppendsFront (W.held writer.old) (W.held writer.new) (records_text records.now)) }

    // The device gives up before the call does.
    ensures gave_up { result ≡ Err RecordFault.Write → GaveUp (W.failures writer.old) (W.failures writer.new) (W.stalls writer.old) (W.stalls writer.new) }
{
    let mut block = Vec::new(alloc);
    write_through(&mut block, records, writer)
}

/// Writes the records as `write_journal` does, through a buffer that the caller keeps. What is in it before the call is
/// dropped, and what is in it afterwards says nothing. More memory is asked for only where a record's text does not fit
/// into it beside 65,535 bytes.
pub fn write_through<W: Output>(
    buffer: &mut Vec<u8>,
    records: &[Record],
    writer: &mut W,
) -> Result<(), RecordFault>
    ensures ok { OnOk result (Appends (W.held writer.old) (W.held writer.new) (records_text records.now)) }

    // After a fault the writer has the front of that text.
    ensures front { OnErr result (AppendsFront (W.held writer.old) (W.held writer.new) (records_text records.now)) }

    // The device gives up before the call does.
    ensures gave_up { result ≡ Err RecordFault.Write → GaveUp (W.failures writer.old) (W.failures writer.new) (W.stalls writer.old) (W.stalls writer.new) }
{
    buffer.clear();
    for record in records {
        match write_record(buffer, record) {
            Ok(()) => send_block(buffer, writer)?,
            Err(_) => return Err(RecordFault::NoMemory),
        }
    }
    write_block(buffer.as_slice(), writer)
}
