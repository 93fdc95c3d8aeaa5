//! A writer of the record.
ghost use Rattle.std.specs.Prelude.{◌≡◌, ◌≤◌, Err, IsSome, None, OnErr, OnOk, Some, vec_capacity};
ghost use Rattle.std.specs.Io.KnownBytes.{Appends};
ghost use Rattle.audit_core.specs.Recording.{records_text, AppendsFront};
ghost use Rattle.audit_core.specs.declared.recording.TheConstants.{RECORD_BUFFER};
ghost use Rattle.book_core.specs.Book.{IsBook};
ghost use Rattle.crew_core.specs.Writers.{HasGivenUp, Refuses, Writes};

use crate::outlet::{Sink, SinkFault};
use audit_core::{RecordFault, write_through};
use book_core::Book;
use device_core::Output;
use record_core::Segment;

/// Writes segments as text, up to the first that the writer does not take whole. A record with a gap could not be checked,
/// so all after that one are refused.
#[derive(Drop)]
pub(crate) struct RecordSink<W: Output> {
    /// What each segment is written through. It is kept, so that a moment out of memory does not end the record.
    buffer: Vec<u8>,
    writer: W,
    fault: Option<RecordFault>,
}

impl<W: Output + Drop> RecordSink<W> {
    /// A sink that asks for no memory later, since any record of `serve` has room in the buffer.
    pub(crate) fn new(buffer: Vec<u8>, writer: W) -> RecordSink<W>
        requires room { RECORD_BUFFER ≤ vec_capacity buffer }
        ensures writer { result.writer ≡ writer }
        ensures fault { result.fault ≡ None }
    {
        RecordSink {
            buffer,
            writer,
            fault: None,
        }
    }

    /// Writes what the book has in memory, unless a segment was refused: then that is the fault. It cannot be written
    /// only if the writer gave up.
    pub(crate) fn finish(self, book: &Book) -> (Result<(), RecordFault>, W)
        ensures ok { OnOk result.0 ((self.fault ≡ None) × Appends (W.held self.writer) (W.held result.1) (records_text book.now.journal)) }
        ensures refused { IsSome self.fault → result.1 ≡ self.writer }
        ensures stays { (fault : RecordFault) → self.fault ≡ Some fault → result.0 ≡ Err fault }
        ensures gave_up { self.fault ≡ None → result.0 ≡ Err RecordFault.Write →
            HasGivenUp W.failures W.stalls self.writer result.1 }
        ensures front { OnErr result.0 (self.fault ≡ None → AppendsFront (W.held self.writer) (W.held result.1) (records_text book.now.journal)) }
        ensures legal { IsBook book.now }
    {
        let RecordSink {
            mut buffer,
            mut writer,
            fault,
        } = self;
        let journal = book.journal();
        let written = match fault {
            Some(fault) => Err(fault),
            None => write_through(&mut buffer, journal, &mut writer),
        };
        (written, writer)
    }
}

impl<W: Output + Drop> Sink for RecordSink<W> {
    ghost use Rattle.crew_core.specs.Writers.{Refuses, Writes};

    ghost takes = { Writes W.held };

    ghost refuses = { Refuses W.held };

    /// What cannot be written is refused only after the writer gave up, and the first fault stays.
    fn take(&mut self, segment: Segment) -> Result<(), SinkFault>
        ensures ok { OnOk result (Writes W.held self.old segment self.new) }
        ensures err { OnErr result (Refuses W.held self.old segment self.new) }
        ensures gave_up { self.old.fault ≡ None → self.new.fault ≡ Some RecordFault.Write →
            HasGivenUp W.failures W.stalls self.old.writer self.new.writer }
        ensures stays { IsSome self.old.fault → self.new ≡ self.old }
    {
        if self.fault.is_some() {
            return Err(SinkFault);
        }
        let records = segment.records.as_slice();
        match write_through(&mut self.buffer, records, &mut self.writer) {
            Ok(()) => Ok(()),
            Err(fault) => {
                self.fault = Some(fault);
                Err(SinkFault)
            }
        }
    }
}
