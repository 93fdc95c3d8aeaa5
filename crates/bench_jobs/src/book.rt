//! A book whose record is written as it grows.
ghost use Rattle.conn_model.specs.HandedIn.{HasPieceInLimit};
ghost use Rattle.conn_model.specs.History.{owned_event};

use crate::job::JobFault;
use audit_core::write_journal;
use book_core::Book;
use conn_core::{Core, OpenFault};
use conn_model::event::Event;
use conn_model::reply::Said;
use device_core::{MemoryOutput, Schedule};
use record_core::Segment;
use rtrb::{Consumer, RingBuffer};
use std::alloc::Global;

/// How many segments may wait to be written.
const RING: usize = 4;

/// A book, the end of its ring from which its segments are written, and where to.
pub struct Keeper {
    pub book: Book,
    segments: Consumer<Segment>,
    record: MemoryOutput,
    /// How many events were refused with a fault.
    pub faults: u64,
}

/// A book over a core, whose record has so much room.
fn keep(alloc: Global, core: Core, room: usize) -> Result<Keeper, JobFault> {
    let (Ok((producer, segments)), Ok(record)) = (
        RingBuffer::new(alloc, RING),
        MemoryOutput::new(alloc, room, Schedule::plain(alloc)),
    ) else {
        core.end();
        return Err(JobFault::NoMemory);
    };
    match Book::open(alloc, core, producer) {
        Ok(book) => Ok(Keeper {
            book,
            segments,
            record,
            faults: 0,
        }),
        Err(failed) => {
            let (core, _producer) = failed.value;
            core.end();
            Err(JobFault::NoMemory)
        }
    }
}

/// A core that opened a configuration.
pub fn open_core(alloc: Global, text: &str) -> Result<Core, JobFault> {
    match Core::open(alloc, text) {
        Ok(core) => Ok(core),
        Err(OpenFault::NoMemory) => Err(JobFault::NoMemory),
        Err(_) => Err(JobFault::Config),
    }
}

impl Keeper {
    pub fn open(alloc: Global, text: &str, room: usize) -> Result<Keeper, JobFault> {
        let core = open_core(alloc, text)?;
        keep(alloc, core, room)
    }

    /// Hands in an event. What is said is answered, unless it is a fault.
    pub fn step(&mut self, moment: u64, event: &Event) -> Option<Said>
        requires piece { HasPieceInLimit (owned_event event.now) }
    {
        match self.book.step(moment, event) {
            Ok(receipt) => Some(receipt.reply.said),
            Err(_) => {
                self.faults = self.faults.saturating_add(1);
                None
            }
        }
    }

    /// Writes what was answered since it was written last.
    pub fn write(&mut self, alloc: Global) -> Result<(), JobFault> {
        let _cut = self.book.cut();
        let Ok(segment) = self.segments.pop() else {
            return Ok(());
        };
        match write_journal(alloc, segment.records.as_slice(), &mut self.record) {
            Ok(()) => Ok(()),
            Err(_) => Err(JobFault::Device),
        }
    }

    /// Ends the book, and gives its record and the number of faults.
    pub fn end(self) -> (MemoryOutput, u64) {
        let Keeper {
            book,
            segments: _segments,
            record,
            faults,
        } = self;
        book.end();
        (record, faults)
    }
}
