//! A core with its records.
ghost use Rattle.std.specs.Prelude.{◌≡◌, ◌↔◌, ◌<◌, ◌≤◌, ◌+◌, ◌^◌, [], ◌∷◌, ◌++◌, length, IfOk, IfErr, OnErr, OnOk, Err, Ok};
ghost use Rattle.conn_model.specs.Counts.{counts_in, newest_table, open_connections, AreInMemory};
ghost use Rattle.conn_model.specs.HandedIn.{HasPieceInLimit};
ghost use Rattle.conn_model.specs.History.{answer, counts, entry, owned_event};
ghost use Rattle.conn_model.specs.Settings.{settings_in};
ghost use Rattle.record_core.specs.Records.{history_of};
ghost use Rattle.book_core.specs.Open.{connections_ended, connections_opened};
ghost use Rattle.rtrb.specs.Ring.{known_free, known_items, received, sent, ConsumerLooked, IsPair, ProducerLooked, SameProducer};
ghost use Rattle.book_core.specs.Book.{after_cut, book_answer, new_book, segment_of, with_entry, with_ring, IsBook, IsBookFault};

use conn_core::Core;
use conn_model::ask::{Ask, Counts};
use conn_model::event::{ConnId, Event};
use conn_model::plain::Plain;
use conn_model::reply::{Reply, StepFault};
use conn_model::settings::Settings;
use list_core::Seq;
use record_core::{Record, Segment, copy_event, copy_reply};
use rtrb::{Consumer, Producer};
use std::alloc::{AllocFailed, Global};
use std::marker::Model;
use std::mem;

/// What a step answers: the reply, and the number of the record that has it.
#[derive(Debug, Drop)]
pub struct Receipt {
    pub number: u64,
    pub reply: Reply,
}

/// Why nothing was cut.
#[derive(Clone, Copy, Debug, PartialEq, Eq)]
pub enum CutFault {
    /// No record is in memory.
    Nothing,
    /// The ring has no room for a segment.
    Full,
}

/// A core with the records of all that it answered. Those in memory are its journal; a cut hands them over as one
/// segment. It cannot be dropped: it ends by `end`.
pub struct Book {
    alloc: Global,
    core: Core,
    base: Plain,
    journal: Vec<Record>,
    segments: Producer<Segment>,
    made: u64,
}

impl Model for Book {
    ghost use Rattle.book_core.specs.Book.{state_of, BookState, IsBook};

    ghost Value = { BookState };

    ghost view = { λ b. state_of b.base b.journal.items b.segments b.core b.made };

    ghost invariant = { λ b. IsBook (state_of b.base b.journal.items b.segments b.core b.made) };
}

impl Book {
    /// A book over a core, with no record yet, and the ring into which it is to put its segments. Its base is the
    /// state of the core. When it is out of memory, both come back.
    pub fn open(
        alloc: Global,
        core: Core,
        segments: Producer<Segment>,
    ) -> Result<Book, AllocFailed<(Core, Producer<Segment>)>>
        requires { sent segments ≡ [] }
        ensures ok { IfOk result (λ book. book ≡ new_book core segments) }
        ensures legal { IfOk result IsBook }
        ensures err { IfErr result (λ failed. (failed.value.0 ≡ core) × (failed.value.1 ≡ segments)) }
    {
        match core.plain() {
            Ok(base) => Ok(Book {
                alloc,
                core,
                base,
                journal: Vec::new(alloc),
                segments,
                made: 0,
            }),
            Err(_) => Err(AllocFailed {
                value: (core, segments),
            }),
        }
    }

    /// Answers one event and keeps a record of it. `Exhausted` comes first where 2^64 - 1 records were made;
    /// else room for the record is made before the core answers. After a fault nothing is changed.
    pub fn step(&mut self, moment: u64, event: &Event) -> Result<Receipt, StepFault>
        requires piece { HasPieceInLimit (owned_event event.now) }

        // The reply is the answer after the history so far.
        ensures reply { IfOk result (λ receipt. answer self.old.base (history_of self.old.records) moment (owned_event event.now) ≡ Ok receipt.reply) }

        // There is one record more, under the next number, with this moment, this event and this reply.
        ensures number { IfOk result (λ receipt. receipt.number ≡ self.old.made + 1) }
        ensures new { IfOk result (λ receipt. self.new ≡ with_entry self.old (entry moment (owned_event event.now) receipt.reply)) }

        ensures plain_reply { IfOk result (λ receipt. book_answer self.old moment (owned_event event.now) ≡ Ok receipt.reply) }
        ensures fault { IfErr result (IsBookFault self.old (book_answer self.old moment (owned_event event.now))) }
        ensures err { OnErr result (self.new ≡ self.old) }

        // The records are a legal history of such events from the base on, and the core is the state after it.
        ensures legal { IsBook self.new }

        // The connection that the event opened is open besides, and the one that it ended is not open any longer.
        ensures open_connections { IfOk result (λ receipt. open_connections self.new.state + connections_ended (owned_event event.now) receipt.reply.said
            ≡ open_connections self.old.state + connections_opened (owned_event event.now) receipt.reply.said) }

        // Before it fewer were open than were at the base and the number of the record says.
        ensures few { IfOk result (λ receipt. (receipt.number < 2 ^ 64) × (open_connections self.old.state < open_connections self.old.base + receipt.number)) }
    {
        if self.made == u64::MAX {
            return Err(StepFault::Exhausted);
        }
        let Ok(()) = self.journal.reserve(1) else {
            return Err(StepFault::NoMemory);
        };
        let Ok(kept) = copy_event(self.alloc, event) else {
            return Err(StepFault::NoMemory);
        };
        let reply = self.core.step(moment, event)?;
        let number = self.made + 1;
        let receipt = Receipt {
            number,
            reply: copy_reply(&reply),
        };
        self.journal.push_reserved(Record {
            number,
            moment,
            event: kept,
            reply,
        });
        self.made = number;
        Ok(receipt)
    }

    /// Hands the records in memory over as one segment, and forgets them. It takes no memory.
    pub fn cut(&mut self) -> Result<(), CutFault>
        // They are the newest segment in the ring, the journal is empty, and nothing else is changed.
        ensures sent { OnOk result (sent self.new.segments ≡ sent self.old.segments ++ segment_of self.old ∷ []) }
        ensures new { OnOk result (self.new ≡ after_cut self.old self.new.segments) }
        ensures ring { SameProducer self.old.segments self.new.segments }
        ensures free { OnOk result (known_free self.old.segments ≤ known_free self.new.segments + 1) }

        // There was no record, or there is no room; then the ring was looked at, at most, and nothing else is changed.
        ensures nothing { (result ≡ Err CutFault.Nothing) ↔ (self.old.journal ≡ []) }
        ensures full { result ≡ Err CutFault.Full → known_free self.new.segments ≡ 0 }
        ensures err { OnErr result ((self.new ≡ with_ring self.old self.new.segments) × ProducerLooked self.old.segments self.new.segments) }

        ensures legal { IsBook self.new }
    {
        if self.journal.is_empty() {
            return Err(CutFault::Nothing);
        }
        if self.segments.is_full() {
            return Err(CutFault::Full);
        }
        let first = self.made - self.journal.len() as u64 + 1;
        let records = mem::replace(&mut self.journal, Vec::new(self.alloc));
        self.segments.push_reserved(Segment {
            first,
            records: Seq::of(records),
        });
        Ok(())
    }

    /// How many segments are still in the ring. The caller has the other end of it. Then it is known which they are.
    pub fn left(&mut self, segments: &mut Consumer<Segment>) -> usize
        requires { IsPair self.old.segments segments.old }
        ensures value { result ≡ length (known_items segments.new) }
        ensures fifo { received segments.new ++ known_items segments.new ≡ sent self.new.segments }
        ensures consumer { ConsumerLooked segments.old segments.new }
        ensures producer { ProducerLooked self.old.segments self.new.segments }
        ensures new { self.new ≡ with_ring self.old self.new.segments }
        ensures legal { IsBook self.new }
    {
        segments.slots_beside(&mut self.segments)
    }

    /// What is open of that which is asked for, if there is such a thing.
    pub fn counts(&self, ask: &Ask) -> Option<Counts>
        // They are the counts after the history.
        ensures history { result ≡ counts self.now.base (history_of self.now.records) ask.now }
        ensures plain { result ≡ counts_in self.now.state ask.now }
    {
        self.core.counts(ask)
    }

    /// How many entries of the stick table of that number in the newest version are in memory, if there is such a table.
    pub fn entries(&self, number: u16) -> Option<u64>
        ensures { AreInMemory
            (newest_table self.now.state.versions self.now.state.tables number) result }
    {
        self.core.entries(number)
    }

    /// How many versions are kept: the newest, and each that judges an open connection.
    pub fn versions(&self) -> u64
        ensures { result ≡ length self.now.state.versions }
    {
        self.core.versions()
    }

    /// How an open connection is served, by the version that judges it.
    pub fn settings(&self, id: ConnId) -> Option<Settings>
        ensures { result ≡ settings_in self.now.state.frontends self.now.state.versions id }
    {
        self.core.settings(id)
    }

    /// How many records were made.
    pub fn made(&self) -> u64
        ensures { result ≡ self.now.made }
    {
        self.made
    }

    /// The state in which it was opened, from which the records go on.
    pub fn base(&self) -> &Plain
        ensures { result.now ≡ self.now.base }
    {
        &self.base
    }

    /// The records in memory, the oldest first.
    pub fn journal(&self) -> &[Record]
        ensures records { result.now ≡ self.now.journal }
        ensures legal { IsBook self.now }
    {
        self.journal.as_slice()
    }

    /// Ends the core with all that it holds, and forgets the records in memory.
    pub fn end(self) {
        let Book {
            alloc: _,
            core,
            base: _base,
            journal: _journal,
            segments: _segments,
            made: _,
        } = self;
        core.end();
    }
}
