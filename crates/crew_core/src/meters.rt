//! What is counted while a crew works, and the state that an operator asks for.
use crate::calls::WorkerContext;
use conn_model::ask::Ask;
use desk_core::Opening;
use link_core::{Clock, Gate};
use record_core::Segment;
use status_core::{CrewStatus, Question, Records, Reloads, Sent, Tally, Traffic};
use std::alloc::{AllocError, Global};
use std::sync::atomic::{AtomicU64, Ordering};
use std::sync::ledger::Ledger;
use std::sync::{Mutex, Wait};

/// What is counted while a crew works.
#[derive(Drop)]
pub(crate) struct Meters {
    /// Of the records that went to the sink. The recorder takes its lock once for each segment, and the acceptor where it is
    /// asked for the state; workers do not.
    tally: Mutex<Tally>,
    /// How many records were made.
    made: AtomicU64,
    /// How many segments were put into the ring.
    cut: AtomicU64,
    /// How many of them the sink took or refused, and how many records those have.
    handled: AtomicU64,
    handled_records: AtomicU64,
    /// How many records are in the segments that the sink took.
    written: AtomicU64,
    /// How many bytes were written to servers and to clients.
    to_servers: AtomicU64,
    to_clients: AtomicU64,
    failed_dials: AtomicU64,
    retries: AtomicU64,
}

impl Meters {
    /// With nothing counted, for so many frontends.
    pub(crate) fn new(alloc: Global, frontends: usize) -> Result<Meters, AllocError> {
        Ok(Meters {
            tally: Mutex::new(Tally::new(alloc, frontends)?),
            made: AtomicU64::new(0),
            cut: AtomicU64::new(0),
            handled: AtomicU64::new(0),
            handled_records: AtomicU64::new(0),
            written: AtomicU64::new(0),
            to_servers: AtomicU64::new(0),
            to_clients: AtomicU64::new(0),
            failed_dials: AtomicU64::new(0),
            retries: AtomicU64::new(0),
        })
    }

    /// A record was made.
    pub(crate) fn note_made(&self) {
        let _before = self.made.fetch_add(1, Ordering::SeqCst);
    }

    /// A segment was put into the ring.
    pub(crate) fn note_cut(&self) {
        let _before = self.cut.fetch_add(1, Ordering::SeqCst);
    }

    /// A segment goes to the sink.
    pub(crate) fn note_segment<R: Wait>(&self, rt: &R, segment: &Segment) {
        self.tally.lock(rt).note_all(segment.records.as_slice());
    }

    /// The sink took a segment of so many records, or refused it.
    pub(crate) fn note_handled(&self, records: u64, is_taken: bool) {
        if is_taken {
            let _before = self.written.fetch_add(records, Ordering::SeqCst);
        }
        let _before = self.handled_records.fetch_add(records, Ordering::SeqCst);
        let _before = self.handled.fetch_add(1, Ordering::SeqCst);
    }

    /// So many bytes were written.
    pub(crate) fn note_sent(&self, sent: Sent) {
        if sent.to_servers > 0 {
            let _before = self.to_servers.fetch_add(sent.to_servers, Ordering::SeqCst);
        }
        if sent.to_clients > 0 {
            let _before = self.to_clients.fetch_add(sent.to_clients, Ordering::SeqCst);
        }
    }

    /// A server refused a connection, or did not answer in time.
    pub(crate) fn note_failed_dial(&self) {
        let _before = self.failed_dials.fetch_add(1, Ordering::SeqCst);
    }

    /// A server is dialled again.
    pub(crate) fn note_retry(&self) {
        let _before = self.retries.fetch_add(1, Ordering::SeqCst);
    }

    fn traffic(&self) -> Traffic {
        Traffic {
            sent: Sent {
                to_servers: self.to_servers.load(Ordering::SeqCst),
                to_clients: self.to_clients.load(Ordering::SeqCst),
            },
            failed_dials: self.failed_dials.load(Ordering::SeqCst),
            retries: self.retries.load(Ordering::SeqCst),
        }
    }

    /// The records, where the sink refused so many segments.
    fn records(&self, refused: u64) -> Records {
        // In this order: what goes out between the reads does not make a difference negative.
        let written = self.written.load(Ordering::SeqCst);
        let handled_records = self.handled_records.load(Ordering::SeqCst);
        let handled = self.handled.load(Ordering::SeqCst);
        let cut = self.cut.load(Ordering::SeqCst);
        let made = self.made.load(Ordering::SeqCst);
        Records {
            made,
            written,
            waiting: made.saturating_sub(handled_records),
            segments_waiting: cut.saturating_sub(handled),
            segments_refused: refused,
        }
    }
}

impl<'a, M: Ledger, O: Ledger, B: Opening, G: Gate, C: Clock> WorkerContext<'a, M, O, B, G, C> {
    /// The state of the crew, with what is asked for. The desk's lock is taken for each part of it, so that no worker waits
    /// for more than one.
    pub(crate) fn status<R: Wait>(
        &self,
        rt: &R,
        question: &Question,
        reloads: Reloads,
    ) -> Result<CrewStatus, AllocError> {
        let connections = self.connections(rt, question.asks.as_slice())?;
        let entries = self.entries(rt, question.tables)?;
        let tally = self.meters.tally.lock(rt).copy(self.alloc)?;
        Ok(CrewStatus {
            connections,
            entries,
            versions: self.desk.versions(rt),
            tally,
            traffic: self.meters.traffic(),
            records: self.meters.records(self.alert.refused()),
            reloads,
        })
    }

    /// How many connections are open to each of these.
    fn connections<R: Wait>(&self, rt: &R, asks: &[Ask]) -> Result<Vec<u64>, AllocError> {
        let mut connections = Vec::with_capacity(self.alloc, asks.len())?;
        for ask in asks {
            let count = match self.desk.ask(rt, ask) {
                Some(counts) => counts.cur,
                None => 0,
            };
            connections.push(count)?;
        }
        Ok(connections)
    }

    /// How many entries of each of the first stick tables are in memory.
    fn entries<R: Wait>(&self, rt: &R, tables: u16) -> Result<Vec<u64>, AllocError> {
        let mut entries = Vec::with_capacity(self.alloc, usize::from(tables))?;
        for number in 0..tables {
            entries.push(self.desk.entries(rt, number).unwrap_or(0))?;
        }
        Ok(entries)
    }
}
