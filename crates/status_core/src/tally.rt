//! What is counted of the records that go out.
ghost use Rattle.std.specs.Prelude.{◌≡◌, IfOk, vec_len};
ghost use Rattle.status_core.specs.Tally.{all_counted, counted, is_failure};

use crate::decisions::Decisions;
use crate::line_counts::LineCounts;
use conn_model::event::OwnedEvent;
use conn_model::reply::{Cause, Said};
use record_core::Record;
use std::alloc::{AllocError, Global};

/// Counts since the start. Each stays at 2^64 - 1 once it is there.
#[derive(Drop)]
pub struct Tally {
    /// How many connections were accepted, by the number of the frontend.
    pub accepted: Vec<u64>,
    pub decisions: Decisions,
    /// How many were refused by a rule or a limit, by its line.
    pub(crate) by_line: LineCounts,
    /// How many were refused because no backend is named for them, by the line of the frontend.
    pub(crate) no_backend: LineCounts,
    /// How many were refused because the backend has no server for them, by the line of the backend.
    pub(crate) no_server: LineCounts,
}

/// Whether an event says that a server is out of reach.
fn is_failure(event: &OwnedEvent) -> bool
    ensures { result ≡ is_failure event.now }
{
    matches!(event, OwnedEvent::ConnectFailed(_))
}

impl Tally {
    /// Nothing counted, with room for so many frontends.
    pub fn new(alloc: Global, frontends: usize) -> Result<Tally, AllocError>
        ensures { IfOk result (λ tally. vec_len tally.accepted ≡ frontends) }
    {
        Ok(Tally {
            accepted: Vec::from_elem(alloc, 0u64, frontends)?,
            decisions: Decisions::NONE,
            by_line: LineCounts::new(alloc),
            no_backend: LineCounts::new(alloc),
            no_server: LineCounts::new(alloc),
        })
    }

    /// Counts one record more.
    pub fn note(&mut self, entry: &Record)
        ensures { self.new.decisions ≡ counted self.old.decisions entry.now }
    {
        let said = &entry.reply.said;
        self.decisions.note(is_failure(&entry.event), said);
        if matches!(entry.event, OwnedEvent::Accept(..)) {
            self.note_accept(said);
        }
        if let Said::Refuse { cause, .. } = said {
            self.note_line(*cause);
        }
    }

    /// Counts some records more.
    pub fn note_all(&mut self, entries: &[Record])
        ensures { self.new.decisions ≡ all_counted self.old.decisions entries.now }
    {
        for entry in entries {
            self.note(entry);
        }
    }

    /// A connection was accepted, to which this was said.
    fn note_accept(&mut self, said: &Said)
        ensures { self.new.decisions ≡ self.old.decisions }
    {
        if let Said::Wait { id, .. } | Said::Offer { id, .. } | Said::Refuse { id, .. } = said {
            if let Some(count) = self.accepted.get_mut(usize::from(id.frontend)) {
                *count = count.saturating_add(1);
            }
        }
    }

    fn note_line(&mut self, cause: Cause)
        ensures { self.new.decisions ≡ self.old.decisions }
    {
        match cause {
            Cause::Line(line) => self.by_line.add(line, 1),
            Cause::NoBackend(line) => self.no_backend.add(line, 1),
            Cause::NoServer(line) => self.no_server.add(line, 1),
            Cause::Header(_) | Cause::Expired => {}
        }
    }

    /// The same counts, with memory of their own. Lines for which there is no memory are counted together.
    pub fn copy(&self, alloc: Global) -> Result<Tally, AllocError>
        ensures { IfOk result (λ copy. copy.decisions ≡ self.now.decisions) }
    {
        let mut copy = Tally::new(alloc, 0)?;
        for count in self.accepted.iter() {
            copy.accepted.push(*count)?;
        }
        copy.by_line.add_all(&self.by_line);
        copy.no_backend.add_all(&self.no_backend);
        copy.no_server.add_all(&self.no_server);
        copy.decisions = self.decisions;
        Ok(copy)
    }
}
