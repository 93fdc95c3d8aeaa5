//! The journal of a comparison: the peers of the connections that wait, the lines that are not yet written, and the
//! counts.
ghost use Rattle.std.specs.Prelude.{◌≡◌, ◌++◌, [], Option, Some, OnOk};
ghost use Rattle.whatif_core.specs.Noting.{noted_in, noted_with, nothing_noted};
ghost use Rattle.whatif_core.specs.Sums.{sums_text, sums_with};
ghost use Rattle.whatif_core.specs.Deciding.{difference};
ghost use Rattle.whatif_core.specs.Reporting.{line_by, peers_on, real_of, shown, turn_line, waiting, with_peer};

use crate::decision::ComparedDecision;
use crate::tally::DecisionTally;
use crate::text::{write_difference, write_parting};
use crate::turn::Turn;
use addr_core::Endpoint;
use audit_core::Name;
use conn_model::event::ConnId;
use std::alloc::{AllocError, Global};
use std::collections::BTreeMap;

/// That peer, if the connection waits.
fn waiting(was: &Option<ComparedDecision>, peer: Option<Endpoint>) -> Option<Endpoint>
    ensures { result ≡ waiting was.now peer }
{
    match was {
        Some(ComparedDecision::Wait) => peer,
        Some(ComparedDecision::Offer { .. } | ComparedDecision::Refuse(_)) | None => None,
    }
}

/// The peers of the connections that wait, the lines that are not yet written, and the counts.
#[derive(Drop)]
pub struct WhatifJournal {
    /// Whether the lines are left out.
    summary: bool,
    peers: BTreeMap<Name, Endpoint>,
    unsent: Vec<u8>,
    tally: DecisionTally,
}

impl WhatifJournal {
    /// A journal without lines, if only a summary is wanted.
    pub fn new(alloc: Global, summary: bool) -> Self
        ensures { noted_in result ≡ nothing_noted summary }
    {
        WhatifJournal {
            summary,
            peers: BTreeMap::new(alloc),
            unsent: Vec::new(alloc),
            tally: DecisionTally::new(alloc),
        }
    }

    /// The lines that are not yet written.
    pub fn unsent(&self) -> &[u8]
        ensures { result.now ≡ (noted_in self.now).unsent }
    {
        self.unsent.as_slice()
    }

    /// How often anything differs.
    pub fn differing(&self) -> u64
        ensures { result ≡ (noted_in self.now).sums.differing }
    {
        self.tally.differing()
    }

    /// Forgets lines that were written.
    pub fn clear(&mut self)
        ensures { noted_in self.new ≡ record (noted_in self.old) { unsent = [] } }
    {
        self.unsent.clear();
    }

    /// Adds what both balancers say of an entry.
    pub fn note(&mut self, turn: &Turn) -> Result<(), AllocError>
        ensures { OnOk result (noted_in self.new ≡ noted_with (noted_in self.old) (Some turn.now)) }
    {
        self.note_line(turn)?;
        self.note_peer(turn)?;
        self.tally.count(turn)
    }

    /// Adds the lines of the counts.
    pub fn add_sums(&mut self) -> Result<(), AllocError>
        ensures { OnOk result (noted_in self.new ≡ record (noted_in self.old) { unsent = (noted_in self.old).unsent ++ sums_text (noted_in self.old).sums }) }
    {
        self.tally.write(&mut self.unsent)
    }

    /// The peer that comes with an accept, or the one that is known of a connection that waits.
    fn real(&self, id: &ConnId, peer: Option<Endpoint>) -> Option<Endpoint>
        ensures { result ≡ real_of peer ((noted_in self.now).peers id.now) }
    {
        match peer {
            Some(peer) => Some(peer),
            None => self.peers.get(&Name::of(id)).copied(),
        }
    }

    fn note_line(&mut self, turn: &Turn) -> Result<(), AllocError>
        ensures { OnOk result (noted_in self.new ≡ record (noted_in self.old) { unsent = (noted_in self.old).unsent ++ shown (noted_in self.old).summary (turn_line (noted_in self.old).peers turn.now) }) }
    {
        if self.summary {
            return Ok(());
        }
        let Some(id) = turn.id else {
            return Ok(());
        };
        self.note_difference(&id, turn)?;
        write_parting(
            &mut self.unsent,
            turn.moment,
            &id,
            turn.is_lost(),
            turn.is_saved(),
        )
    }

    /// Adds the line of two decisions on a connection, if they differ.
    fn note_difference(&mut self, id: &ConnId, turn: &Turn) -> Result<(), AllocError>
        ensures { OnOk result (noted_in self.new ≡ record (noted_in self.old) {
          unsent = (noted_in self.old).unsent
              ++ line_by (noted_in self.old).peers turn.now (Some id.now)
              (difference turn.now.was turn.now.would);
        }) }
    {
        let Some((was, would)) = turn.difference() else {
            return Ok(());
        };
        let real = self.real(id, turn.peer);
        write_difference(&mut self.unsent, turn.moment, id, real, was, would)
    }

    fn note_peer(&mut self, turn: &Turn) -> Result<(), AllocError>
        ensures { OnOk result (noted_in self.new ≡ record (noted_in self.old) { peers = peers_on (noted_in self.old).peers turn.now }) }
    {
        let Some(id) = turn.id else {
            return Ok(());
        };
        let peer = waiting(&turn.was, self.real(&id, turn.peer));
        self.set_peer(&id, peer)
    }

    fn set_peer(&mut self, id: &ConnId, peer: Option<Endpoint>) -> Result<(), AllocError>
        ensures { OnOk result (noted_in self.new ≡ record (noted_in self.old) { peers = with_peer id.now peer (noted_in self.old).peers }) }
    {
        match peer {
            Some(peer) => match self.peers.insert(Name::of(id), peer) {
                Ok(_) => Ok(()),
                Err(_) => Err(AllocError),
            },
            None => {
                let _before = self.peers.remove(&Name::of(id));
                Ok(())
            }
        }
    }
}
