//! The open connections of a record as their lines will have them, and the lines that were not yet written.
ghost use Rattle.std.specs.Prelude.{◌≡◌, ◌++◌, [], Option, Some, None, option_map, OnOk};
ghost use Rattle.audit_core.specs.Ended.{brought, counts_text, line_by};
ghost use Rattle.audit_core.specs.Printing.{name_of, noted_in, noted_with, nothing_noted, with_known};

use crate::line::write_audit_line;
use addr_core::Endpoint;
use conn_model::event::ConnId;
use conn_model::reply::{Reply, Said};
use std::alloc::{AllocError, Global};
use std::collections::BTreeMap;
use text_core::decimal::append_decimal;

/// The name of a connection, in the order of names.
#[derive(Clone, Copy, PartialEq, Eq, PartialOrd, Ord, Drop)]
pub struct Name {
    frontend: u16,
    serial: u64,
}

impl Name {
    pub fn of(id: &ConnId) -> Name
        ensures { result ≡ name_of id.now }
    {
        Name {
            frontend: id.frontend,
            serial: id.serial,
        }
    }
}

/// What the line of a connection says beside its end.
#[derive(Clone, Copy, Drop)]
struct Known {
    peer: Endpoint,
    /// The source that was judged and the line of the server, once one was offered.
    offered: Option<(Endpoint, u32)>,
}

/// What is known of a connection that comes with that peer, if it is one that was accepted just now.
fn brought(peer: Option<Endpoint>, before: Option<Known>) -> Option<Known>
    ensures { result ≡ brought peer before }
{
    match peer {
        Some(peer) => Some(Known {
            peer,
            offered: None,
        }),
        None => before,
    }
}

/// The open connections, and the lines of those that ended.
#[derive(Drop)]
pub struct AuditJournal {
    known: BTreeMap<Name, Known>,
    unsent: Vec<u8>,
}

impl AuditJournal {
    pub fn new(alloc: Global) -> Self
        ensures { noted_in result ≡ nothing_noted }
    {
        AuditJournal {
            known: BTreeMap::new(alloc),
            unsent: Vec::new(alloc),
        }
    }

    /// The lines that were not yet written.
    pub fn unsent(&self) -> &[u8]
        ensures { result.now ≡ (noted_in self.now).unsent }
    {
        self.unsent.as_slice()
    }

    /// Forgets lines that were written.
    pub fn clear(&mut self)
        ensures { noted_in self.new ≡ record { known = (noted_in self.old).known; unsent = [] } }
    {
        self.unsent.clear();
    }

    /// Takes note of a reply. An accept comes with the peer.
    pub fn note(&mut self, peer: Option<Endpoint>, reply: &Reply) -> Result<(), AllocError>
        ensures { OnOk result (noted_in self.new ≡ noted_with (noted_in self.old) (Some (peer, reply.now))) }
    {
        match &reply.said {
            Said::Wait { id, .. } => self.note_wait(id, peer),
            Said::Offer {
                id,
                line,
                judged,
                ..
            } => self.note_offer(id, peer, (judged.source(), *line)),
            Said::Up { .. } | Said::Reloaded { .. } | Said::Marked { .. } => Ok(()),
            Said::Refuse { id, .. } | Said::Closed { id, .. } => self.note_end(id, peer, reply),
        }
    }

    /// Adds the last line: how many entries there are and how many connections are open after them.
    pub fn add_counts(&mut self, records: u64, live: u64) -> Result<(), AllocError>
        ensures { OnOk result (noted_in self.new ≡ record { known = (noted_in self.old).known; unsent = (noted_in self.old).unsent ++ counts_text (record { records = records; live = live }) }) }
    {
        self.unsent.extend_from_slice(b"checked ")?;
        append_decimal(&mut self.unsent, records)?;
        self.unsent.extend_from_slice(b" open ")?;
        append_decimal(&mut self.unsent, live)?;
        self.unsent.push(b'\n')?;
        Ok(())
    }

    fn note_wait(&mut self, id: &ConnId, peer: Option<Endpoint>) -> Result<(), AllocError>
        ensures { OnOk result (noted_in self.new ≡ record { known = with_known id.now (brought peer ((noted_in self.old).known id.now)) (noted_in self.old).known; unsent = (noted_in self.old).unsent }) }
    {
        match peer {
            Some(peer) => self.remember(
                id,
                Known {
                    peer,
                    offered: None,
                },
            ),
            None => Ok(()),
        }
    }

    fn note_offer(
        &mut self,
        id: &ConnId,
        peer: Option<Endpoint>,
        offer: (Endpoint, u32),
    ) -> Result<(), AllocError>
        ensures { OnOk result (noted_in self.new ≡ record {
          known = with_known id.now (option_map (λ known. record { peer = known.peer; offered = Some offer }) (brought peer ((noted_in self.old).known id.now))) (noted_in self.old).known;
          unsent = (noted_in self.old).unsent;
        }) }
    {
        match self.take(id, peer) {
            Some(known) => self.remember(
                id,
                Known {
                    peer: known.peer,
                    offered: Some(offer),
                },
            ),
            None => Ok(()),
        }
    }

    fn note_end(
        &mut self,
        id: &ConnId,
        peer: Option<Endpoint>,
        reply: &Reply,
    ) -> Result<(), AllocError>
        ensures { OnOk result (noted_in self.new ≡ record {
          known = with_known id.now None (noted_in self.old).known;
          unsent = (noted_in self.old).unsent ++ line_by (brought peer ((noted_in self.old).known id.now)) reply.now.said;
        }) }
    {
        match self.take(id, peer) {
            Some(known) => self.add_line(&known, reply),
            None => Ok(()),
        }
    }

    fn remember(&mut self, id: &ConnId, known: Known) -> Result<(), AllocError>
        ensures { OnOk result (noted_in self.new ≡ record { known = with_known id.now (Some known) (noted_in self.old).known; unsent = (noted_in self.old).unsent }) }
    {
        match self.known.insert(Name::of(id), known) {
            Ok(_) => Ok(()),
            Err(_) => Err(AllocError),
        }
    }

    /// What is known of a connection, or the peer that it comes with. It is not known any more.
    fn take(&mut self, id: &ConnId, peer: Option<Endpoint>) -> Option<Known>
        ensures known { result ≡ brought peer ((noted_in self.old).known id.now) }
        ensures after { noted_in self.new ≡ record { known = with_known id.now None (noted_in self.old).known; unsent = (noted_in self.old).unsent } }
    {
        let before = self.known.remove(&Name::of(id));
        brought(peer, before)
    }

    fn add_line(&mut self, known: &Known, reply: &Reply) -> Result<(), AllocError>
        ensures { OnOk result (noted_in self.new ≡ record { known = (noted_in self.old).known; unsent = (noted_in self.old).unsent ++ line_by (Some known.now) reply.now.said }) }
    {
        if write_audit_line(&mut self.unsent, &known.peer, known.offered, reply)? {
            self.unsent.push(b'\n')?;
        }
        Ok(())
    }
}
