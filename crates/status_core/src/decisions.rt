//! Counts of the decisions that a record has, except those by lines.
ghost use Rattle.std.specs.Prelude.{◌≡◌};
ghost use Rattle.status_core.specs.Tally.{with_offer, with_refusal, with_said};

use crate::counts::{Closes, HeaderFaults, Reports, note_close, note_fault, note_report, raise};
use conn_model::reply::{Cause, Said};

/// How many decisions of each kind there were.
#[derive(Clone, Copy, Debug, PartialEq, Eq)]
pub struct Decisions {
    /// How many connections were offered a server.
    pub offered: u64,
    /// How often one was offered another server, after one that was out of reach.
    pub moved: u64,
    /// How many servers accepted one.
    pub connected: u64,
    /// How many were refused because no whole PROXY header came in time.
    pub expired: u64,
    pub header_faults: HeaderFaults,
    pub closes: Closes,
    pub reports: Reports,
}

impl Decisions {
    /// None yet.
    pub const NONE: Decisions = Decisions {
        offered: 0,
        moved: 0,
        connected: 0,
        expired: 0,
        header_faults: HeaderFaults::NONE,
        closes: Closes::NONE,
        reports: Reports::NONE,
    };

    fn note_offer(&mut self, is_failure: bool)
        ensures { self.new ≡ with_offer is_failure self.old }
    {
        if is_failure {
            raise(&mut self.moved);
        } else {
            raise(&mut self.offered);
        }
    }

    fn note_refusal(&mut self, cause: Cause)
        ensures { self.new ≡ with_refusal cause self.old }
    {
        match cause {
            Cause::Header(fault) => note_fault(&mut self.header_faults, fault),
            Cause::Expired => raise(&mut self.expired),
            Cause::Line(_) | Cause::NoBackend(_) | Cause::NoServer(_) => {}
        }
    }

    /// That was said, to an event that says that a server is out of reach or to another one.
    pub fn note(&mut self, is_failure: bool, said: &Said)
        ensures { self.new ≡ with_said is_failure said.now self.old }
    {
        match said {
            Said::Wait { .. } | Said::Reloaded { .. } => {}
            Said::Offer { .. } => self.note_offer(is_failure),
            Said::Refuse { cause, .. } => self.note_refusal(*cause),
            Said::Up { .. } => raise(&mut self.connected),
            Said::Closed { why, .. } => note_close(&mut self.closes, *why),
            Said::Marked { health, .. } => note_report(&mut self.reports, *health),
        }
    }
}
