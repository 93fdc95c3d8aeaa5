//! What both balancers say of an entry.
ghost use Rattle.std.specs.Prelude.{◌≡◌, option_map};
ghost use Rattle.whatif_core.specs.Deciding.{difference, is_lost, is_other_server, is_parted, is_saved, of_both};
ghost use Rattle.whatif_core.specs.Sums.{is_differing};

use crate::decision::{AfterFailure, ComparedDecision, alike, is_lost, is_other_server, is_saved};
use addr_core::Endpoint;
use conn_model::event::ConnId;

/// What both balancers say of an entry of the record.
#[derive(Debug, Drop)]
pub struct Turn {
    /// When its event was handed in, in ms.
    pub moment: u64,
    /// The connection that its reply speaks of.
    pub id: Option<ConnId>,
    /// The peer, if it is an accept.
    pub peer: Option<Endpoint>,
    /// What was decided.
    pub was: Option<ComparedDecision>,
    /// What the trial decides.
    pub would: Option<ComparedDecision>,
    /// Whether the connection was refused, and the trial has let it in, now or before.
    pub let_in: bool,
    /// What came of the connection, if its server is out of reach.
    pub came: Option<AfterFailure>,
    /// What would come of it in the trial.
    pub would_come: Option<AfterFailure>,
}

impl Turn {
    /// The two decisions, if they are not alike.
    pub fn difference(&self) -> Option<(&ComparedDecision, &ComparedDecision)>
        ensures { option_map (λ pair. (pair.0.now, pair.1.now)) result ≡ difference self.now.was self.now.would }
    {
        let Some(was) = &self.was else {
            return None;
        };
        let Some(would) = &self.would else {
            return None;
        };
        if alike(was, would) {
            return None;
        }
        Some((was, would))
    }

    /// Whether it is offered another server of the same backend.
    pub fn has_other_server(&self) -> bool
        ensures { result ≡ of_both is_other_server self.now.was self.now.would }
    {
        let Some(was) = &self.was else {
            return false;
        };
        let Some(would) = &self.would else {
            return false;
        };
        is_other_server(was, would)
    }

    /// Whether the connection was moved to another server, and the trial ends it.
    pub fn is_lost(&self) -> bool
        ensures { result ≡ is_lost self.now.came self.now.would_come }
    {
        is_lost(self.came, self.would_come)
    }

    /// Whether the connection was ended, and the trial moves it to another server.
    pub fn is_saved(&self) -> bool
        ensures { result ≡ is_saved self.now.came self.now.would_come }
    {
        is_saved(self.came, self.would_come)
    }

    /// Whether it is lost or saved.
    fn is_parted(&self) -> bool
        ensures { result ≡ is_parted self.now.came self.now.would_come }
    {
        self.is_lost() || self.is_saved()
    }

    /// Whether anything differs.
    pub fn is_differing(&self) -> bool
        ensures { result ≡ is_differing self.now }
    {
        self.difference().is_some() || self.is_parted()
    }
}
