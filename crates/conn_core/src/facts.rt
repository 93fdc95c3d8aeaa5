//! What rules see of a connection.
ghost use Rattle.std.specs.Prelude.{◌≡◌, ◌+◌, ◌<◌};
ghost use Rattle.conn_model.specs.Counts.{open_named};
ghost use Rattle.conn_core.specs.Judging.{arrival_in};

use crate::tracking::track_by;
use acl_core::{Acl, Criterion, Value};
use addr_core::Addr;
use conn_model::plain::Version;
use conn_rows::Rows;
use plan_types::{Frontend, TableId};
use rule_engine::{Scene, Tracks};
use text_core::is_same_name;

/// What rules see of a connection.
#[derive(Drop)]
pub struct RuleFacts<'a> {
    pub rows: &'a Rows,
    /// The moment of the step, in ms.
    pub moment: u64,
    /// The version that judges it.
    pub version: &'a Version,
    /// Its frontend, as it is judged.
    pub frontend: &'a Frontend,
    /// The name of its frontend.
    pub name: &'a [u8],
    /// The open connections of its frontend, itself included.
    pub connections: u64,
    /// Whether it is not among the rows yet.
    pub arriving: bool,
    /// What it tracks since earlier steps, by counter.
    pub own: Tracks,
    /// The source that is judged.
    pub source: Addr,
}

impl Scene for RuleFacts<'_> {
    ghost use Rattle.conn_model.specs.Rules.{scene_of};
    ghost use Rattle.conn_core.specs.Judging.{facts_view};

    ghost meaning = { λ facts. scene_of (facts_view facts) };

    fn is_free(&self, counter: u8) -> bool {
        track_by(&self.own, counter).is_none()
    }

    fn acls(&self) -> &[Acl] {
        self.frontend.acls.as_slice()
    }

    fn value(&self, tracks: &Tracks, criterion: &Criterion) -> Value {
        match criterion {
            Criterion::Source => Value::Source(self.source),
            Criterion::TrackedConnections(counter) => self.tracked_connections(tracks, *counter),
            Criterion::TrackedTotal(counter) => self.tracked_total(tracks, *counter),
            Criterion::SourceConnections(name) => {
                Value::Number(self.source_counts(tracks, name).cur)
            }
            Criterion::SourceTotal(name) => Value::Number(self.source_counts(tracks, name).cnt),
            Criterion::FrontendConnections(None) => Value::Number(self.connections),
            Criterion::FrontendConnections(Some(name)) => {
                Value::Number(self.open_named(name.as_slice()))
            }
            Criterion::BackendConnections(name) => {
                Value::Number(self.rows.offered_to(name.as_slice()))
            }
        }
    }

    fn key(&self, _tracks: &Tracks, number: u16) -> Option<(TableId, Addr)> {
        let id = self.table_id(usize::from(number))?;
        let key = self.rows.key_for(id, &self.source)?;
        Some((id, key))
    }
}

impl RuleFacts<'_> {
    /// How many connections of the frontend of that name are open, this one included.
    fn open_named(&self, name: &[u8]) -> u64
        ensures { result ≡ open_named self.now.rows.now.frontends name.now + arrival_in self.now.arriving self.now.name.now name.now }
    {
        let open = self.rows.open_named(name);
        if self.arriving && is_same_name(self.name, name) {
            open + 1
        } else {
            open
        }
    }
}
