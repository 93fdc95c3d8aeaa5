//! What rules see of tables.
ghost use Rattle.std.specs.Prelude.{◌≡◌, ◌≤◌, slice_get, position, option_map, if◌then◌else◌};
ghost use Rattle.std.specs.Str.{bytes_eq};
ghost use Rattle.proxy_types.specs.declared.limits.TheConstants.{COUNTERS};
ghost use Rattle.stick_core.specs.PlainEntries.{trackers_at};
ghost use Rattle.acl_core.specs.declared.criterion.Criterion.TheVariants.{TrackedConnections, TrackedTotal};
ghost use Rattle.acl_core.specs.declared.criterion.Value.TheVariants.{Absent, Number};
ghost use Rattle.plan_types.specs.Tables.{is_table_of, table_number};
ghost use Rattle.rule_engine.specs.Meaning.{present};
ghost use Rattle.conn_model.specs.Rules.{named_table, own_track, worth};
ghost use Rattle.conn_model.specs.Tables.{table_at, trackers};
ghost use Rattle.conn_core.specs.Judging.{counts_of, facts_view, rows_at, source_counts, tracked_counts};

use crate::facts::RuleFacts;
use crate::tracking::{track_by, trackers};
use acl_core::Value;
use addr_core::Addr;
use conn_model::ask::Counts;
use list_core::Seq;
use plan_types::{Section, Table, TableId, Track};
use proxy_types::{KeyType, Stores};
use rule_engine::Tracks;
use stick_core::key_of;
use text_core::is_same_name;

/// Nobody tracks it, and nobody did.
const NO_COUNTS: Counts = Counts { cur: 0, cnt: 0 };

impl RuleFacts<'_> {
    /// The incarnation of the table of that number.
    pub fn table_id(&self, number: usize) -> Option<TableId>
        ensures { result ≡ slice_get self.now.version.now.tables number }
    {
        match self.version.tables.as_slice().get(number) {
            Some(id) => Some(*id),
            None => None,
        }
    }

    /// `sc0_conn_cur`, by the counter.
    pub fn tracked_connections(&self, tracks: &Tracks, counter: u8) -> Value
        ensures { result ≡ worth (facts_view self.now (present tracks.now)) (TrackedConnections counter) }
    {
        match self.tracked_counts(tracks, counter) {
            Some((stores, counts)) => number_if(stores.cur, counts.cur),
            None => Value::Absent,
        }
    }

    /// `sc0_conn_cnt`, by the counter.
    pub fn tracked_total(&self, tracks: &Tracks, counter: u8) -> Value
        ensures { result ≡ worth (facts_view self.now (present tracks.now)) (TrackedTotal counter) }
    {
        match self.tracked_counts(tracks, counter) {
            Some((stores, counts)) => number_if(stores.cnt, counts.cnt),
            None => Value::Absent,
        }
    }

    /// How many track the source in the table that a criterion means, and how often it was tracked there.
    pub fn source_counts(&self, tracks: &Tracks, name: &Option<Seq<u8>>) -> Counts
        ensures { result ≡ source_counts (facts_view self.now (present tracks.now)) (named_table (facts_view self.now (present tracks.now)) name.now) }
    {
        match self.named_counts(tracks, name) {
            Some(counts) => counts,
            None => NO_COUNTS,
        }
    }

    /// The same, where there is such a table.
    fn named_counts(&self, tracks: &Tracks, name: &Option<Seq<u8>>) -> Option<Counts>
        ensures { result ≡ option_map (counts_of (facts_view self.now (present tracks.now)) self.now.source) (named_table (facts_view self.now (present tracks.now)) name.now) }
    {
        let number = self.table_number(name)?;
        let id = self.table_id(number)?;
        self.counts(tracks, id, &self.source)
    }

    /// The number of the table that a criterion means: its frontend's own, where it names none.
    fn table_number(&self, name: &Option<Seq<u8>>) -> Option<usize>
        ensures { result ≡ table_number self.now.version.now.plan.tables self.now.frontend.now.name name.now }
    {
        let tables = self.version.plan.tables.as_slice();
        match name {
            Some(name) => place_of(tables, name.as_slice()),
            None => own_place(tables, self.frontend.name.as_slice()),
        }
    }

    /// What the table of the key that a counter tracks stores, and the counts of that key.
    fn tracked_counts(&self, tracks: &Tracks, counter: u8) -> Option<(Stores, Counts)>
        ensures { result ≡ tracked_counts (facts_view self.now (present tracks.now)) (own_track (facts_view self.now (present tracks.now)) counter) }
    {
        let track = self.own_track(tracks, counter)?;
        let table = self.rows.table(track.table)?;
        let counts = self.counts(tracks, track.table, &track.key)?;
        Some((table.stores, counts))
    }

    /// What the connection tracks by a counter, this step included.
    fn own_track(&self, tracks: &Tracks, counter: u8) -> Option<Track>
        ensures { result ≡ own_track (facts_view self.now (present tracks.now)) counter }
    {
        match track_by(&self.own, counter) {
            Some(track) => Some(track),
            None => track_by(tracks, counter),
        }
    }

    /// How many track an address in the table of that incarnation and how often it was tracked, this step included.
    fn counts(&self, tracks: &Tracks, id: TableId, addr: &Addr) -> Option<Counts>
        ensures { result ≡ option_map (counts_of (facts_view self.now (present tracks.now)) addr.now) (table_at (rows_at self.now.moment self.now.rows.now).tables id) }
    {
        let table = self.rows.table(id)?;
        let moment = self.rows.clock().max(self.moment);
        let counts = self.rows.counts(id, addr, moment)?;
        let made = key_trackers(tracks, id, table.kind, addr);
        Some(Counts {
            cur: counts.cur + made,
            cnt: counts.cnt.saturating_add(made),
        })
    }
}

/// How many of the tracks are of the key of an address in a table of that kind.
fn key_trackers(tracks: &Tracks, id: TableId, kind: KeyType, addr: &Addr) -> u64
    ensures value { result ≡ trackers_at (trackers (present tracks.now) id) kind addr.now }
    ensures few { result ≤ COUNTERS }
{
    match key_of(kind, addr) {
        Some(key) => trackers(tracks, id, &key),
        None => 0,
    }
}

/// A number, where it is stored.
fn number_if(is_stored: bool, number: u64) -> Value
    ensures { result ≡ if is_stored then Number number else Absent }
{
    if is_stored {
        Value::Number(number)
    } else {
        Value::Absent
    }
}

/// The place of the table of that name.
fn place_of(tables: &[Table], name: &[u8]) -> Option<usize>
    ensures { result ≡ position (λ table. bytes_eq table.name name.now) tables.now }
{
    tables
        .iter()
        .position(|table| is_same_name(table.name.as_slice(), name))
}

/// The place of the table of the frontend of that name.
fn own_place(tables: &[Table], name: &[u8]) -> Option<usize>
    ensures { result ≡ position (is_table_of name.now) tables.now }
{
    tables.iter().position(|table| is_table_of(table, name))
}

fn is_table_of(table: &Table, name: &[u8]) -> bool
    ensures { result ≡ is_table_of name.now table.now }
{
    match table.section {
        Section::Frontend => is_same_name(table.name.as_slice(), name),
        Section::Backend => false,
    }
}
