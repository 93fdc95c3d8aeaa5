//! The tables that are kept.
ghost use Rattle.std.specs.Prelude.{◌≡◌, ◌+◌, ◌-◌, ◌≤◌, ◌<◌, ◌^◌, ◌++◌, ◌==◌, ◌||◌, ◌&&◌, ℕ, false, nat_lt, List, [], Some, map, filter, zip, length, find, option_map, IfOk, OnOk, OnErr};
ghost use Rattle.std.specs.Option.{option_copied};
ghost use Rattle.std.specs.List.{AllByRecursion, enumerate_from, position};
ghost use Rattle.addr_core.specs.declared.addr.Addr.{Addr};
ghost use Rattle.proxy_types.specs.declared.limits.TheConstants.{MOST_TABLES};
ghost use Rattle.stick_core.specs.Entries.{cur_of};
ghost use Rattle.stick_core.specs.Listing.{passed, IsSound};
ghost use Rattle.stick_core.specs.PlainEntries.{AreTrackers, plain, trackings_of, with_tracking};
ghost use Rattle.plan_types.specs.declared.track.TableId.{TableId};
ghost use Rattle.plan_types.specs.declared.track.Track.{Track};
ghost use Rattle.plan_types.specs.declared.plan.Table as plans;
ghost use Rattle.conn_model.specs.Counts.{AreInMemory};
ghost use Rattle.conn_model.specs.Tables.{entry_counts, is_listed_by, new_table, new_tables, table_at, trackers, with_track, without_tracks, tables_alive};
ghost use Rattle.conn_tables.specs.Tables.{AreCounted, AreGrown, AreNextIds, IsGrown, IsStored, TablesDiffer, begun_table, cur_in, is_begun, is_id_listed, is_listed_in, is_table, key_at, plain_table, table_key};
ghost use Rattle.conn_tables.specs.Tracks.{counter_on, plain_tracks, track_on, tracks_on};

use crate::tracking::{PackedTracking, Tracking, Trackings};
use addr_core::Addr;
use conn_model::ask::Counts;
use conn_model::plain::{TableState, Version};
use list_core::{Duplicate, Seq};
use plan_types::{Table, TableId};
use std::alloc::{AllocError, Global};
use std::marker::Model;
use stick_core::{StickTable, TrackToken};

/// For how many more trackings room is made than asked.
const EXTRA_ROOM: u64 = 16;

/// A table that is kept.
#[derive(Debug, Drop)]
pub struct StoredTable {
    pub id: TableId,
    /// As the configuration has it.
    pub table: Table,
    pub entries: StickTable,
}

impl StoredTable {
    /// A table without entries.
    fn new(alloc: Global, id: TableId, table: &Table) -> Result<StoredTable, AllocError>
        ensures plain { IfOk result (λ stored. (moment : ℕ) → plain_table moment stored ≡ record { id = id; table = table.now; entries = [] }) }
        ensures stored { IfOk result (λ stored. IsStored 0 0 stored) }
    {
        Ok(StoredTable {
            id,
            table: table.duplicate(alloc)?,
            entries: StickTable::new(alloc, table.kind, table.size, table.stores, table.expire),
        })
    }

    /// A table without entries, with memory for so many trackings.
    fn with_room(
        alloc: Global,
        id: TableId,
        table: &Table,
        spare: usize,
    ) -> Result<StoredTable, AllocError>
        ensures plain { IfOk result (λ stored. (moment : ℕ) → plain_table moment stored ≡ begun_table (table.now, id)) }
        ensures stored { IfOk result (λ stored. IsStored 0 spare stored) }
    {
        let mut stored = StoredTable::new(alloc, id, table)?;
        stored.reserve(spare)?;
        Ok(stored)
    }

    /// How many track an address, and how often it was tracked, as it is at a moment.
    fn counts(&self, addr: &Addr, moment: u64) -> Counts
        requires kind { self.now.entries.kind ≡ self.now.table.kind }
        requires past { self.now.entries.clock ≤ moment }
        ensures { (tracks : List Track) → AreTrackers (trackers tracks self.now.id) self.now.entries.entries →
            result ≡ entry_counts tracks addr.now (plain_table moment self.now) }
    {
        let counts = self.entries.counts(addr, moment);
        Counts {
            cur: counts.cur,
            cnt: counts.cnt,
        }
    }

    /// The key under which an address would be tracked, if it could be.
    fn key_for(&self, addr: &Addr) -> Option<Addr>
        requires kind { self.now.entries.kind ≡ self.now.table.kind }
        requires size { self.now.entries.size ≡ self.now.table.size }
        ensures { (moment : ℕ) (tracks : List Track) → AreTrackers (trackers tracks self.now.id) self.now.entries.entries →
            result ≡ table_key tracks addr.now (plain_table moment self.now) }
    {
        self.entries.key_for(addr)
    }

    /// Tracks a key at a moment, for which there is memory.
    fn track(&mut self, key: &Addr, moment: u64) -> TrackToken
        requires stored { (spare : ℕ) × IsStored moment spare self.old }
        requires below { (other : Addr) → cur_of other self.old.entries.entries < 2 ^ 64 - 1 }
        requires room { 0 < self.old.entries.spare }
        requires key { (tracks : List Track) × AreTrackers (trackers tracks self.old.id) self.old.entries.entries × (table_key tracks key.now (plain_table moment self.old) ≡ Some key.now) }
        ensures token { result ≡ key.now }
        ensures same { self.new ≡ record self.old { entries = record (passed moment self.old.entries) { entries = self.new.entries.entries; spare = self.new.entries.spare } } }
        ensures plain { (tracks : List Track) → AreTrackers (trackers tracks self.old.id) self.old.entries.entries →
            plain (passed moment self.new.entries).entries
            ≡ with_tracking moment (trackers tracks self.old.id) self.old.table.size key.now (plain (passed moment self.old.entries).entries) }
        ensures sound { IsSound self.new.entries.size self.new.entries.entries }
        ensures counts { (other : Addr) → cur_of other self.new.entries.entries ≡ cur_of other self.old.entries.entries + trackings_of other (Some key.now) }
        ensures spare { self.old.entries.spare ≤ self.new.entries.spare + 1 }
    {
        match self.entries.track(key, moment) {
            Ok(Some(token)) => token,
            Ok(None) | Err(_) => unreachable!(),
        }
    }

    /// Makes room for so many trackings more.
    fn reserve(&mut self, more: usize) -> Result<(), AllocError>
        ensures grown { IsGrown self.old self.new }
        ensures room { OnOk result (more ≤ self.new.entries.spare) }
    {
        self.entries.reserve(more)
    }

    /// An equal table as it is at a moment, as plain data.
    fn plain(&self, alloc: Global, moment: u64) -> Result<TableState, AllocError>
        requires { self.now.entries.clock ≤ moment }
        ensures { IfOk result (λ state. state ≡ plain_table moment self.now) }
    {
        Ok(TableState {
            id: self.id,
            table: self.table.duplicate(alloc)?,
            entries: self.entries.entries(alloc, moment)?,
        })
    }
}

/// The tables by incarnation. Each is as the configuration has it, and no two are of one incarnation.
#[derive(Debug, Drop)]
pub struct Tables {
    tables: Vec<StoredTable>,
    /// The moment up to which time has passed, for all of them.
    clock: u64,
    /// For how many more trackings each has memory.
    spare: u64,
}

impl Model for Tables {
    ghost use Rattle.conn_tables.specs.Tables.{AreTables, StoredTables};

    ghost Value = { StoredTables };

    ghost view = { λ t. record { tables = t.tables.items; clock = t.clock; spare = t.spare } };

    ghost invariant = { λ t. AreTables t.clock t.spare t.tables.items };
}

impl Tables {
    /// The tables that begin with a version, without entries.
    pub fn new(alloc: Global, version: u64, tables: &[Table]) -> Result<Tables, AllocError>
        requires { length tables.now ≤ MOST_TABLES }
        ensures plain { IfOk result (λ all. map (plain_table all.clock) all.tables ≡ map (new_table version) (enumerate_from 0 tables.now)) }
        ensures clock { IfOk result (λ all. all.clock ≡ 0) }
        ensures counts { IfOk result (λ all. (id : TableId) (key : Addr) → cur_in id key all.tables ≡ 0) }
        ensures spare { IfOk result (λ all. all.spare ≡ 0) }
    {
        let mut stored = Vec::new(alloc);
        for (position, table) in tables.iter().enumerate() {
            let id = TableId {
                version,
                position: position as u16,
            };
            stored.push(StoredTable::new(alloc, id, table)?)?;
        }
        Ok(Tables {
            tables: stored,
            clock: 0,
            spare: 0,
        })
    }

    /// Adds the tables that begin with a version: those of its tables of which the incarnation, at the same place of
    /// `ids`, is of that version. They have no entries.
    pub fn begin(
        &mut self,
        alloc: Global,
        version: u64,
        tables: &[Table],
        ids: &[TableId],
    ) -> Result<(), AllocError>
        requires few { length tables.now ≤ MOST_TABLES }
        requires next { (before : List (plans.Table × TableId)) × AreNextIds version before tables.now ids.now }
        requires earlier { AllByRecursion (λ stored. stored.id.version < version) self.old.tables }
        ensures ok { OnOk result ((before : List (plans.Table × TableId)) → AreNextIds version before tables.now ids.now →
            map (plain_table self.new.clock) self.new.tables ≡ map (plain_table self.old.clock) self.old.tables ++ new_tables version before tables.now) }
        ensures clock { self.new.clock ≡ self.old.clock }
        ensures err { OnErr result (self.new ≡ self.old) }
        ensures counts { (id : TableId) (key : Addr) → cur_in id key self.new.tables ≡ cur_in id key self.old.tables }
        ensures spare { self.new.spare ≡ self.old.spare }
    {
        let mut begun = begin_all(alloc, version, tables, ids, self.spare as usize)?;
        self.tables.append(&mut begun)
    }

    /// Forgets the tables that none of the versions lists. Nobody tracks a key of them. It takes no memory.
    pub fn forget(&mut self, versions: &[Version])
        requires { (id : TableId) → is_listed_in versions.now id ≡ false → (key : Addr) → cur_in id key self.old.tables ≡ 0 }
        ensures plain { map (plain_table self.new.clock) self.new.tables ≡ filter (is_listed_by versions.now) (map (plain_table self.old.clock) self.old.tables) }
        ensures clock { self.new.clock ≡ self.old.clock }
        ensures counts { (id : TableId) (key : Addr) → cur_in id key self.new.tables ≡ cur_in id key self.old.tables }
        ensures spare { self.new.spare ≡ self.old.spare }
    {
        keep_listed(&mut self.tables, versions);
    }

    /// Equal tables, as plain data.
    pub fn plain(&self, alloc: Global) -> Result<Seq<TableState>, AllocError>
        ensures { IfOk result (λ states. states ≡ map (plain_table self.now.clock) self.now.tables) }
    {
        let mut states = Seq::new(alloc);
        for stored in &self.tables {
            states.push(stored.plain(alloc, self.clock)?)?;
        }
        Ok(states)
    }

    /// The moment up to which time has passed.
    pub fn clock(&self) -> u64
        ensures value { result ≡ self.now.clock }

        // No entry is gone by then.
        ensures alive { (tracks : List Track) → AreCounted tracks self.now.tables →
            tables_alive self.now.clock tracks (map (plain_table self.now.clock) self.now.tables) ≡ map (plain_table self.now.clock) self.now.tables }
    {
        self.clock
    }

    /// Lets time pass.
    pub fn pass(&mut self, moment: u64)
        requires { self.old.clock ≤ moment }
        ensures value { self.new ≡ record self.old { clock = moment } }
        ensures plain { (tracks : List Track) → AreCounted tracks self.old.tables →
            map (plain_table moment) self.old.tables ≡ tables_alive moment tracks (map (plain_table self.old.clock) self.old.tables) }
    {
        self.clock = moment;
    }

    /// How many track an address in the table of that incarnation, and how often it was tracked, as it is at a moment.
    pub fn counts(&self, id: TableId, addr: &Addr, moment: u64) -> Option<Counts>
        requires { self.now.clock ≤ moment }
        ensures { (tracks : List Track) → AreCounted tracks self.now.tables →
            result ≡ option_map (entry_counts tracks addr.now) (table_at (tables_alive moment tracks (map (plain_table self.now.clock) self.now.tables)) id) }
    {
        let stored = find_table(self.tables.as_slice(), id)?;
        Some(stored.counts(addr, moment))
    }

    /// How many entries of the table of that incarnation are in memory.
    pub fn entries(&self, id: TableId) -> Option<u64>
        ensures { AreInMemory
            (table_at (map (plain_table self.now.clock) self.now.tables) id) result }
    {
        let stored = find_table(self.tables.as_slice(), id)?;
        Some(stored.entries.in_memory())
    }

    /// The table of that incarnation, as its line has it.
    pub fn table(&self, id: TableId) -> Option<&Table>
        ensures { option_copied result ≡ option_map (λ table. table.table) (table_at (map (plain_table self.now.clock) self.now.tables) id) }
    {
        let stored = find_table(self.tables.as_slice(), id)?;
        Some(&stored.table)
    }

    /// The key under which the table of that incarnation would track an address, if it could, at whatever moment.
    pub fn key_for(&self, id: TableId, addr: &Addr) -> Option<Addr>
        ensures { (moment : ℕ) (tracks : List Track) → self.now.clock ≤ moment → AreCounted tracks self.now.tables →
            result ≡ key_at tracks (tables_alive moment tracks (map (plain_table self.now.clock) self.now.tables)) id addr.now }
    {
        let stored = find_table(self.tables.as_slice(), id)?;
        stored.key_for(addr)
    }

    /// Makes room so that the next so many trackings take no memory. Where there is room enough nothing is done; else
    /// room is made for more than asked, so that this is rare.
    pub fn reserve(&mut self, more: u64) -> Result<(), AllocError>
        ensures room { OnOk result (more ≤ self.new.spare) }
        ensures spare { self.old.spare ≤ self.new.spare }
        ensures plain { map (plain_table self.new.clock) self.new.tables ≡ map (plain_table self.old.clock) self.old.tables }
        ensures clock { self.new.clock ≡ self.old.clock }
        ensures counts { (id : TableId) (key : Addr) → cur_in id key self.new.tables ≡ cur_in id key self.old.tables }
    {
        if more <= self.spare {
            return Ok(());
        }
        let room = more.saturating_add(EXTRA_ROOM);
        reserve_all(&mut self.tables, room as usize)?;
        self.spare = room;
        Ok(())
    }

    /// Tracks a key in the table of that incarnation. It takes no memory.
    pub fn track(&mut self, id: TableId, key: &Addr) -> Tracking
        requires below { (table : TableId) (other : Addr) → cur_in table other self.old.tables < 2 ^ 64 - 1 }
        requires spare { 0 < self.old.spare }
        requires key { (tracks : List Track) × AreCounted tracks self.old.tables × (key_at tracks (map (plain_table self.old.clock) self.old.tables) id key.now ≡ Some key.now) }
        ensures tracking { result ≡ record { table = id; token = key.now } }
        ensures plain { (tracks : List Track) → AreCounted tracks self.old.tables → (counter : ℕ) →
            map (plain_table self.new.clock) self.new.tables
            ≡ with_track self.old.clock tracks (record { counter = counter; table = id; key = key.now }) (map (plain_table self.old.clock) self.old.tables) }
        ensures clock { self.new.clock ≡ self.old.clock }
        ensures counts { (table : TableId) (other : Addr) → cur_in table other self.new.tables ≡ cur_in table other self.old.tables + counter_on table other (Some (record { table = id; token = key.now })) }
        ensures spare { self.new.spare + 1 ≡ self.old.spare }
    {
        let Some(place) = place_of(self.tables.as_slice(), id) else {
            unreachable!()
        };
        let token = self.tables[place].track(key, self.clock);
        self.spare -= 1;
        Tracking { table: id, token }
    }

    /// Ends what a connection tracks, in the order of counters. It takes no memory.
    pub fn release(&mut self, tracks: Trackings)
        requires { (id : TableId) (key : Addr) → tracks_on id key tracks ≤ cur_in id key self.old.tables }
        ensures counts { (id : TableId) (key : Addr) → cur_in id key self.new.tables + tracks_on id key tracks ≡ cur_in id key self.old.tables }
        ensures plain { map (plain_table self.new.clock) self.new.tables ≡ without_tracks self.old.clock (plain_tracks tracks) (map (plain_table self.old.clock) self.old.tables) }
        ensures clock { self.new.clock ≡ self.old.clock }
        ensures spare { self.new.spare ≡ self.old.spare }
    {
        let Trackings { sc0, sc1, sc2 } = tracks;
        self.release_one(sc0);
        self.release_one(sc1);
        self.release_one(sc2);
    }

    /// Ends what a counter tracks, if it tracks something.
    fn release_one(&mut self, tracking: Option<PackedTracking>)
        requires { (id : TableId) (key : Addr) → counter_on id key tracking ≤ cur_in id key self.old.tables }
        ensures counts { (id : TableId) (key : Addr) → cur_in id key self.new.tables + counter_on id key tracking ≡ cur_in id key self.old.tables }
        ensures plain { (counter : ℕ) →
            map (plain_table self.new.clock) self.new.tables ≡ without_tracks self.old.clock (track_on counter tracking) (map (plain_table self.old.clock) self.old.tables) }
        ensures clock { self.new.clock ≡ self.old.clock }
        ensures spare { self.new.spare ≡ self.old.spare }
    {
        let Some(tracking) = tracking else {
            return;
        };
        let Tracking { table, token } = tracking.into_tracking();
        match place_of(self.tables.as_slice(), table) {
            Some(place) => self.tables[place].entries.release(token, self.clock),
            None => unreachable!(),
        }
    }
}

/// The tables that begin with a version, each with memory for so many trackings.
fn begin_all(
    alloc: Global,
    version: u64,
    tables: &[Table],
    ids: &[TableId],
    spare: usize,
) -> Result<Vec<StoredTable>, AllocError>
    requires { length tables.now ≤ length ids.now }
    ensures plain { IfOk result (λ begun. (moment : ℕ) → map (plain_table moment) begun.items ≡ map begun_table (filter (is_begun version) (zip tables.now ids.now))) }
    ensures each { IfOk result (λ begun. AllByRecursion (IsStored 0 spare) begun.items) }
{
    let mut begun = Vec::new(alloc);
    for (place, table) in tables.iter().enumerate() {
        let id = ids[place];
        if id.version == version {
            begun.push(StoredTable::with_room(alloc, id, table, spare)?)?;
        }
    }
    Ok(begun)
}

/// Keeps the tables that one of the versions lists.
fn keep_listed(tables: &mut Vec<StoredTable>, versions: &[Version])
    ensures { tables.new.items ≡ filter (λ stored. is_listed_in versions.now stored.id) tables.old.items }
{
    tables.retain(|stored| is_listed(versions, stored.id));
}

/// Whether one of the versions lists the table of that incarnation.
fn is_listed(versions: &[Version], id: TableId) -> bool
    ensures { result ≡ is_listed_in versions.now id }
{
    versions.iter().any(|version| lists(version, id))
}

/// Whether the version lists it.
fn lists(version: &Version, id: TableId) -> bool
    ensures { result ≡ is_id_listed id version.now }
{
    version.tables.as_slice().iter().any(|other| id == *other)
}

/// Makes room in each table for so many trackings more.
fn reserve_all(tables: &mut Vec<StoredTable>, more: usize) -> Result<(), AllocError>
    ensures grown { AreGrown tables.old.items tables.new.items }
    ensures room { OnOk result (AllByRecursion (λ stored. more ≤ stored.entries.spare) tables.new.items) }
{
    for place in 0..tables.len() {
        tables[place].reserve(more)?;
    }
    Ok(())
}

fn find_table(tables: &[StoredTable], id: TableId) -> Option<&StoredTable>
    requires { TablesDiffer tables.now }
    ensures { option_copied result ≡ find (is_table id) tables.now }
{
    let place = place_of(tables, id)?;
    Some(&tables[place])
}

/// Whether an incarnation began before another, or at a place before it in the same version.
fn is_before(id: TableId, other: TableId) -> bool
    ensures { result ≡ nat_lt id.version other.version ||
        (id.version == other.version && nat_lt id.position other.position) }
{
    id.version < other.version || (id.version == other.version && id.position < other.position)
}

/// The place of the table of that incarnation. A table that began with the configuration that was opened first is most
/// often at its place in that configuration, which is looked at first.
fn place_of(tables: &[StoredTable], id: TableId) -> Option<usize>
    requires { TablesDiffer tables.now }
    ensures { result ≡ position (is_table id) tables.now }
{
    let own = usize::from(id.position);
    match tables.get(own) {
        Some(stored) if stored.id == id => Some(own),
        _ => search_place(tables, id),
    }
}

/// The same, wherever the table is. Tables are added in the order of their incarnations, so that it is found by halves;
/// only where it is not in that order is each table looked at.
fn search_place(tables: &[StoredTable], id: TableId) -> Option<usize>
    requires { TablesDiffer tables.now }
    ensures { result ≡ position (is_table id) tables.now }
{
    let place = tables.partition_point(|stored| is_before(stored.id, id));
    match tables.get(place) {
        Some(stored) if stored.id == id => Some(place),
        _ => tables.iter().position(|stored| stored.id == id),
    }
}
