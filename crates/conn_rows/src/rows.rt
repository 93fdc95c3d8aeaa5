//! The open connections of all frontends.
ghost use Rattle.std.specs.Prelude.{◌≡◌, ◌+◌, ◌*◌, ◌-◌, ◌^◌, ◌<◌, ◌≤◌, ℕ, List, length, slice_get, option_and_then, option_map, IfOk, IfSome, IfNone, OnOk, OnErr, IsSome, None, Some, map, filter, ◌++◌, ◌∷◌, []};
ghost use Rattle.std.specs.List.{AllByRecursion};
ghost use Rattle.std.specs.Option.{option_copied};
ghost use Rattle.keyed_list.specs.Entries.{IsFew};
ghost use Rattle.addr_core.specs.declared.addr.Addr.{Addr};
ghost use Rattle.proxy_types.specs.declared.limits.TheConstants.{COUNTERS};
ghost use Rattle.plan_types.specs.declared.track.TableId.{TableId};
ghost use Rattle.pp_any.specs.declared.rest.Rest.{Rest};
ghost use Rattle.pp_any.specs.NextPiece.{status_on};
ghost use Rattle.plan_types.specs.Sound.{IsSoundPlan};
ghost use Rattle.plan_types.specs.declared.plan.Backend as backends;
ghost use Rattle.conn_model.specs.declared.plain.FrontendRows.{FrontendRows};
ghost use Rattle.conn_model.specs.Words.{newest};
ghost use Rattle.conn_model.specs.Answer.{row_at, version_at};
ghost use Rattle.conn_model.specs.History.{marked_by, opening, tables_with, tracks_at, with_offer, with_version};
ghost use Rattle.conn_model.specs.Servers.{cursor_at, identity_in, is_down, pick_in};
ghost use Rattle.conn_model.specs.declared.plain.Row.{Row};
ghost use Rattle.conn_versions.specs.Barred.{is_barred};
ghost use Rattle.conn_versions.specs.Versions.{connections_in, AreSound, HasServer, VersionsValue};
ghost use Rattle.conn_rows.specs.Stored.{plain_frontend, stored_in};
ghost use Rattle.conn_model.specs.Changes.{rest_at, row_fed, row_tracking, row_up, with_arrival, with_conn, with_item, with_refusal, without_conn};
ghost use Rattle.conn_rows.specs.Changes.{row_moved, row_offered, status_of, used_by, IsMovable};
ghost use Rattle.conn_model.specs.Settings.{settings_in};
ghost use Rattle.conn_model.specs.Counts.{newest_backend, newest_table, offered_to, open_named, served_by, server_of, AreInMemory};
ghost use Rattle.conn_model.specs.Tables.{entry_counts, is_listed_by, open_tracks, table_at, trackers, with_track, without_tracks};
ghost use Rattle.conn_rows.specs.Needed.{versions_needed, AreTracksHeld, AreVersionsKept, IsNextNumber};
ghost use Rattle.rule_engine.specs.Meaning.{present};
ghost use Rattle.conn_tables.specs.Tables.{key_at};
ghost use Rattle.conn_tables.specs.Tracks.{slots_of, track_of};
ghost use Rattle.conn_rows.specs.declared.row.StoredRow.{StoredRow};
ghost use Rattle.conn_model.specs.declared.plain.Version.{Version};
ghost use Rattle.conn_rows.specs.Summaries.{Sums, names_in, names_of, pending_in, pending_of, summary_of};
ghost use Rattle.conn_rows.specs.Value.{rows_of, rows_passed, rows_total, state_of, AllRows, HasSlot};

use crate::counts;
use crate::down::mark;
use crate::frontend::{FrontendState, HeaderStatus, end_all, end_all_empty};
use crate::opening::frontends;
use crate::reload::install_version;
use crate::row::{
    Holdings, PendingOffer, RowSummary, ServerChoice, ServerNames, StoredRow, version_at,
};
use crate::slots::give_back;
use addr_core::{Addr, Pair};
use conn_model::ask::Counts;
use conn_model::event::{ConnId, Health};
use conn_model::plain::{FrontendRows, TableState, Version};
use conn_model::settings::Settings;
use conn_tables::Tables;
use conn_versions::{Barred, Versions, item};
use list_core::{Seq, newest};
use plan_types::{Backend, Plan, Server, Table, TableId, Track};
use proxy_types::ServerIdentity;
use rule_engine::Tracks;
use std::alloc::{AllocError, Global};
use std::marker::Model;

/// What the rows keep, as plain data.
#[derive(Debug, Drop)]
pub struct RowsState {
    /// By the number of the frontend.
    pub frontends: Seq<FrontendRows>,
    /// By number, the newest last.
    pub versions: Seq<Version>,
    /// By incarnation.
    pub tables: Seq<TableState>,
    /// The servers that were reported down, and not up since, the oldest first.
    pub down: Seq<ServerIdentity>,
}

/// What is said of a frontend.
#[derive(Clone, Copy, Debug)]
pub struct FrontendSummary<'a> {
    pub name: &'a [u8],
    /// The last serial that was given out.
    pub serial: u64,
    /// How many connections are open.
    pub connections: u64,
}

/// The open connections of all frontends, and the versions and tables that are kept. Open rows change by its calls
/// alone; each table counts what they track, each server those that were offered it, and each version those that it
/// judges. It cannot be dropped: it ends by `end`.
pub struct Rows {
    frontends: Vec<FrontendState>,
    kept: Versions,
    tables: Tables,
    /// The servers that were reported down, and not up since.
    down: Vec<ServerIdentity>,
}

impl Model for Rows {
    ghost use Rattle.std.specs.Prelude.{map};
    ghost use Rattle.conn_rows.specs.Stored.{plain_frontend};
    ghost use Rattle.conn_tables.specs.Tables.{plain_table};
    ghost use Rattle.conn_rows.specs.Value.{IsRowsState, RowsValue};

    ghost Value = { RowsValue };

    ghost view = { λ r. record { frontends = map (plain_frontend r.kept.versions) r.frontends.items; versions = r.kept.versions; tables = map (plain_table r.tables.clock) r.tables.tables; clock = r.tables.clock; spare = r.tables.spare; down = r.down.items } };

    ghost invariant = { λ r. IsRowsState r.frontends.items r.kept r.tables };
}

impl Rows {
    /// What there is when a plan is opened: its version is the first, its tables are empty, and nothing is open. The
    /// first serial of each frontend is one more than `last`.
    pub fn new(alloc: Global, plan: Plan, last: u64) -> Result<Rows, AllocError>
        requires { IsSoundPlan plan }
        ensures { IfOk result (λ rows. rows ≡ rows_of (opening plan last)) }
    {
        let tables = Tables::new(alloc, 1, plan.tables.as_slice())?;
        let frontends = frontends(alloc, plan.frontends.as_slice(), last)?;
        match Versions::new(alloc, plan) {
            Ok(kept) => Ok(Rows {
                frontends,
                kept,
                tables,
                down: Vec::new(alloc),
            }),
            Err(error) => {
                end_all_empty(frontends);
                Err(error)
            }
        }
    }

    /// The newest version. Each is of a plan as plans are made.
    pub fn newest(&self) -> Option<&Version>
        ensures newest { option_copied result ≡ newest self.now.versions }
        ensures sound { AreSound self.now.versions }
    {
        newest(self.kept.as_slice())
    }

    /// The version of that number.
    pub fn version(&self, number: u64) -> Option<&Version>
        ensures { option_copied result ≡ version_at self.now.versions number }
    {
        version_at(self.kept.as_slice(), number)
    }

    /// The number of the server that is picked for a source, of the backend of that number in the version of that
    /// number. None where no server that may be used and is not down has room, or where there is no such backend.
    pub fn pick(&self, version: u64, backend: u16, source: &Addr) -> Option<u16>
        ensures no_version { version_at self.now.versions version ≡ None → result ≡ None }
        ensures no_backend { (kept : Version) → version_at self.now.versions version ≡ Some kept → slice_get kept.plan.backends backend ≡ None → result ≡ None }
        ensures picked { (kept : Version) (found : backends.Backend) → version_at self.now.versions version ≡ Some kept → slice_get kept.plan.backends backend ≡ Some found →
            result ≡ option_map (λ turn. turn.server) (pick_in (served_by self.now.frontends) (is_down self.now.down) found (cursor_at kept.cursors backend) source.now) }
    {
        self.pick_other(version, backend, &[], source)
    }

    /// The same, if servers of these lines may not be picked either.
    pub fn pick_other(
        &self,
        version: u64,
        backend: u16,
        lines: &[u32],
        source: &Addr,
    ) -> Option<u16>
        ensures no_version { version_at self.now.versions version ≡ None → result ≡ None }
        ensures no_backend { (kept : Version) → version_at self.now.versions version ≡ Some kept → slice_get kept.plan.backends backend ≡ None → result ≡ None }
        ensures picked { (kept : Version) (found : backends.Backend) → version_at self.now.versions version ≡ Some kept → slice_get kept.plan.backends backend ≡ Some found →
            result ≡ option_map (λ turn. turn.server) (pick_in (served_by self.now.frontends) (is_barred self.now.down lines.now) found (cursor_at kept.cursors backend) source.now) }
    {
        let _versions = self.kept.as_slice();
        let barred = Barred {
            down: self.down.as_slice(),
            lines,
        };
        self.kept.pick(version, backend, barred, source)
    }

    /// The servers that were reported down, and not up since.
    pub fn down(&self) -> &[ServerIdentity]
        ensures { result.now ≡ self.now.down }
    {
        self.down.as_slice()
    }

    /// The frontend of that number.
    pub fn frontend(&self, number: u16) -> Option<FrontendSummary<'_>>
        ensures some { IfSome result (λ summary. (own : FrontendRows) × (slice_get self.now.frontends number ≡ Some own) × Sums own summary) }
        ensures none { IfNone result (slice_get self.now.frontends number ≡ None) }
        ensures few { IfSome result (λ summary. IsFew summary.connections) }
    {
        let own = item(self.frontends.as_slice(), number)?;
        Some(FrontendSummary {
            name: own.name(),
            serial: own.serial(),
            connections: own.count(),
        })
    }

    /// The open connection of that name.
    pub fn row(&self, id: ConnId) -> Option<RowSummary>
        ensures { result ≡ option_map summary_of (row_at self.now.frontends id) }
    {
        let row = find_row(self.frontends.as_slice(), id)?;
        Some(row.summary())
    }

    /// What an open connection was offered, if its server did not take it yet.
    pub fn pending(&self, id: ConnId) -> Option<PendingOffer<'_>>
        ensures { option_map pending_in result ≡ option_and_then pending_of (row_at self.now.frontends id) }
    {
        let row = find_row(self.frontends.as_slice(), id)?;
        row.pending()
    }

    /// The names of the server that an open connection was offered, as the version that judged it has them.
    pub fn server(&self, id: ConnId) -> Option<ServerNames<'_>>
        ensures { option_map names_in result ≡ option_map names_of (option_and_then (λ row. server_of row.phase) (row_at self.now.frontends id)) }
    {
        let row = find_row(self.frontends.as_slice(), id)?;
        row.server(self.kept.as_slice())
    }

    /// How an open connection is served, by the version that judges it.
    pub fn settings(&self, id: ConnId) -> Option<Settings>
        ensures { result ≡ settings_in self.now.frontends self.now.versions id }
    {
        let own = item(self.frontends.as_slice(), id.frontend)?;
        let row = own.row(id.serial)?;
        row.settings(id.frontend, own.name(), self.kept.as_slice())
    }

    /// How many connections of the frontend of that number are open.
    pub fn open_in(&self, number: u16) -> Option<u64>
        ensures { result ≡ option_map (λ own. length own.rows) (slice_get self.now.frontends number) }
    {
        let own = item(self.frontends.as_slice(), number)?;
        Some(own.count())
    }

    /// How many connections of the frontends of that name are open.
    pub fn open_named(&self, name: &[u8]) -> u64
        ensures value { result ≡ open_named self.now.frontends name.now }
        ensures few { result < 2 ^ 63 }
    {
        counts::open_named(self.frontends.as_slice(), name)
    }

    /// How many connections were offered a server of a backend of that name.
    pub fn offered_to(&self, name: &[u8]) -> u64
        ensures { result ≡ offered_to self.now.frontends name.now }
    {
        self.kept.offered(name)
    }

    /// How many open connections were offered a server of a backend.
    pub fn served_by(&self, backend: &Backend, server: &Server) -> u64
        ensures { result ≡ served_by self.now.frontends (identity_in backend.now server.now) }
    {
        let _versions = self.kept.as_slice();
        self.kept.connections(backend, server)
    }

    /// The same of the server of that number in the backend of that number, where the newest version has one. It is found
    /// without a look at others.
    pub fn served_at(&self, backend: u16, server: u16) -> Option<u64>
        ensures { result
            ≡ connections_in (served_by self.now.frontends)
            (newest_backend self.now.versions backend) server }
    {
        let _versions = self.kept.as_slice();
        self.kept.connections_at(backend, server)
    }

    /// Lets time pass.
    pub fn pass(&mut self, moment: u64)
        requires { self.old.clock ≤ moment }
        ensures { self.new ≡ rows_passed moment self.old }
    {
        self.tables.pass(moment);
    }

    /// The moment up to which time has passed.
    pub fn clock(&self) -> u64
        ensures value { result ≡ self.now.clock }

        // No entry is gone by then.
        ensures alive { (rows_passed self.now.clock self.now).tables ≡ self.now.tables }
    {
        self.tables.clock()
    }

    /// The incarnation of the table of that number in the newest version.
    fn table_id(&self, number: u16) -> Option<TableId>
        ensures { result
            ≡ option_and_then (λ version. slice_get version.tables number)
            (newest self.now.versions) }
    {
        let version = self.newest()?;
        match item(version.tables.as_slice(), number) {
            Some(id) => Some(*id),
            None => None,
        }
    }

    /// How many entries of the table of that number in the newest version are in memory.
    pub fn entries(&self, number: u16) -> Option<u64>
        ensures { AreInMemory (newest_table self.now.versions self.now.tables number) result }
    {
        let id = self.table_id(number)?;
        self.tables.entries(id)
    }

    /// How many versions are kept.
    pub fn versions(&self) -> u64
        ensures { result ≡ length self.now.versions }
    {
        self.kept.as_slice().len() as u64
    }

    /// How many open connections track an address in the table of that incarnation, and how often it was tracked, as it
    /// is at a moment.
    pub fn counts(&self, id: TableId, addr: &Addr, moment: u64) -> Option<Counts>
        requires { self.now.clock ≤ moment }
        ensures value { result ≡ option_map (entry_counts (open_tracks self.now.frontends) addr.now)
            (table_at (rows_passed moment self.now).tables id) }
        ensures few { IfSome result (λ counts. counts.cur ≤ 3 * 2 ^ 62) }
    {
        self.tables.counts(id, addr, moment)
    }

    /// The table of that incarnation, as its line has it.
    pub fn table(&self, id: TableId) -> Option<&Table>
        ensures { option_copied result ≡ option_map (λ table. table.table) (table_at self.now.tables id) }
    {
        self.tables.table(id)
    }

    /// The key under which the table of that incarnation would track an address, if it could, at whatever moment.
    pub fn key_for(&self, id: TableId, addr: &Addr) -> Option<Addr>
        ensures { (moment : ℕ) → self.now.clock ≤ moment →
            result ≡ key_at (open_tracks self.now.frontends) (rows_passed moment self.now).tables id addr.now }
    {
        self.tables.key_for(id, addr)
    }

    /// What each counter of an open connection tracks.
    pub fn tracks(&self, id: ConnId) -> Option<Tracks>
        ensures slots { result ≡ option_map (λ row. slots_of row.tracks) (row_at self.now.frontends id) }
        ensures present { option_map present result ≡ option_map (λ row. row.tracks) (row_at self.now.frontends id) }
    {
        let row = find_row(self.frontends.as_slice(), id)?;
        Some(row.tracks.slots())
    }

    /// Makes room so that the next so many trackings take no memory.
    pub fn reserve(&mut self, more: u64) -> Result<(), AllocError>
        ensures room { OnOk result (more ≤ self.new.spare) }
        ensures same { self.new ≡ record self.old { spare = self.new.spare } }
        ensures spare { self.old.spare ≤ self.new.spare }
    {
        self.tables.reserve(more)
    }

    /// Gives out the next serial of a frontend to a connection that is refused.
    pub fn skip(&mut self, number: u16)
        requires there { IsSome (slice_get self.old.frontends number) }
        requires fits { IfSome (slice_get self.old.frontends number) (λ own. own.serial + 1 < 2 ^ 64) }
        ensures { self.new ≡ record self.old { frontends = with_item number with_refusal self.old.frontends } }
    {
        self.frontends[usize::from(number)].skip();
    }

    /// Opens a connection that waits for its header, under the next serial of a frontend.
    pub fn insert(
        &mut self,
        number: u16,
        version: u64,
        real: Pair,
        accepted: u64,
    ) -> Result<u64, AllocError>
        requires there { IsSome (slice_get self.old.frontends number) }
        requires fits { IfSome (slice_get self.old.frontends number) (λ own. own.serial + 1 < 2 ^ 64) }
        ensures serial { IfOk result (λ serial. Some serial ≡ option_map (λ own. own.serial + 1) (slice_get self.old.frontends number)) }
        ensures ok { OnOk result (self.new ≡ record self.old { frontends = with_item number (with_arrival version real accepted) self.old.frontends }) }
        ensures err { OnErr result (self.new ≡ self.old) }
    {
        let serial = self.frontends[usize::from(number)].insert(version, real, accepted)?;
        self.kept.enter(version);
        Ok(serial)
    }

    /// Feeds a piece to a connection that waits. Once something is decided, nothing is held of its header.
    pub fn feed(&mut self, id: ConnId, piece: &[u8]) -> HeaderStatus
        requires { IsSome (rest_at self.old.frontends id) }
        ensures status { (rest : Rest) → rest_at self.old.frontends id ≡ Some rest → status_of result ≡ status_on rest piece.now }
        ensures used { used_by result ≤ length piece.now }
        ensures new { self.new ≡ record self.old { frontends = with_conn id (row_fed piece.now) self.old.frontends } }
    {
        self.frontends[usize::from(id.frontend)].feed(id.serial, piece)
    }

    /// Gives a connection that waits, and that the version of that number judges, to a server of that version. It takes
    /// no memory.
    pub fn offer(&mut self, id: ConnId, version: u64, seat: ServerChoice)
        requires waits { IsSome (rest_at self.old.frontends id) }
        requires judged { IfSome (row_at self.old.frontends id) (λ row. row.version ≡ version) }
        requires server { (there : HasServer self.old.versions version seat.line seat.server) × (there.server.to ≡ seat.to) }
        ensures { self.new ≡ record self.old { frontends = with_conn id (row_offered self.old.versions seat) self.old.frontends; versions = map (with_offer version seat.line seat.server) self.old.versions } }
    {
        let slot = self.kept.offer(version, seat.line, seat.server);
        self.frontends[usize::from(id.frontend)].offer(id.serial, seat, slot);
    }

    /// Gives a connection that was offered a server of the version of that number to another one of it. It takes no
    /// memory.
    pub fn move_to(&mut self, id: ConnId, version: u64, seat: ServerChoice)
        requires moves { (row : Row) × (row_at self.old.frontends id ≡ Some row) × IsMovable row.phase }
        requires judged { IfSome (row_at self.old.frontends id) (λ row. row.version ≡ version) }
        requires server { (there : HasServer self.old.versions version seat.line seat.server) × (there.server.to ≡ seat.to) }
        ensures { self.new ≡ record self.old { frontends = with_conn id (row_moved self.old.versions seat) self.old.frontends; versions = map (with_offer version seat.line seat.server) self.old.versions } }
    {
        let slot = self.kept.offer(version, seat.line, seat.server);
        let left = self.frontends[usize::from(id.frontend)].move_to(id.serial, seat, slot);
        self.kept.give_back(left);
    }

    /// Notes that its server took a connection, if it was offered one.
    pub fn up(&mut self, id: ConnId)
        requires { IsSome (row_at self.old.frontends id) }
        ensures { self.new ≡ record self.old { frontends = with_conn id row_up self.old.frontends } }
    {
        self.frontends[usize::from(id.frontend)].up(id.serial);
    }

    /// Lets a counter of a connection, which tracks nothing, track a key that can be tracked. It takes no memory.
    pub fn track(&mut self, id: ConnId, track: Track)
        requires there { IsSome (row_at self.old.frontends id) }
        requires counter { track.counter < COUNTERS }
        requires free { IfSome (row_at self.old.frontends id) (λ row. track_of track.counter row.tracks ≡ None) }
        requires spare { 0 < self.old.spare }
        requires key { key_at (open_tracks self.old.frontends) self.old.tables track.table track.key ≡ Some track.key }
        ensures value { self.new ≡ record self.old { frontends = with_conn id (row_tracking track) self.old.frontends; tables = with_track self.old.clock (open_tracks self.old.frontends) track self.old.tables; spare = self.old.spare - 1 } }

        // As many track each key as with one track more.
        ensures trackers { (table : TableId) (key : Addr) → trackers (open_tracks self.new.frontends) table key ≡ trackers (open_tracks self.old.frontends ++ track ∷ []) table key }
    {
        let tracking = self.tables.track(track.table, &track.key);
        self.frontends[usize::from(id.frontend)].track(id.serial, track.counter, tracking);
    }

    /// Ends a connection, if it is open, with what it tracks, in the order of counters. It needs no memory.
    pub fn remove(&mut self, id: ConnId)
        ensures { self.new ≡ record self.old { frontends = without_conn id self.old.frontends; tables = without_tracks self.old.clock (tracks_at self.old.frontends id) self.old.tables } }
    {
        if let Some(row) = take_conn(&mut self.frontends, id) {
            let version = row.version;
            let Holdings { tracks, slot } = row.end();
            self.tables.release(tracks);
            give_back(&mut self.kept, slot);
            self.kept.leave(version);
        }
    }

    /// Brings a plan into force, as the version of that number, which follows the newest one: its tables that are written
    /// the same as tables of that one are the same, and the others begin. Open connections keep their versions.
    pub fn reload(&mut self, alloc: Global, number: u64, plan: Plan) -> Result<(), AllocError>
        requires sound { IsSoundPlan plan }
        requires next { IsNextNumber number self.old.versions self.old.tables }
        requires kept { AreVersionsKept self.old.frontends self.old.versions }
        ensures ok { OnOk result (self.new ≡ record self.old {
          versions = with_version self.old.versions (Some (number, plan));
          tables = self.old.tables ++ tables_with (newest self.old.versions) (Some (number, plan));
        }) }
        ensures err { OnErr result (self.new ≡ self.old) }
    {
        install_version(&mut self.kept, &mut self.tables, alloc, number, plan)
    }

    /// Forgets the versions that are neither in force nor of an open connection, and then the tables that no version
    /// lists. Open connections track no key of those. Where no version is forgotten, no table is looked at. It takes no
    /// memory.
    pub fn forget(&mut self)
        requires { AreTracksHeld self.old.frontends (versions_needed self.old.frontends self.old.versions) }
        ensures { self.new ≡ record self.old {
          versions = versions_needed self.old.frontends self.old.versions;
          tables = filter (is_listed_by (versions_needed self.old.frontends self.old.versions)) self.old.tables;
        } }
    {
        if self.kept.forget_idle() {
            self.tables.forget(self.kept.as_slice());
        }
    }

    /// A server is down from now on, or is not.
    pub fn mark(&mut self, health: Health, server: ServerIdentity) -> Result<(), AllocError>
        ensures ok { OnOk result (self.new ≡ record self.old { down = marked_by (Some (server, health)) self.old.down }) }
        ensures err { OnErr result (self.new ≡ self.old) }
    {
        mark(&mut self.down, health, server)
    }

    /// The same as plain data.
    pub fn plain(&self, alloc: Global) -> Result<RowsState, AllocError>
        ensures { IfOk result (λ state. state ≡ state_of self.now) }
    {
        Ok(RowsState {
            frontends: plain_frontends(alloc, self.kept.as_slice(), self.frontends.as_slice())?,
            versions: Seq::duplicate_of(alloc, self.kept.as_slice())?,
            tables: self.tables.plain(alloc)?,
            down: Seq::duplicate_of(alloc, self.down.as_slice())?,
        })
    }

    /// Ends all connections.
    pub fn end(self) {
        let Rows {
            frontends,
            mut kept,
            mut tables,
            down: _down,
        } = self;
        end_all(frontends, &mut kept, &mut tables);
    }
}

fn plain_frontends(
    alloc: Global,
    versions: &[Version],
    frontends: &[FrontendState],
) -> Result<Seq<FrontendRows>, AllocError>
    requires { AreSound versions.now }
    ensures { IfOk result (λ copies. copies ≡ map (plain_frontend versions.now) frontends.now) }
{
    let mut copies = Seq::new(alloc);
    for own in frontends {
        copies.push(own.plain(alloc, versions)?)?;
    }
    Ok(copies)
}

fn find_row(frontends: &[FrontendState], id: ConnId) -> Option<&StoredRow>
    ensures { option_copied result ≡ stored_in id.serial (slice_get frontends.now id.frontend) }
{
    let own = item(frontends, id.frontend)?;
    own.row(id.serial)
}

/// Takes the connection of that name out, if it is open.
fn take_conn(frontends: &mut Vec<FrontendState>, id: ConnId) -> Option<StoredRow>
    ensures row { result ≡ stored_in id.serial (slice_get frontends.old.items id.frontend) }
    ensures left { (versions : List Version) → map (plain_frontend versions) frontends.new.items ≡ without_conn id (map (plain_frontend versions) frontends.old.items) }
    ensures counts { IfSome result (λ row. (worth : StoredRow → ℕ) → rows_total worth frontends.new.items + worth row ≡ rows_total worth frontends.old.items) }
    ensures none { IfNone result ((worth : StoredRow → ℕ) → rows_total worth frontends.new.items ≡ rows_total worth frontends.old.items) }
    ensures len { length frontends.new.items ≡ length frontends.old.items }
    ensures rows { (kept : VersionsValue) → AllRows (HasSlot kept) frontends.old.items → AllRows (HasSlot kept) frontends.new.items }
    ensures small { AllByRecursion (λ own. IsFew (length own.rows)) frontends.old.items → AllByRecursion (λ own. IsFew (length own.rows)) frontends.new.items }
{
    let number = usize::from(id.frontend);
    if number >= frontends.len() {
        return None;
    }
    frontends[number].remove(id.serial)
}
