//! The open connections of one frontend.
ghost use Rattle.std.specs.Prelude.{◌≡◌, ◌+◌, ◌^◌, ◌<◌, ◌≤◌, ℕ, List, [], ◌∷◌, ◌++◌, length, not, filter, find, map, IfOk, IfSome, IfNone, OnOk, OnErr, IsSome, None, Some, vec_len};
ghost use Rattle.std.specs.List.{AllByRecursion};
ghost use Rattle.std.specs.Option.{option_copied};
ghost use Rattle.keyed_list.specs.Entries.{IsFew};
ghost use Rattle.pp_any.specs.declared.rest.Rest.{Rest};
ghost use Rattle.pp_any.specs.Rest.{IsRest};
ghost use Rattle.pp_any.specs.NextPiece.{status_on};
ghost use Rattle.addr_core.specs.declared.addr.Addr.{Addr};
ghost use Rattle.proxy_types.specs.declared.limits.TheConstants.{COUNTERS};
ghost use Rattle.plan_types.specs.declared.track.TableId.{TableId};
ghost use Rattle.conn_model.specs.declared.plain.Version.{Version};
ghost use Rattle.conn_model.specs.Counts.{change_row, total};
ghost use Rattle.conn_model.specs.Words.{Rise};
ghost use Rattle.conn_rows.specs.declared.row.StoredRow.{StoredRow};
ghost use Rattle.conn_rows.specs.Stored.{IsHeld, StoredFrontend, at_stage, has_serial, plain_frontend, plain_row, rest_kept, rest_within, slot_of, stored_arrival, stored_tracking, with_stored};
ghost use Rattle.slot_core.specs.Counts.{open_at, slots_at};
ghost use Rattle.conn_tables.specs.Tables.{cur_in};
ghost use Rattle.conn_tables.specs.Tracks.{counter_on, on_counter, track_by};
ghost use Rattle.conn_versions.specs.Versions.{AreSound, VersionsValue};
ghost use Rattle.conn_rows.specs.Value.{row_judged, row_on, row_slots, rows_total, HasSlot};
ghost use Rattle.conn_model.specs.Changes.{held_after, row_tracking, with_row};
ghost use Rattle.conn_rows.specs.Changes.{stage_fed, stage_moved, stage_offered, stage_up, status_of, stored_fed, stored_moved, stored_up, used_by, CanMove};

use crate::packed::PackedChoice;
use crate::row::{Holdings, ServerChoice, ServerHold, Stage, StoredRow};
use crate::row_list::RowList;
use crate::slots::give_back;
use addr_core::Pair;
use arrayvec::ArrayVec;
use conn_model::plain::{FrontendRows, Row, Version};
use conn_tables::{Tables, Tracking};
use conn_versions::{Slot, Versions};
use list_core::{Duplicate, Seq};
use pp_any::{Fed, HeaderFault, Parser};
use pp_v1::Meaning;
use std::alloc::{AllocError, Global};
use std::marker::Model;
use std::mem;

/// What a piece says of the PROXY header of a connection. Counts are of bytes of the piece.
#[derive(Clone, Copy, Debug, PartialEq, Eq)]
pub enum HeaderStatus {
    /// Nothing is decided yet.
    Wait,
    /// The header ends after so many bytes.
    Whole(Meaning, usize),
    /// The header has a fault, which the last of so many bytes makes certain.
    Bad(HeaderFault, usize),
}

/// The rows of one frontend, in the order of their serials. It cannot be dropped: it ends by `end`.
pub struct FrontendState {
    name: Seq<u8>,
    serial: u64,
    rows: RowList,
}

impl Model for FrontendState {
    ghost use Rattle.conn_rows.specs.Stored.{AreOpen, StoredFrontend};

    ghost Value = { StoredFrontend };

    ghost view = { λ f. record { name = f.name; serial = f.serial; rows = f.rows } };

    ghost invariant = { λ f. AreOpen f.serial f.rows };
}

impl FrontendState {
    /// A frontend of which nothing is open.
    pub fn new(alloc: Global, name: Seq<u8>, serial: u64) -> Self
        ensures { result ≡ record { name = name; serial = serial; rows = [] } }
    {
        FrontendState {
            name,
            serial,
            rows: RowList::new(alloc),
        }
    }

    pub fn name(&self) -> &[u8]
        ensures { result.now ≡ self.now.name }
    {
        self.name.as_slice()
    }

    /// The last serial that was given out.
    pub fn serial(&self) -> u64
        ensures { result ≡ self.now.serial }
    {
        self.serial
    }

    /// How many connections are open.
    pub fn count(&self) -> u64
        ensures value { result ≡ length self.now.rows }
        ensures few { IsFew result }
    {
        self.rows.len() as u64
    }

    /// The row of that serial.
    pub fn row(&self, serial: u64) -> Option<&StoredRow>
        ensures { option_copied result ≡ find (has_serial serial) self.now.rows }
    {
        self.rows.find(serial)
    }

    /// Gives out the next serial to a connection that is refused.
    pub fn skip(&mut self)
        requires { self.old.serial + 1 < 2 ^ 64 }
        ensures new { self.new ≡ record self.old { serial = self.old.serial + 1 } }
        ensures few { IsFew (length self.new.rows) }
    {
        let _few = self.rows.len();
        self.serial += 1;
    }

    /// Gives out the next serial to a connection that waits from now on.
    pub fn insert(&mut self, version: u64, real: Pair, accepted: u64) -> Result<u64, AllocError>
        requires { self.old.serial + 1 < 2 ^ 64 }
        ensures serial { IfOk result (λ serial. serial ≡ self.old.serial + 1) }
        ensures ok { OnOk result (self.new ≡ record self.old { serial = self.old.serial + 1; rows = self.old.rows ++ stored_arrival (self.old.serial + 1) version real accepted ∷ [] }) }
        ensures err { OnErr result (self.new ≡ self.old) }
        ensures few { IsFew (length self.new.rows) }
    {
        let serial = self.serial + 1;
        let row = StoredRow::new(serial, version, real, accepted);
        match self.rows.push(row) {
            Ok(()) => {
                self.serial = serial;
                Ok(serial)
            }
            Err(failed) => {
                failed.value.end_arrival();
                Err(AllocError)
            }
        }
    }

    /// Feeds a piece to a connection that waits. Once something is decided, nothing is held of the header.
    pub fn feed(&mut self, serial: u64, piece: &[u8]) -> HeaderStatus
        requires { IsSome (rest_kept serial self.old.rows) }
        ensures status { (rest : Rest) → rest_kept serial self.old.rows ≡ Some rest → status_of result ≡ status_on rest piece.now }
        ensures used { used_by result ≤ length piece.now }
        ensures new { self.new ≡ record self.old { rows = with_stored serial (stored_fed piece.now) self.old.rows } }
        ensures few { IsFew (length self.new.rows) }
    {
        feed_row(&mut self.rows, serial, piece)
    }

    /// Gives a connection that waits to a server.
    pub fn offer(&mut self, serial: u64, seat: ServerChoice, slot: Slot)
        requires { IsSome (rest_kept serial self.old.rows) }
        ensures new { self.new ≡ record self.old { rows = with_stored serial (at_stage (stage_offered seat slot)) self.old.rows } }
        ensures slots { (place : ℕ) → total (row_slots place) self.new.rows ≡ total (row_slots place) self.old.rows + slots_at place slot }
        ensures each { (kept : VersionsValue) → ((row : StoredRow) → find (has_serial serial) self.old.rows ≡ Some row → HasSlot kept (at_stage (stage_offered seat slot) row)) → AllByRecursion (HasSlot kept) self.old.rows → AllByRecursion (HasSlot kept) self.new.rows }
        ensures few { IsFew (length self.new.rows) }
    {
        let held = ServerHold {
            seat: PackedChoice::of(&seat),
            slot,
            failed: ArrayVec::new(),
            is_up: false,
        };
        match put_stage(&mut self.rows, serial, Stage::Offered(held)) {
            Stage::Waiting(parser) => {
                let _parser = parser;
            }
            Stage::Offered(_held) => unreachable!(),
        }
    }

    /// Gives a connection that was offered a server to another one, and hands out the slot of the one before.
    pub fn move_to(&mut self, serial: u64, seat: ServerChoice, slot: Slot) -> Slot
        requires { (row : StoredRow) × (find (has_serial serial) self.old.rows ≡ Some row) × CanMove row.stage }
        ensures new { self.new ≡ record self.old { rows = with_stored serial (stored_moved seat slot) self.old.rows } }
        ensures left { (row : StoredRow) → find (has_serial serial) self.old.rows ≡ Some row → Some result ≡ slot_of row.stage }
        ensures slots { (place : ℕ) → total (row_slots place) self.new.rows + slots_at place result ≡ total (row_slots place) self.old.rows + slots_at place slot }
        ensures each { (kept : VersionsValue) → ((row : StoredRow) → find (has_serial serial) self.old.rows ≡ Some row → HasSlot kept (stored_moved seat slot row)) → AllByRecursion (HasSlot kept) self.old.rows → AllByRecursion (HasSlot kept) self.new.rows }
        ensures few { IsFew (length self.new.rows) }
    {
        move_row(&mut self.rows, serial, seat, slot)
    }

    /// Notes that its server took a connection, if it was offered one.
    pub fn up(&mut self, serial: u64)
        requires { IsSome (find (has_serial serial) self.old.rows) }
        ensures new { self.new ≡ record self.old { rows = with_stored serial stored_up self.old.rows } }
        ensures few { IsFew (length self.new.rows) }
    {
        up_row(&mut self.rows, serial);
    }

    /// Lets a counter of a connection, which tracks nothing, track.
    pub fn track(&mut self, serial: u64, counter: u8, tracking: Tracking)
        requires counter { counter < COUNTERS }
        requires free { (row : StoredRow) × (find (has_serial serial) self.old.rows ≡ Some row) × (on_counter counter row.tracks ≡ None) }
        ensures plain { (versions : List Version) → plain_frontend versions self.new ≡ with_row serial (row_tracking (track_by counter tracking)) (plain_frontend versions self.old) }
        ensures counts { (id : TableId) (key : Addr) → total (row_on id key) self.new.rows ≡ total (row_on id key) self.old.rows + counter_on id key (Some tracking) }
        ensures slots { (place : ℕ) → total (row_slots place) self.new.rows ≡ total (row_slots place) self.old.rows }
        ensures judged { (number : ℕ) → total (row_judged number) self.new.rows ≡ total (row_judged number) self.old.rows }
        ensures each { (kept : VersionsValue) → AllByRecursion (HasSlot kept) self.old.rows → AllByRecursion (HasSlot kept) self.new.rows }
        ensures few { IsFew (length self.new.rows) }
    {
        put_tracking(&mut self.rows, serial, counter, tracking);
    }

    /// Takes a connection out, if it is open.
    pub fn remove(&mut self, serial: u64) -> Option<StoredRow>
        ensures row { result ≡ find (has_serial serial) self.old.rows }
        ensures left { self.new ≡ record self.old { rows = filter (λ row. not (has_serial serial row)) self.old.rows } }
        ensures none { IfNone result (self.new.rows ≡ self.old.rows) }
        ensures counts { IfSome result (λ row. (worth : StoredRow → ℕ) → total worth self.new.rows + worth row ≡ total worth self.old.rows) }
    {
        self.rows.take(serial)
    }

    /// Equal rows, as plain data, by the plans of these versions.
    pub fn plain(&self, alloc: Global, versions: &[Version]) -> Result<FrontendRows, AllocError>
        requires { AreSound versions.now }
        ensures { IfOk result (λ own. own ≡ plain_frontend versions.now self.now) }
    {
        Ok(FrontendRows {
            name: self.name.duplicate(alloc)?,
            serial: self.serial,
            rows: self.rows.plain(alloc, versions)?,
        })
    }

    /// Ends the frontend with its rows, and what they hold.
    pub fn end(self, kept: &mut Versions, tables: &mut Tables)
        requires tables { (id : TableId) (key : Addr) → total (row_on id key) self.rows ≤ cur_in id key tables.old.tables }
        requires kept { (place : ℕ) → total (row_slots place) self.rows ≤ open_at place kept.old.counts }
        ensures tables { (id : TableId) (key : Addr) → cur_in id key tables.new.tables + total (row_on id key) self.rows ≡ cur_in id key tables.old.tables }
        ensures kept { (place : ℕ) → open_at place kept.new.counts + total (row_slots place) self.rows ≡ open_at place kept.old.counts }
    {
        let FrontendState {
            name: _name,
            serial: _,
            mut rows,
        } = self;
        while let Some(row) = rows.pop() {
            let Holdings { tracks, slot } = row.end();
            tables.release(tracks);
            give_back(kept, slot);
        }
        rows.end();
    }

    /// Ends a frontend of which nothing is open.
    pub fn end_empty(self)
        requires { length self.rows ≡ 0 }
    {
        let FrontendState {
            name: _name,
            serial: _,
            rows,
        } = self;
        rows.end();
    }
}

/// Ends frontends of which nothing is open.
pub fn end_all_empty(mut frontends: Vec<FrontendState>)
    requires { total (λ own. length own.rows) frontends.items ≡ 0 }
{
    while let Some(own) = last_frontend(&mut frontends) {
        own.end_empty();
    }
    frontends.destroy_empty();
}

/// Ends all frontends with their rows, and what they hold.
pub fn end_all(mut frontends: Vec<FrontendState>, kept: &mut Versions, tables: &mut Tables)
    requires tables { (id : TableId) (key : Addr) → rows_total (row_on id key) frontends.items ≤ cur_in id key tables.old.tables }
    requires kept { (place : ℕ) → rows_total (row_slots place) frontends.items ≤ open_at place kept.old.counts }
{
    while let Some(own) = last_frontend(&mut frontends) {
        own.end(kept, tables);
    }
    frontends.destroy_empty();
}

fn last_frontend(frontends: &mut Vec<FrontendState>) -> Option<FrontendState>
    ensures counts { IfSome result (λ own. (worth : StoredFrontend → ℕ) → total worth frontends.new.items + worth own ≡ total worth frontends.old.items) }
    ensures shorter { IfSome result (λ own. vec_len frontends.new + 1 ≡ vec_len frontends.old) }
    ensures none { IfNone result (vec_len frontends.new ≡ 0) }
{
    frontends.pop()
}

/// Puts a stage in place of that of a row, and hands out what was there.
fn put_stage(rows: &mut RowList, serial: u64, stage: Stage) -> Stage
    requires { IsSome (find (has_serial serial) rows.old) }
    ensures rows { rows.new ≡ with_stored serial (at_stage stage) rows.old }
    ensures before { (row : StoredRow) → find (has_serial serial) rows.old ≡ Some row → result ≡ row.stage }
    ensures few { IsFew (length rows.new) }
{
    mem::replace(rows.stage_mut(serial), stage)
}

/// Gives the connection of a row, which was offered a server, to another one.
fn move_row(rows: &mut RowList, serial: u64, seat: ServerChoice, slot: Slot) -> Slot
    requires rise { Rise (λ row. row.serial) rows.old }
    requires there { (row : StoredRow) × (find (has_serial serial) rows.old ≡ Some row) × CanMove row.stage }
    ensures rows { rows.new ≡ with_stored serial (stored_moved seat slot) rows.old }
    ensures left { (row : StoredRow) → find (has_serial serial) rows.old ≡ Some row → Some result ≡ slot_of row.stage }
    ensures few { IsFew (length rows.new) }
{
    move_stage(rows.stage_mut(serial), seat, slot)
}

fn move_stage(stage: &mut Stage, seat: ServerChoice, slot: Slot) -> Slot
    requires { CanMove stage.old }
    ensures stage { stage.new ≡ stage_moved seat slot stage.old }
    ensures left { Some result ≡ slot_of stage.old }
{
    match stage {
        Stage::Waiting(_) => unreachable!(),
        Stage::Offered(held) => {
            held.failed.push(held.seat.seat().line);
            held.seat = PackedChoice::of(&seat);
            held.is_up = false;
            mem::replace(&mut held.slot, slot)
        }
    }
}

/// Notes that its server took the connection of a row, if it was offered one.
fn up_row(rows: &mut RowList, serial: u64)
    requires rise { Rise (λ row. row.serial) rows.old }
    requires there { IsSome (find (has_serial serial) rows.old) }
    ensures rows { rows.new ≡ with_stored serial stored_up rows.old }
    ensures few { IsFew (length rows.new) }
{
    up_stage(rows.stage_mut(serial));
}

fn up_stage(stage: &mut Stage)
    ensures { stage.new ≡ stage_up stage.old }
{
    match stage {
        Stage::Waiting(_) => {}
        Stage::Offered(held) => held.is_up = true,
    }
}

/// Lets a counter of a row, which tracks nothing, track.
fn put_tracking(rows: &mut RowList, serial: u64, counter: u8, tracking: Tracking)
    requires rise { Rise (λ row. row.serial) rows.old }
    requires counter { counter < COUNTERS }
    requires free { (row : StoredRow) × (find (has_serial serial) rows.old ≡ Some row) × (on_counter counter row.tracks ≡ None) }
    ensures rows { rows.new ≡ with_stored serial (stored_tracking counter tracking) rows.old }
    ensures plain { (versions : List Version) → map (plain_row versions) rows.new ≡ change_row serial (row_tracking (track_by counter tracking)) (map (plain_row versions) rows.old) }
    ensures counts { (id : TableId) (key : Addr) → total (row_on id key) rows.new ≡ total (row_on id key) rows.old + counter_on id key (Some tracking) }
    ensures few { IsFew (length rows.new) }
{
    rows.tracks_mut(serial).put(counter, tracking);
}

fn feed_row(rows: &mut RowList, serial: u64, piece: &[u8]) -> HeaderStatus
    requires rise { Rise (λ row. row.serial) rows.old }
    requires held { AllByRecursion (λ row. IsHeld row.stage) rows.old }
    requires waits { IsSome (rest_kept serial rows.old) }
    ensures status { (rest : Rest) → rest_kept serial rows.old ≡ Some rest → status_of result ≡ status_on rest piece.now }
    ensures used { used_by result ≤ length piece.now }
    ensures rows { rows.new ≡ with_stored serial (stored_fed piece.now) rows.old }
    ensures few { IsFew (length rows.new) }
{
    feed_stage(rows.stage_mut(serial), piece)
}

fn feed_stage(stage: &mut Stage, piece: &[u8]) -> HeaderStatus
    requires held { IsHeld stage.old }
    requires waits { IsSome (rest_within stage.old) }
    ensures status { (rest : Rest) → rest_within stage.old ≡ Some rest → status_of result ≡ status_on rest piece.now }
    ensures used { used_by result ≤ length piece.now }
    ensures new { stage.new ≡ stage_fed piece.now stage.old }
{
    match stage {
        Stage::Waiting(parser) => feed_parser(parser, piece),
        Stage::Offered(_) => unreachable!(),
    }
}

fn feed_parser(parser: &mut Parser, piece: &[u8]) -> HeaderStatus
    requires { (b : List ℕ) × IsRest b parser.old }
    ensures status { status_of result ≡ status_on parser.old piece.now }
    ensures used { used_by result ≤ length piece.now }
    ensures new { parser.new ≡ held_after parser.old piece.now }
{
    match mem::take(parser).feed(piece) {
        Fed::More(next) => {
            *parser = next;
            HeaderStatus::Wait
        }
        Fed::Whole(meaning, used) => HeaderStatus::Whole(meaning, used),
        Fed::Bad(fault, used) => HeaderStatus::Bad(fault, used),
    }
}
