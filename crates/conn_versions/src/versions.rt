//! Versions that are kept.
ghost use Rattle.std.specs.Prelude.{◌≡◌, ◌+◌, ◌-◌, ◌<◌, ◌^◌, ◌==◌, ◌||◌, ◌&&◌, ℕ, true, false, not, nat_lt, List, [], ◌∷◌, map, filter, length, position, slice_get, slice_set, option_map, None, Some, IfNone, IfOk, IfSome, IsSome, IsTrue, OnOk, OnErr};
ghost use Rattle.std.specs.List.{AllByRecursion};
ghost use Rattle.std.specs.Option.{option_copied, option_map_or};
ghost use Rattle.slot_core.specs.declared.slots.Count.{Count};
ghost use Rattle.slot_core.specs.Counts.{identity_at, named_at, open_at, open_in, open_in_all, slots_at, IdentitiesDiffer};
ghost use Rattle.plan_types.specs.Lines.{has_line};
ghost use Rattle.plan_types.specs.Sound.{IsSoundBackend, IsSoundPlan};
ghost use Rattle.plan_types.specs.declared.plan.Backend as backends;
ghost use Rattle.conn_model.specs.declared.plain.Version as versions;
ghost use Rattle.conn_model.specs.Answer.{version_at};
ghost use Rattle.conn_model.specs.Counts.{newest_backend};
ghost use Rattle.conn_model.specs.Words.{newest, Rise};
ghost use Rattle.conn_model.specs.History.{new_version, next_version, with_offer, with_version};
ghost use Rattle.conn_model.specs.Tables.{written_tables};
ghost use Rattle.conn_model.specs.Servers.{cursor_at, identity_in, pick_in, with_cursor};
ghost use Rattle.conn_versions.specs.Judged.{AreAllInUse, in_use, is_in_use, judged_by, judged_of};
ghost use Rattle.conn_versions.specs.Barred.{is_barred};
ghost use Rattle.conn_versions.specs.Kept.{AreAllNoted, AreCounted, AreTied};
ghost use Rattle.conn_versions.specs.Slots.{KeepsPlaces};
ghost use Rattle.conn_versions.specs.declared.versions.VersionPicks.{VersionPicks};
ghost use Rattle.conn_versions.specs.Versions.{connections_in, has_number, open_to, AreSound, HasServer};

use crate::barred::Barred;
use crate::loads::item;
use crate::opening::{cursors, table_ids};
use crate::picks::{
    BackendPicks, connections_at, cycle_of, note_places, pick, picks_of, slot_of, use_server,
};
use addr_core::Addr;
use conn_model::plain::Version;
use list_core::{Seq, newest};
use plan_types::{Backend, Plan, Server};
use proxy_types::Place;
use slot_core::{NamedPlaces, Slot, Slots};
use std::alloc::{AllocError, Global};
use std::fmt::{self, Debug, Formatter};
use std::marker::Model;
use std::mem;

/// What picks of the backends of one version go by, and the connections that it judges.
#[derive(Debug, Drop)]
pub struct VersionPicks {
    pub backends: Vec<BackendPicks>,
    /// How many open connections the version judges.
    pub connections: u64,
}

/// The versions that are kept, with what picks of their servers need. Of each server the open connections are counted,
/// by the name of its backend, its own name and its address, through all versions; and of each version those that it
/// judges.
#[derive(Drop)]
pub struct Versions {
    alloc: Global,
    versions: Vec<Version>,
    /// Of each version.
    picks: Vec<VersionPicks>,
    /// Whether it is known that each version but the newest judges an open connection.
    settled: bool,
    slots: Slots,
}

impl Model for Versions {
    ghost use Rattle.conn_versions.specs.Versions.{VersionsValue};
    ghost use Rattle.conn_versions.specs.Kept.{AreVersions, connections_of};

    ghost Value = { VersionsValue };

    ghost view = { λ v. record { versions = v.versions.items; counts = v.slots; judged = connections_of v.picks.items } };

    ghost invariant = { λ v. AreVersions v.slots v.versions.items v.picks.items v.settled };
}

/// Without what is known of them, which only spares a look at each.
impl Debug for Versions {
    fn fmt<W: fmt::Write>(&self, f: &mut Formatter<W>) -> fmt::Result {
        f.debug_struct("Versions")
            .field("alloc", &self.alloc)
            .field("versions", &self.versions)
            .field("picks", &self.picks)
            .field("slots", &self.slots)
            .finish()
    }
}

impl Versions {
    /// The first version, of that plan. No connection is open, and nothing of its backends was used.
    pub fn new(alloc: Global, plan: Plan) -> Result<Versions, AllocError>
        requires { IsSoundPlan plan }
        ensures versions { IfOk result (λ kept. kept.versions ≡ new_version 1 plan ∷ []) }
        ensures open { IfOk result (λ kept. (place : ℕ) → open_at place kept.counts ≡ 0) }
        ensures judged { IfOk result (λ kept. (number : ℕ) → judged_of kept number ≡ 0) }
    {
        let mut slots = Slots::new(alloc);
        let mut named = slots.none_named(alloc)?;
        let backends = picks_of_all(alloc, plan.backends.as_slice(), &[], &mut slots, &mut named)?;
        let mut picks = Vec::new(alloc);
        picks.push(VersionPicks {
            backends,
            connections: 0,
        })?;
        let mut versions = Vec::new(alloc);
        versions.push(version_after(alloc, 1, None, plan)?)?;
        Ok(Versions {
            alloc,
            versions,
            picks,
            settled: false,
            slots,
        })
    }

    /// Adds the version of that number, of that plan: it is in force from now on. A table that is written the same as one of
    /// the version before it keeps its incarnation; nothing of its backends was used, and the open connections of a server
    /// count on.
    pub fn push(&mut self, number: u64, plan: Plan) -> Result<(), AllocError>
        requires sound { IsSoundPlan plan }
        requires next { AllByRecursion (λ version. version.number < number) self.old.versions }
        ensures ok { OnOk result (self.new.versions ≡ with_version self.old.versions (Some (number, plan))) }
        ensures err { OnErr result (self.new.versions ≡ self.old.versions) }
        ensures open { (place : ℕ) → open_at place self.new.counts ≡ open_at place self.old.counts }
        ensures identities { (place : ℕ) → 0 < open_at place self.old.counts → identity_at place self.new.counts ≡ identity_at place self.old.counts }
        ensures judged { (number : ℕ) → judged_of self.new number ≡ judged_of self.old number }
        ensures begins { OnOk result (judged_of self.new number ≡ 0) }
    {
        let before = newest(self.versions.as_slice());
        let version = version_after(self.alloc, number, before, plan)?;
        let mut named = named_places(self.alloc, &self.slots, self.picks.as_slice())?;
        let backends = picks_of_all(
            self.alloc,
            version.plan.backends.as_slice(),
            newest_picks(self.picks.as_slice()),
            &mut self.slots,
            &mut named,
        )?;
        self.versions.try_reserve(1)?;
        self.picks.try_reserve(1)?;
        self.settled = false;
        self.versions.push_reserved(version);
        self.picks.push_reserved(VersionPicks {
            backends,
            connections: 0,
        });
        Ok(())
    }

    /// Forgets the version of that number. It takes no memory.
    pub fn forget(&mut self, number: u64)
        ensures versions { self.new.versions ≡ filter (λ version. not (version.number == number)) self.old.versions }
        ensures counts { self.new.counts ≡ self.old.counts }
        ensures judged { (other : ℕ) → (other == number) ≡ false → judged_of self.new other ≡ judged_of self.old other }
    {
        if let Some(place) = place_of(self.versions.as_slice(), number) {
            let _version = self.versions.remove(place);
            let _picks = self.picks.remove(place);
            self.settled = false;
        }
    }

    /// Forgets the versions that are neither the newest nor judge an open connection; whether there was one. It takes no
    /// memory.
    pub fn forget_idle(&mut self) -> bool
        ensures versions { self.new.versions ≡ in_use (judged_of self.old) (option_map_or (λ version. version.number) (newest self.old.versions) 0) self.old.versions }
        ensures counts { self.new.counts ≡ self.old.counts }
        ensures judged { (number : ℕ) → IsSome (version_at self.new.versions number) → judged_of self.new number ≡ judged_of self.old number }
        ensures some { result ≡ true → length self.new.versions < length self.old.versions }
        ensures none { result ≡ false → self.new.versions ≡ self.old.versions }
    {
        if self.is_settled() {
            return false;
        }
        let Some(newest) = newest(self.as_slice()) else {
            return false;
        };
        let force = newest.number;
        let mut some = false;
        while let Some(number) = self.first_idle(force) {
            self.forget(number);
            some = true;
        }
        self.settle();
        some
    }

    /// Whether it is known that no version is to be forgotten.
    fn is_settled(&self) -> bool
        ensures { IsTrue result → AreAllInUse self.now }
    {
        self.settled
    }

    /// Notes that no version is to be forgotten.
    fn settle(&mut self)
        requires { AreAllInUse self.old }
        ensures { self.new ≡ self.old }
    {
        self.settled = true;
    }

    /// The number of the first version that is neither the one in force nor judges an open connection.
    fn first_idle(&self, force: u64) -> Option<u64>
        ensures some { IfSome result (λ number. IsSome (version_at self.now.versions number) × (is_in_use (judged_of self.now) force number ≡ false)) }
        ensures none { IfNone result ((number : ℕ) → IsSome (version_at self.now.versions number) → is_in_use (judged_of self.now) force number ≡ true) }
    {
        for (place, version) in self.versions.iter().enumerate() {
            if !is_in_use(version.number, force, self.picks[place].connections) {
                return Some(version.number);
            }
        }
        None
    }

    /// By number, the newest last.
    pub fn as_slice(&self) -> &[Version]
        ensures versions { result.now ≡ self.now.versions }
        ensures sound { AreSound self.now.versions }
        ensures apart { IdentitiesDiffer self.now.counts }
    {
        self.versions.as_slice()
    }

    /// The number of the server that is picked for a source (HAProxy manual, `balance`), of the backend of that number
    /// in the version of that number. None where no server that may be used and is not barred has room, or where there is no
    /// such backend.
    pub fn pick(&self, version: u64, backend: u16, barred: Barred<'_>, source: &Addr) -> Option<u16>
        ensures no_version { version_at self.now.versions version ≡ None → result ≡ None }
        ensures no_backend { (kept : versions.Version) → version_at self.now.versions version ≡ Some kept → slice_get kept.plan.backends backend ≡ None → result ≡ None }
        ensures picked { (kept : versions.Version) (found : backends.Backend) → version_at self.now.versions version ≡ Some kept → slice_get kept.plan.backends backend ≡ Some found →
            result ≡ option_map (λ turn. turn.server) (pick_in (open_to self.now.counts) (is_barred barred.entry.down.now barred.entry.lines.now) found (cursor_at kept.cursors backend) source.now) }
    {
        let place = place_of(self.versions.as_slice(), version)?;
        let number = usize::from(backend);
        let kept = &self.versions[place];
        let own = &self.picks[place];
        if number < kept.plan.backends.len() {
            pick(
                &kept.plan.backends.as_slice()[number],
                cursor_at(kept.cursors.as_slice(), number),
                &own.backends[number],
                &self.slots,
                barred,
                source,
            )
        } else {
            None
        }
    }

    /// How many connections to a server of a backend are open.
    pub fn connections(&self, backend: &Backend, server: &Server) -> u64
        ensures { result ≡ open_to self.now.counts (identity_in backend.now server.now) }
    {
        self.slots.count_of(backend.name.as_slice(), server.name.as_slice(), &server.to)
    }

    /// The same of the server of that number in the backend of that number, where the newest version has one. It is found
    /// without a look at others.
    pub fn connections_at(&self, backend: u16, server: u16) -> Option<u64>
        ensures { result
            ≡ connections_in (open_to self.now.counts)
            (newest_backend self.now.versions backend) server }
    {
        let place = newest_place(self.versions.as_slice())?;
        let number = usize::from(backend);
        let kept = &self.versions[place];
        let own = &self.picks[place];
        if number >= kept.plan.backends.len() {
            return None;
        }
        connections_at(
            &kept.plan.backends.as_slice()[number],
            &own.backends[number],
            &self.slots,
            server,
        )
    }

    /// How many connections were offered a server of a backend of that name.
    pub fn offered(&self, name: &[u8]) -> u64
        ensures { result ≡ open_in name.now self.now.counts }
    {
        self.slots.offered(name)
    }

    /// Counts one more open connection of the server of a line, which has that number in its backend, and moves what was
    /// last used of the backend. It takes no memory.
    pub fn offer(&mut self, version: u64, line: u32, server: u16) -> Slot
        requires there { HasServer self.old.versions version line server }
        requires below { open_in_all self.old.counts < 2 ^ 64 - 1 }
        ensures versions { self.new.versions ≡ map (with_offer version line server) self.old.versions }
        ensures slot { (there : HasServer self.old.versions version line server) → identity_at result.place self.new.counts ≡ Some (identity_in there.backend there.server) }
        ensures open { (place : ℕ) → open_at place self.new.counts ≡ open_at place self.old.counts + slots_at place result }
        ensures identities { (place : ℕ) → identity_at place self.new.counts ≡ identity_at place self.old.counts }
        ensures judged { (number : ℕ) → judged_of self.new number ≡ judged_of self.old number }
    {
        let Some(place) = place_of(self.versions.as_slice(), version) else {
            unreachable!()
        };
        let Some(number) = place_with(&self.versions[place].plan, line, server) else {
            unreachable!()
        };
        let ix = slot_of(&self.picks[place].backends[number], server);
        let version = &mut self.versions[place];
        let own = &mut self.picks[place].backends;
        move_cursor(self.alloc, version, own, number, server);
        self.slots.take(ix)
    }

    /// Counts one open connection of a server less. It takes no memory.
    pub fn give_back(&mut self, slot: Slot)
        requires { 0 < open_at slot.place self.old.counts }
        ensures versions { self.new.versions ≡ self.old.versions }
        ensures open { (place : ℕ) → open_at place self.new.counts + slots_at place slot ≡ open_at place self.old.counts }
        ensures identities { (place : ℕ) → identity_at place self.new.counts ≡ identity_at place self.old.counts }
        ensures judged { (number : ℕ) → judged_of self.new number ≡ judged_of self.old number }
    {
        self.slots.give_back(slot);
    }

    /// Counts one more open connection of the version of that number, if it is kept. It takes no memory.
    pub fn enter(&mut self, number: u64)
        requires below { IsSome (version_at self.old.versions number) → judged_of self.old number < 2 ^ 64 - 1 }
        ensures versions { self.new.versions ≡ self.old.versions }
        ensures counts { self.new.counts ≡ self.old.counts }
        ensures judged { (other : ℕ) → IsSome (version_at self.old.versions other) → judged_of self.new other ≡ judged_of self.old other + judged_by other number }
    {
        if let Some(place) = place_of(self.versions.as_slice(), number) {
            self.picks[place].connections += 1;
        }
    }

    /// Counts one open connection of the version of that number less, if it is kept. It takes no memory.
    pub fn leave(&mut self, number: u64)
        requires there { IsSome (version_at self.old.versions number) → 0 < judged_of self.old number }
        ensures versions { self.new.versions ≡ self.old.versions }
        ensures counts { self.new.counts ≡ self.old.counts }
        ensures judged { (other : ℕ) → IsSome (version_at self.old.versions other) → judged_of self.new other + judged_by other number ≡ judged_of self.old other }
    {
        if let Some(place) = place_of(self.versions.as_slice(), number) {
            let own = &mut self.picks[place];
            own.connections -= 1;
            let left = own.connections;
            self.settled = stays_settled(self.settled, left);
        }
    }
}

/// Whether a version is in force, where that is the one, or judges an open connection.
fn is_in_use(number: u64, force: u64, connections: u64) -> bool
    ensures { result ≡ (number == force) || nat_lt 0 connections }
{
    number == force || connections > 0
}

/// Whether no version is to be forgotten still, once one judges so many.
fn stays_settled(settled: bool, connections: u64) -> bool
    ensures { result ≡ settled && nat_lt 0 connections }
{
    settled && connections > 0
}

/// The version of that number, of a plan, which follows another, if there is one before.
fn version_after(
    alloc: Global,
    number: u64,
    before: Option<&Version>,
    plan: Plan,
) -> Result<Version, AllocError>
    requires { IsSoundPlan plan }
    ensures { IfOk result (λ version. version ≡ next_version number (written_tables (option_copied before.entry)) plan) }
{
    let tables = table_ids(alloc, number, before, plan.tables.as_slice())?;
    let cursors = cursors(alloc, plan.backends.as_slice())?;
    Ok(Version {
        number,
        plan,
        tables,
        cursors,
    })
}

/// The places that the kept versions name.
fn named_places(
    alloc: Global,
    slots: &Slots,
    picks: &[VersionPicks],
) -> Result<NamedPlaces, AllocError>
    ensures many { IfOk result (λ named. length named ≡ length slots.now) }
    ensures noted { IfOk result (λ named. (n : ℕ) (own : VersionPicks) → slice_get picks.now n ≡ Some own → AreAllNoted named own.backends.items) }
{
    let mut named = slots.none_named(alloc)?;
    for own in picks {
        note_all(&mut named, own.backends.as_slice());
    }
    Ok(named)
}

/// Names the places of the servers of each backend.
fn note_all(named: &mut NamedPlaces, own: &[BackendPicks])
    ensures many { length named.new ≡ length named.old }
    ensures noted { AreAllNoted named.new own.now }
    ensures still_named { (place : ℕ) → named_at place named.old ≡ true → named_at place named.new ≡ true }
{
    for picks in own {
        note_places(named, picks.slots.as_slice());
    }
}

/// What picks of the backends of the newest version go by.
fn newest_picks(picks: &[VersionPicks]) -> &[BackendPicks] {
    match newest(picks) {
        Some(own) => own.backends.as_slice(),
        None => &[],
    }
}

/// What picks of each backend go by where nothing was used. `before` is what those of a version before go by.
fn picks_of_all(
    alloc: Global,
    backends: &[Backend],
    before: &[BackendPicks],
    slots: &mut Slots,
    named: &mut NamedPlaces,
) -> Result<Vec<BackendPicks>, AllocError>
    requires sound { AllByRecursion IsSoundBackend backends.now }
    requires apart { IdentitiesDiffer slots.old }
    requires many { length named.old ≡ length slots.old }
    ensures tied { IfOk result (λ own. AreTied backends.now (map (λ backend. None) backends.now) own.items) }
    ensures counted { IfOk result (λ own. AreCounted slots.new backends.now own.items) }
    ensures keeps { KeepsPlaces slots.old named.old slots.new named.new }
{
    let mut all = Vec::new(alloc);
    for backend in backends {
        let cycle = cycle_of(alloc, backend.servers.as_slice(), before, all.as_slice())?;
        all.push(picks_of(alloc, backend, cycle, slots, named)?)?;
    }
    Ok(all)
}

/// The place of the version of that number. Numbers rise, so that it is found by halves; the newest, which most calls
/// are for, is looked at first.
fn place_of(versions: &[Version], number: u64) -> Option<usize>
    requires { Rise (λ version. version.number) versions.now }
    ensures { result ≡ position (has_number number) versions.now }
{
    match newest(versions) {
        Some(version) if version.number == number => Some(versions.len() - 1),
        _ => versions
            .binary_search_by_key(&number, |version| version.number)
            .ok(),
    }
}

/// The place of the newest version.
fn newest_place(versions: &[Version]) -> Option<usize>
    ensures some { IfSome result (λ place. place + 1 ≡ length versions.now) }
    ensures none { IfNone result (versions.now ≡ []) }
{
    versions.len().checked_sub(1)
}

/// Whether a backend has a server of that line.
pub fn has_line(backend: &Backend, line: u32) -> bool
    ensures { result ≡ has_line line backend.now }
{
    backend
        .servers
        .as_slice()
        .iter()
        .any(|server| server.line == line)
}

/// The place of the backend that has the server of that line.
pub fn line_place(backends: &[Backend], line: u32) -> Option<usize>
    ensures { result ≡ position (has_line line) backends.now }
{
    backends.iter().position(|backend| has_line(backend, line))
}

/// The place of the last backend that begins before that line.
fn place_before(backends: &[Backend], line: u32) -> Option<usize>
    ensures { IfSome result (λ place. place < length backends.now) }
{
    let next = backends.partition_point(|backend| backend.line < line);
    next.checked_sub(1)
}

/// Whether the server of that number in the backend is of that line.
fn has_server(backend: &Backend, line: u32, number: u16) -> bool
    ensures { IsTrue result → has_line line backend.now ≡ true }
{
    match item(backend.servers.as_slice(), number) {
        Some(server) => server.line == line,
        None => false,
    }
}

/// The place of the backend that has the server of a line. It is found without a look at other servers, where the
/// backend has it under that number.
fn place_with(plan: &Plan, line: u32, number: u16) -> Option<usize>
    requires { IsSoundPlan plan.now }
    ensures { result ≡ position (has_line line) plan.now.backends }
{
    let backends = plan.backends.as_slice();
    match place_before(backends, line) {
        Some(place) if has_server(&backends[place], line, number) => Some(place),
        _ => line_place(backends, line),
    }
}

fn cursor_at(cursors: &[Option<Place>], number: usize) -> Option<Place>
    ensures { result ≡ cursor_at cursors.now number }
{
    match cursors.get(number) {
        Some(cursor) => *cursor,
        None => None,
    }
}

/// Puts a cursor in place of one of a version.
fn set_cursor(alloc: Global, version: &mut Version, number: usize, cursor: Option<Place>)
    requires { number < length version.old.cursors }
    ensures { version.new ≡ record version.old { cursors = slice_set version.old.cursors number cursor } }
{
    let cursors = mem::replace(&mut version.cursors, Seq::new(alloc));
    let mut cursors = cursors.into_vec();
    cursors[number] = cursor;
    version.cursors = Seq::of(cursors);
}

/// Moves what was last used of the backend of that number, once that server of it was offered.
fn move_cursor(
    alloc: Global,
    version: &mut Version,
    own: &mut Vec<BackendPicks>,
    number: usize,
    server: u16,
)
    requires there { number < length version.old.plan.backends }
    requires sound { AllByRecursion IsSoundBackend version.old.plan.backends }
    requires tied { AreTied version.old.plan.backends version.old.cursors own.old.items }
    ensures version { version.new ≡ record version.old { cursors = with_cursor version.old.plan.backends number server version.old.cursors } }
    ensures tied { AreTied version.new.plan.backends version.new.cursors own.new.items }
    ensures counted { (counts : List Count) → AreCounted counts version.old.plan.backends own.old.items → AreCounted counts version.new.plan.backends own.new.items }
{
    let backend = &version.plan.backends.as_slice()[number];
    let cursor = cursor_at(version.cursors.as_slice(), number);
    let next = use_server(backend, cursor, &mut own[number], server);
    set_cursor(alloc, version, number, next);
}
