//! A table of tracked sources.
ghost use Rattle.std.specs.Prelude.{◌≡◌, ◌+◌, ◌<◌, ◌≤◌, ◌^◌, ◌-◌, ◌&&◌, ℕ, [], Some, find, length, not, nat_lt, is_some, IfOk, OnOk, OnErr, IsOk};
ghost use Rattle.std.specs.List.{list_any};
ghost use Rattle.addr_core.specs.declared.addr.Addr.{Addr};
ghost use Rattle.stick_core.specs.Entries.{cur_of, is_free, is_gone, is_of, living, released, AreInTurn, HasKeysOnce};
ghost use Rattle.stick_core.specs.Listing.{IsSound, can_list, key_taken, entries_after, cur_at, cnt_at, passed, IsShown};
ghost use Rattle.stick_core.specs.PlainEntries.{plain, AreTrackers, count_at, trackers_at, KeysDiffer, tracked_key, with_trackings, touched, trackings_of};

use crate::entries::{PlainEntry, StickEntry, cnt_in, cur_in};
use crate::key::key_of;
use crate::touch_list::TouchList;
use addr_core::{Addr, PackedAddr};
use list_core::Seq;
use proxy_types::{KeyType, Stores};
use std::alloc::{AllocError, Global};
use std::marker::Model;

/// From so many entries on a table has room for as many as it may have. Room that grows step by step moves all entries in
/// some of its steps. To move this many takes some ms.
const MANY: usize = 65_536;

/// One tracking of a key. It is spent by `release` on the table that gave it.
pub struct TrackToken {
    key: PackedAddr,
}

impl Model for TrackToken {
    ghost use Rattle.addr_core.specs.declared.addr.Addr.{Addr};

    ghost Value = { Addr };

    ghost view = { λ t. t.key };
}

impl TrackToken {
    /// The key that is tracked.
    pub fn key(&self) -> Addr
        ensures { result ≡ self.now }
    {
        self.key.addr()
    }
}

/// What is counted of a key.
#[derive(Clone, Copy, Debug, PartialEq, Eq)]
pub struct KeyCounts {
    /// How many counters of open connections track it.
    pub cur: u64,
    /// How often it was tracked, 2^64 - 1 for more.
    pub cnt: u64,
}

/// A table of tracked sources, whose entries contracts see in the order of their last touch, without those that are gone.
/// An entry that is gone stays in memory until a call needs its place: no call looks for more than one.
#[derive(Debug, Drop)]
pub struct StickTable {
    kind: KeyType,
    size: u64,
    stores: Stores,
    expire: u64,
    clock: u64,
    touched: TouchList,
}

impl Model for StickTable {
    ghost use Rattle.stick_core.specs.Entries.{living, AreInTurn};
    ghost use Rattle.stick_core.specs.Listing.{Listing, IsSound};

    ghost Value = { Listing };

    ghost view = { λ t. record { kind = t.kind; size = t.size; stores = t.stores; expire = t.expire; clock = t.clock; entries = living t.expire t.clock t.touched.entries; spare = t.touched.spare } };

    ghost invariant = { λ t. IsSound t.size t.touched.entries × AreInTurn t.clock t.touched.entries };
}

impl StickTable {
    /// An empty table of at most so many entries, which grows by that allocator. An entry that nobody tracks is gone so
    /// many ms after its last touch, 0 for never.
    pub fn new(alloc: Global, kind: KeyType, size: u64, stores: Stores, expire: u64) -> StickTable
        ensures kind { result.kind ≡ kind }
        ensures size { result.size ≡ size }
        ensures stores { result.stores ≡ stores }
        ensures expire { result.expire ≡ expire }
        ensures clock { result.clock ≡ 0 }
        ensures entries { result.entries ≡ [] }
    {
        StickTable {
            kind,
            size,
            stores,
            expire,
            clock: 0,
            touched: TouchList::new(alloc),
        }
    }

    pub fn kind(&self) -> KeyType
        ensures { result ≡ self.now.kind }
    {
        self.kind
    }

    /// How many entries there may be. There are no more, and no two have one key.
    pub fn size(&self) -> u64
        ensures value { result ≡ self.now.size }
        ensures sound { IsSound self.now.size self.now.entries }
        ensures keys { KeysDiffer (plain self.now.entries) }
    {
        self.size
    }

    pub fn stores(&self) -> Stores
        ensures { result ≡ self.now.stores }
    {
        self.stores
    }

    /// How many counters of open connections track the address. What is no key is tracked by none.
    pub fn cur(&self, addr: &Addr) -> u64
        ensures value { result ≡ cur_at self.now addr.now }
        ensures plain_value { (trackers : Addr → ℕ) → AreTrackers trackers self.now.entries → result ≡ trackers_at trackers self.now.kind addr.now }
    {
        self.count_trackers(addr)
    }

    fn count_trackers(&self, addr: &Addr) -> u64
        ensures { result ≡ cur_at self.now addr.now }
    {
        match key_of(self.kind, addr) {
            Some(key) => cur_in(self.touched.entry(&key)),
            None => 0,
        }
    }

    /// How often the address was tracked, 2^64 - 1 for more, as it is at a moment. What is no key never was.
    pub fn cnt(&self, addr: &Addr, moment: u64) -> u64
        requires { self.now.clock ≤ moment }
        ensures value { result ≡ cnt_at (passed moment self.now) addr.now }
        ensures plain_value { result ≡ count_at self.now.kind (plain (passed moment self.now).entries) addr.now }
    {
        self.count_trackings(addr, moment)
    }

    fn count_trackings(&self, addr: &Addr, moment: u64) -> u64
        requires { self.now.clock ≤ moment }
        ensures { result ≡ cnt_at (passed moment self.now) addr.now }
    {
        match key_of(self.kind, addr) {
            Some(key) => cnt_in(living_entry(&self.touched, &key, self.expire, moment)),
            None => 0,
        }
    }

    /// Both counts of the address, as `cur` and `cnt` have them.
    pub fn counts(&self, addr: &Addr, moment: u64) -> KeyCounts
        requires { self.now.clock ≤ moment }
        ensures cur { result.cur ≡ cur_at self.now addr.now }
        ensures cnt { result.cnt ≡ cnt_at (passed moment self.now) addr.now }
        ensures plain_cur { (trackers : Addr → ℕ) → AreTrackers trackers self.now.entries → result.cur ≡ trackers_at trackers self.now.kind addr.now }
        ensures plain_cnt { result.cnt ≡ count_at self.now.kind (plain (passed moment self.now).entries) addr.now }
    {
        self.count_both(addr, moment)
    }

    fn count_both(&self, addr: &Addr, moment: u64) -> KeyCounts
        requires { self.now.clock ≤ moment }
        ensures cur { result.cur ≡ cur_at self.now addr.now }
        ensures cnt { result.cnt ≡ cnt_at (passed moment self.now) addr.now }
    {
        let Some(key) = key_of(self.kind, addr) else {
            return KeyCounts { cur: 0, cnt: 0 };
        };
        let entry = living_entry(&self.touched, &key, self.expire, moment);
        KeyCounts {
            cur: cur_in(entry),
            cnt: cnt_in(entry),
        }
    }

    /// How many track the key of a tracking.
    pub fn trackers(&self, tracked: &TrackToken) -> u64
        ensures { result ≡ cur_of tracked.now self.now.entries }
    {
        cur_in(self.touched.entry(&tracked.key.addr()))
    }

    /// Whether the address could be tracked.
    pub fn takes(&self, addr: &Addr) -> bool
        ensures { result ≡ is_some (key_taken self.now addr.now) }
    {
        self.listed_key(addr).is_some()
    }

    /// The key under which the address would be tracked, if it could be. Time makes no difference: an entry that is gone
    /// gives its place to another key, and one that is not yet gone does so too.
    pub fn key_for(&self, addr: &Addr) -> Option<Addr>
        ensures value { result ≡ key_taken self.now addr.now }
        ensures later { (moment : ℕ) → result ≡ key_taken (passed moment self.now) addr.now }

        // The same of plain entries, where so many track each key.
        ensures plain_value { (moment : ℕ) (trackers : Addr → ℕ) → AreTrackers trackers self.now.entries →
            result ≡ tracked_key trackers self.now.kind self.now.size (plain (passed moment self.now).entries) addr.now }
    {
        self.listed_key(addr)
    }

    fn listed_key(&self, addr: &Addr) -> Option<Addr>
        ensures value { result ≡ key_taken self.now addr.now }
        ensures sound { IsSound self.now.size self.now.entries }
    {
        match key_of(self.kind, addr) {
            Some(key) => self.can_list(&key).then_some(key),
            None => None,
        }
    }

    fn can_list(&self, key: &Addr) -> bool
        ensures { result ≡ can_list self.now.size self.now.entries key.now }
    {
        has_place_for(&self.touched, self.size, key)
    }

    /// How many entries are in memory: those that contracts see, and such as are gone and whose place no call took yet.
    pub fn in_memory(&self) -> u64
        ensures least { length self.now.entries ≤ result }
        ensures most { result ≤ self.now.size }

        // Where none expires, just those that contracts see.
        ensures exact { self.now.expire ≡ 0 → result ≡ length self.now.entries }
    {
        self.touched.len() as u64
    }

    /// The keys in the order of their last touch, each with its moment and with how often it was tracked, as they are at a
    /// moment.
    pub fn entries(&self, alloc: Global, moment: u64) -> Result<Seq<PlainEntry>, AllocError>
        requires { self.now.clock ≤ moment }
        ensures { IfOk result (λ list. list ≡ plain (passed moment self.now).entries) }
    {
        self.touched.listed(alloc, self.expire, moment)
    }

    /// Makes room so that the next so many trackings do not lack memory. It may have made some also where it lacks
    /// memory for all. A table with 65,536 entries makes room for as many as it may have, where there is memory for so many.
    pub fn reserve(&mut self, more: usize) -> Result<(), AllocError>
        ensures room { OnOk result (more ≤ self.new.spare) }
        ensures same { self.new ≡ record self.old { spare = self.new.spare } }
        ensures spare { self.old.spare ≤ self.new.spare }
    {
        if self.touched.len() >= MANY {
            let all = self.left().saturating_add(more);
            let _refused = self.touched.reserve(all);
        }
        self.touched.reserve(more)
    }

    /// How many keys may be added before the table is full.
    fn left(&self) -> usize {
        self.whole().saturating_sub(self.touched.len())
    }

    /// How many keys there may be.
    fn whole(&self) -> usize {
        usize::try_from(self.size).unwrap_or(usize::MAX)
    }

    /// Lets time pass.
    fn pass(&mut self, moment: u64)
        requires { self.old.clock ≤ moment }
        ensures value { self.new ≡ passed moment self.old }
        ensures sound { IsSound self.old.size self.old.entries }
    {
        self.clock = moment;
    }

    /// Tracks an address at a moment, if it is a key that can be listed. A new key in a full table removes the
    /// entry without trackers that was touched longest ago; where each has some, nothing is tracked.
    pub fn track(&mut self, addr: &Addr, moment: u64) -> Result<Option<TrackToken>, AllocError>
        requires clock { self.old.clock ≤ moment }
        requires below { cur_at self.old addr.now < 2 ^ 64 - 1 }
        ensures tracked { IfOk result (λ tracked. tracked ≡ key_taken (passed moment self.old) addr.now) }
        ensures entries { OnOk result (self.new.entries ≡ entries_after (passed moment self.old) addr.now) }
        ensures same { self.new ≡ record (passed moment self.old) { entries = self.new.entries; spare = self.new.spare } }

        // Each key has one tracker more for each tracking of it.
        ensures counts { IfOk result (λ tracked. (key : Addr) → cur_of key self.new.entries ≡ cur_of key self.old.entries + trackings_of key tracked) }

        // The same of plain entries, where so many track each key.
        ensures plain_key { IfOk result (λ tracked. (trackers : Addr → ℕ) → AreTrackers trackers self.old.entries →
            tracked ≡ tracked_key trackers self.old.kind self.old.size (plain (passed moment self.old).entries) addr.now) }
        ensures plain_entries { IfOk result (λ tracked. (trackers : Addr → ℕ) → AreTrackers trackers self.old.entries →
            plain self.new.entries ≡ with_trackings moment trackers self.old.size tracked (plain (passed moment self.old).entries)) }

        ensures shown { IsShown self.new }

        // Only here memory is taken, for one entry.
        ensures spare { self.old.spare ≤ self.new.spare + 1 }
        ensures reserved { 0 < self.old.spare → IsOk result }
        ensures err { OnErr result ((self.new.entries ≡ (passed moment self.old).entries) × (self.old.spare ≤ self.new.spare)) }
    {
        self.pass(moment);
        self.track_key(addr)
    }

    fn track_key(&mut self, addr: &Addr) -> Result<Option<TrackToken>, AllocError>
        requires { cur_at self.old addr.now < 2 ^ 64 - 1 }
        ensures tracked { IfOk result (λ tracked. tracked ≡ key_taken self.old addr.now) }
        ensures entries { OnOk result (self.new.entries ≡ entries_after self.old addr.now) }
        ensures same { self.new ≡ record self.old { entries = self.new.entries; spare = self.new.spare } }
        ensures spare { self.old.spare ≤ self.new.spare + 1 }
        ensures reserved { 0 < self.old.spare → IsOk result }
        ensures err { OnErr result ((self.new.entries ≡ self.old.entries) × (self.old.spare ≤ self.new.spare)) }
    {
        let Some(key) = key_of(self.kind, addr) else {
            return Ok(None);
        };
        if !self.touched.raise(&key, self.expire, self.clock) {
            if has_place(&self.touched, self.size, self.expire, self.clock) {
                self.touched.add(key, self.clock)?;
            } else if !self.touched.replace_first_free(key, self.clock) {
                return Ok(None);
            }
        }
        Ok(Some(TrackToken {
            key: PackedAddr::of(&key),
        }))
    }

    /// Ends a tracking at a moment, without taking memory.
    pub fn release(&mut self, tracked: TrackToken, moment: u64)
        requires clock { self.old.clock ≤ moment }
        requires tracked { 0 < cur_of tracked self.old.entries }
        ensures value { self.new ≡ record (passed moment self.old) { entries = released moment tracked (passed moment self.old).entries } }

        // The key has one tracker less, and no other key has.
        ensures counts { (key : Addr) → cur_of key self.new.entries + trackings_of key (Some tracked) ≡ cur_of key self.old.entries }
        ensures plain_entries { plain self.new.entries ≡ touched moment tracked (plain (passed moment self.old).entries) }
        ensures shown { IsShown self.new }
    {
        self.pass(moment);
        self.release_key(tracked)
    }

    fn release_key(&mut self, tracked: TrackToken)
        requires { 0 < cur_of tracked self.old.entries }
        ensures { self.new ≡ record self.old { entries = released self.old.clock tracked self.old.entries } }
    {
        let TrackToken { key } = tracked;
        self.touched.lower(&key.addr(), self.clock);
    }
}

/// Whether there are fewer entries than that, those that are gone counted.
fn has_room(touched: &TouchList, size: u64) -> bool
    ensures { result ≡ nat_lt (length touched.now.entries) size }
{
    (touched.len() as u64) < size
}

/// Whether some entry has no trackers.
fn has_free(touched: &TouchList) -> bool
    ensures { result ≡ list_any is_free touched.now.entries }
{
    touched.first_free().is_some()
}

/// Whether a key is listed or could be.
fn has_place_for(touched: &TouchList, size: u64, key: &Addr) -> bool
    ensures { result ≡ can_list size touched.now.entries key.now }
{
    has_room(touched, size) || has_free(touched) || touched.entry(key).is_some()
}

/// Whether a new key takes nobody's place: there is room, and no entry is gone.
fn has_place(touched: &TouchList, size: u64, expire: u64, moment: u64) -> bool
    requires { AreInTurn moment touched.now.entries }
    ensures { result ≡ (nat_lt (length touched.now.entries) size && not (list_any (is_gone expire moment) touched.now.entries)) }
{
    has_room(touched, size) && !has_gone(touched, expire, moment)
}

/// Whether some entry is gone. The first one without trackers is gone before all others are.
fn has_gone(touched: &TouchList, expire: u64, moment: u64) -> bool
    requires { AreInTurn moment touched.now.entries }
    ensures { result ≡ list_any (is_gone expire moment) touched.now.entries }
{
    match touched.first_free() {
        Some(entry) => entry.is_gone(expire, moment),
        None => false,
    }
}

/// The entry of a key, unless it is gone.
fn living_entry(touched: &TouchList, key: &Addr, expire: u64, moment: u64) -> Option<StickEntry>
    requires { HasKeysOnce touched.now.entries }
    ensures { result ≡ find (is_of key.now) (living expire moment touched.now.entries) }
{
    match touched.entry(key) {
        Some(entry) => {
            if entry.is_gone(expire, moment) {
                None
            } else {
                Some(entry)
            }
        }
        None => None,
    }
}
