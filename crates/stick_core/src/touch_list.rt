//! Entries found by their keys, in the order of their last touch.
ghost use Rattle.std.specs.Prelude.{◌≡◌, ◌+◌, ◌-◌, ◌^◌, ◌<◌, ◌≤◌, ◌++◌, ◌∷◌, [], true, false, cond, find, length, IfOk, OnOk, OnErr, IsOk, None};
ghost use Rattle.std.specs.List.{list_any};
ghost use Rattle.stick_core.specs.Entries.{is_of, is_free, is_listed, cur_of, added, entry_with, living, released, touched, without_first_free};
ghost use Rattle.stick_core.specs.Index.{with_counts};
ghost use Rattle.stick_core.specs.Places.{entry_at, first_counts, IsKept};
ghost use Rattle.stick_core.specs.PlainEntries.{plain};
ghost use Rattle.stick_core.specs.Ring.{Has, Lacks, Distinct, without};

use crate::entries::{PlainEntry, StickEntry};
use crate::index::{AddrIndex, Counts};
use crate::order::Order;
use addr_core::Addr;
use list_core::Seq;
use std::alloc::{AllocError, Global};
use std::marker::Model;

fn counts_of(entry: StickEntry) -> Counts
    ensures cur { result.cur ≡ entry.cur }
    ensures cnt { result.cnt ≡ entry.cnt }
    ensures last_touch { result.last_touch ≡ entry.last_touch }
{
    Counts {
        cur: entry.cur,
        cnt: entry.cnt,
        last_touch: entry.last_touch,
    }
}

/// Of a key that is tracked for the first time.
fn first_counts(moment: u64) -> Counts
    ensures { result ≡ first_counts moment }
{
    Counts {
        cur: 1,
        cnt: 1,
        last_touch: moment,
    }
}

/// The entry at a place.
fn entry_at_place(index: &AddrIndex, place: usize) -> StickEntry
    requires { place < length index.now.entries }
    ensures { result ≡ entry_at index.now.entries place }
{
    let counts = index.counts(place);
    StickEntry {
        key: index.key(place),
        cur: counts.cur,
        cnt: counts.cnt,
        last_touch: counts.last_touch,
    }
}

/// Moves a place to the end.
fn move_last(order: &mut Order, place: usize)
    requires place { place < order.old.places }
    requires has { Has place order.old.order }
    requires once { Distinct order.old.order }
    ensures { order.new ≡ record order.old { order = without place order.old.order ++ place ∷ [] } }
{
    order.remove(place);
    order.push_back(place);
}

/// Takes a place out of an order, if it is there.
fn leave(order: &mut Order, place: usize, is_there: bool)
    requires has { is_there ≡ true → Has place order.old.order }
    requires lacks { is_there ≡ false → Lacks place order.old.order }
    ensures { order.new ≡ record order.old { order = without place order.old.order } }
{
    if is_there {
        order.remove(place);
    }
}

/// Puts a place at the end of an order, if it belongs there.
fn join(order: &mut Order, place: usize, belongs: bool)
    requires place { place < order.old.places }
    requires lacks { Lacks place order.old.order }
    ensures { order.new ≡ record order.old { order = order.old.order ++ cond belongs (place ∷ []) [] } }
{
    if belongs {
        order.push_back(place);
    }
}

/// Puts an entry at a place, as the last one touched.
fn put_last(
    index: &mut AddrIndex,
    touched: &mut Order,
    free: &mut Order,
    place: usize,
    entry: StickEntry,
)
    requires kept { IsKept index.old.entries touched.old free.old }
    requires place { place < length index.old.entries }
    ensures index { index.new ≡ record index.old { entries = with_counts index.old.entries place (record { cur = entry.cur; cnt = entry.cnt; last_touch = entry.last_touch }) } }
    ensures touched { touched.new ≡ record touched.old { order = without place touched.old.order ++ place ∷ [] } }
    ensures free { free.new ≡ record free.old { order = without place free.old.order ++ cond (is_free entry) (place ∷ []) [] } }
{
    let was_free = entry_at_place(index, place).cur == 0;
    leave(free, place, was_free);
    index.set_counts(place, counts_of(entry));
    move_last(touched, place);
    join(free, place, entry.cur == 0);
}

/// Adds an entry, unless it is gone.
fn push_living(
    list: &mut Vec<PlainEntry>,
    entry: &StickEntry,
    expire: u64,
    moment: u64,
) -> Result<(), AllocError>
    ensures { OnOk result (list.new.items ≡ list.old.items ++ plain (living expire moment (entry.now ∷ []))) }
{
    if entry.is_gone(expire, moment) {
        return Ok(());
    }
    list.push(entry.plain())?;
    Ok(())
}

/// Entries found by their keys, in the order of their last touch. A call takes a time that does not grow with
/// their number; only `listed` goes through them.
#[derive(Debug, Drop)]
pub(crate) struct TouchList {
    index: AddrIndex,
    touched: Order,
    free: Order,
}

impl Model for TouchList {
    ghost use Rattle.std.specs.Prelude.{min};
    ghost use Rattle.stick_core.specs.Places.{ranked, Touches, IsKept};

    ghost Value = { Touches };

    ghost view = { λ t. record { entries = ranked t.index.entries t.touched.order; spare = min t.index.spare (min t.touched.spare t.free.spare) } };

    ghost invariant = { λ t. IsKept t.index.entries t.touched t.free };
}

impl TouchList {
    /// No entries.
    pub(crate) fn new(alloc: Global) -> TouchList
        ensures { result.entries ≡ [] }
    {
        TouchList {
            index: AddrIndex::new(alloc),
            touched: Order::new(alloc),
            free: Order::new(alloc),
        }
    }

    /// How many entries there are.
    pub(crate) fn len(&self) -> usize
        ensures { result ≡ length self.now.entries }
    {
        self.index.len()
    }

    /// The entry of a key.
    pub(crate) fn entry(&self, key: &Addr) -> Option<StickEntry>
        ensures { result ≡ find (is_of key.now) self.now.entries }
    {
        match self.index.place_of(key) {
            Some(place) => Some(entry_at_place(&self.index, place)),
            None => None,
        }
    }

    /// Of the entries without trackers, the one that was touched longest ago.
    pub(crate) fn first_free(&self) -> Option<StickEntry>
        ensures { result ≡ find is_free self.now.entries }
    {
        match self.free.first() {
            Some(place) => Some(entry_at_place(&self.index, place)),
            None => None,
        }
    }

    /// Makes room for so many more entries. It may have made some also where it lacks memory for all.
    pub(crate) fn reserve(&mut self, more: usize) -> Result<(), AllocError>
        ensures room { OnOk result (more ≤ self.new.spare) }
        ensures entries { self.new.entries ≡ self.old.entries }
        ensures spare { self.old.spare ≤ self.new.spare }
        ensures succeeds { more ≤ self.old.spare → IsOk result }
    {
        self.index.reserve(more)?;
        self.touched.reserve(more)?;
        self.free.reserve(more)
    }

    /// Counts one more tracking of a key, as the last one touched. An entry that was gone begins again. It answers whether
    /// the key has an entry; without one it changes nothing.
    pub(crate) fn raise(&mut self, key: &Addr, expire: u64, moment: u64) -> bool
        requires { cur_of key.now self.old.entries < 2 ^ 64 - 1 }
        ensures answer { result ≡ is_listed key.now self.old.entries }
        ensures entries { result ≡ true → self.new.entries ≡ touched (entry_with expire moment) key.now self.old.entries }
        ensures same { result ≡ false → self.new ≡ self.old }
        ensures spare { self.new.spare ≡ self.old.spare }
        ensures len { length self.new.entries ≡ length self.old.entries }
    {
        let Some(place) = self.index.place_of(key) else {
            return false;
        };
        let entry = entry_at_place(&self.index, place);
        put_last(
            &mut self.index,
            &mut self.touched,
            &mut self.free,
            place,
            entry.tracked(expire, moment),
        );
        true
    }

    /// Counts the end of a tracking of a key, as the last one touched.
    pub(crate) fn lower(&mut self, key: &Addr, moment: u64)
        requires { 0 < cur_of key.now self.old.entries }
        ensures entries { self.new.entries ≡ released moment key.now self.old.entries }
        ensures spare { self.new.spare ≡ self.old.spare }
        ensures len { length self.new.entries ≡ length self.old.entries }
    {
        let Some(place) = self.index.place_of(key) else {
            return;
        };
        let entry = entry_at_place(&self.index, place);
        put_last(
            &mut self.index,
            &mut self.touched,
            &mut self.free,
            place,
            entry.lowered(moment),
        );
    }

    /// Adds a key that is tracked for the first time, as the last one touched.
    pub(crate) fn add(&mut self, key: Addr, moment: u64) -> Result<(), AllocError>
        requires { find (is_of key) self.old.entries ≡ None }
        ensures entries { OnOk result (self.new.entries ≡ added moment key self.old.entries) }
        ensures spare { self.old.spare ≤ self.new.spare + 1 }
        ensures reserved { 0 < self.old.spare → IsOk result }
        ensures err { OnErr result ((self.new.entries ≡ self.old.entries) × (self.old.spare ≤ self.new.spare)) }
    {
        self.reserve(1)?;
        self.index.push(&key, first_counts(moment));
        let place = self.touched.add_place();
        self.touched.push_back(place);
        self.free.add_place();
        Ok(())
    }

    /// Puts a key that is tracked for the first time, as the last one touched, in place of the entry that was
    /// touched longest ago of those without trackers. Without such an entry it changes nothing.
    pub(crate) fn replace_first_free(&mut self, key: Addr, moment: u64) -> bool
        requires { find (is_of key) self.old.entries ≡ None }
        ensures answer { result ≡ list_any is_free self.old.entries }
        ensures entries { result ≡ true → self.new.entries ≡ added moment key (without_first_free self.old.entries) }
        ensures same { result ≡ false → self.new.entries ≡ self.old.entries }
        ensures spare { self.new.spare ≡ self.old.spare }
    {
        match self.free.first() {
            Some(place) => {
                self.index.replace(place, &key, first_counts(moment));
                self.free.remove(place);
                move_last(&mut self.touched, place);
                true
            }
            None => false,
        }
    }

    /// The entries that are not gone.
    pub(crate) fn listed(
        &self,
        alloc: Global,
        expire: u64,
        moment: u64,
    ) -> Result<Seq<PlainEntry>, AllocError>
        ensures { IfOk result (λ list. list ≡ plain (living expire moment self.now.entries)) }
    {
        let mut list = Vec::with_capacity(alloc, self.index.len())?;
        let mut next = self.touched.first();
        for _ in 0..self.index.len() {
            if let Some(place) = next {
                let entry = entry_at_place(&self.index, place);
                push_living(&mut list, &entry, expire, moment)?;
                next = self.touched.next(place);
            }
        }
        Ok(Seq::of(list))
    }
}
