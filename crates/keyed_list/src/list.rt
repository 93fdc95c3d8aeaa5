//! Items by rising keys.
ghost use Rattle.std.specs.Prelude.{◌≡◌, ◌+◌, ◌<◌, ◌^◌, ◌∷◌, ◌++◌, ℕ, [], length, IfErr, IfSome, IfNone, IsSome, OnOk, OnErr, Some, option_to_list};
ghost use Rattle.std.specs.List.{AllByRecursion};
ghost use Rattle.std.specs.Option.{option_copied};
ghost use Rattle.keyed_list.specs.Entries.{item_at, without, with_item, total, IsFew, Rise};

use crate::iter::Iter;
use crate::places::{close_up, place_of, settle, take_last, trim};
use std::alloc::{AllocFailed, Global};
use std::collections::BTreeMap;
use std::marker::Model;

/// The most entries of a list. No memory holds as many.
const MOST: usize = (1 << 56) - 1;

/// How many items lie in places at the most. Those before them lie in a tree.
const MOST_NEAR: usize = 1024;

/// Items by keys, each added under a key above all others. A contract sees the list of the entries, a key and an item
/// each, in the order of their keys.
///
/// The last items, 1,024 at the most, lie in places in a row, and those before them in a `BTreeMap`; each item has a box
/// of its own, and stays where it is in memory until it is taken out. Its memory is given back then. What is done at a key
/// takes time in the logarithm of the length, and at the last key no time that grows with it. A call moves 64 items to the
/// tree at the most, and closes up 2,064 places at the most, unless memory was refused.
///
/// The items may be of any type. Where they cannot be dropped, neither can the list: it ends by `end`, once its items
/// were taken out.
#[derive(Drop)]
pub struct KeyedList<T> {
    alloc: Global,
    tree: BTreeMap<u64, Box<T>>,
    /// By rising keys. A place whose item was taken out is empty.
    places: Vec<(u64, Option<Box<T>>)>,
    /// How many places have an item.
    count: usize,
}

impl<T> Model for KeyedList<T> {
    ghost use Rattle.std.specs.Prelude.{ℕ, List, ◌++◌};
    ghost use Rattle.std.specs.Coded.{coded_list, coded×, coded_ℕ};
    ghost use Rattle.keyed_list.specs.Boxes.{entries_of, settled};
    ghost use Rattle.keyed_list.specs.Kept.{AreKeptPlaces};

    ghost Value = { List (ℕ × T) };

    ghost coded = { coded_list (coded× coded_ℕ T.code) };

    ghost view = { λ l. entries_of (settled l.tree.entries ++ l.places.items) };

    ghost invariant = { λ l. AreKeptPlaces (λ own. own.value) (settled l.tree.entries) l.places.items l.count };
}

impl<T> KeyedList<T> {
    ghost use Rattle.std.specs.Borrow.{sem};
    ghost use Rattle.keyed_list.specs.Lends.{lends_item};

    /// An empty list, which grows by that allocator.
    pub fn new(alloc: Global) -> Self
        ensures { result ≡ [] }
    {
        KeyedList {
            alloc,
            tree: BTreeMap::new(alloc),
            places: Vec::new(alloc),
            count: 0,
        }
    }

    /// The number of entries, at no cost that grows with it. It shows that the keys rise.
    pub fn len(&self) -> usize
        ensures value { result ≡ length self.now }
        ensures few { IsFew result }
        ensures rise { Rise (λ e. e.0) self.now }
    {
        self.tree.len() + self.count
    }

    /// The item of a key.
    pub fn get(&self, key: u64) -> Option<&T>
        ensures { option_copied result ≡ item_at key self.now }
    {
        match place_of(self.places.as_slice(), key) {
            Some(place) => match &self.places[place].1 {
                Some(own) => Some(&**own),
                None => None,
            },
            None => match self.tree.get(&key) {
                Some(far) => Some(&**far),
                None => None,
            },
        }
    }

    /// The item of a key that is there. When the borrow ends, the key has what was last written, and no other entry
    /// has changed.
    pub fn at_mut(&mut self, key: u64) -> &mut T
        requires { IsSome (item_at key self.old) }
        ensures* writes_back { sem 𝓛 (lends_item T.row self.entry key result) }
        ensures value { item_at key self.old ≡ Some result.now }
    {
        match place_of(self.places.as_slice(), key) {
            Some(place) => match self.places[place].1.as_mut() {
                Some(own) => &mut **own,
                None => unreachable!(),
            },
            None => match self.tree.get_mut(&key) {
                Some(far) => &mut **far,
                None => unreachable!(),
            },
        }
    }

    /// The entries, in the order of their keys.
    pub fn iter(&self) -> Iter<'_, T>
        ensures { result ≡ self.now }
    {
        Iter {
            tree: self.tree.iter(),
            places: self.places.iter(),
        }
    }

    /// Adds an item under a key above all others. Without memory nothing is changed, and the item comes back. A list of
    /// 2^56 - 1 entries takes no further one, as if memory had run out.
    pub fn push(&mut self, key: u64, item: T) -> Result<(), AllocFailed<T>>
        requires { AllByRecursion (λ e. e.0 < key) self.old }
        ensures ok { OnOk result (self.new ≡ self.old ++ (key, item) ∷ []) }
        ensures err { OnErr result (self.new ≡ self.old) }
        ensures value_returned { IfErr result (λ failed. failed.value ≡ item) }
    {
        if MOST <= self.len() {
            return Err(AllocFailed { value: item });
        }
        let own = Box::new(self.alloc, item)?;
        self.settle_first();
        trim(&mut self.places);
        match self.places.push((key, Some(own))) {
            Ok(()) => {
                self.count += 1;
                Ok(())
            }
            Err(failed) => match failed.value.1 {
                Some(own) => Err(AllocFailed {
                    value: Box::into_inner(own),
                }),
                None => unreachable!(),
            },
        }
    }

    /// Moves the first items to the tree, where many lie in places.
    fn settle_first(&mut self)
        ensures { self.new ≡ self.old }
    {
        if self.count >= MOST_NEAR {
            self.count = settle(self.alloc, &mut self.tree, &mut self.places, self.count);
        }
    }

    /// Takes the item of a key out. It asks for a smaller block at times, and goes on without it if that is refused.
    pub fn take(&mut self, key: u64) -> Option<T>
        ensures item { result ≡ item_at key self.old }
        ensures left { self.new ≡ without key self.old }
        ensures none { IfNone result (self.new ≡ self.old) }

        // By any measure of an entry, the list has less by the measure of this one.
        ensures counts { IfSome result (λ item. (worth : ℕ × T → ℕ) → total worth self.new + worth (key, item) ≡ total worth self.old) }
    {
        let Some(place) = place_of(self.places.as_slice(), key) else {
            let own = self.tree.remove(&key)?;
            return Some(Box::into_inner(own));
        };
        let own = self.places[place].1.take()?;
        self.count -= 1;
        close_up(self.alloc, &mut self.places, self.count);
        Some(Box::into_inner(own))
    }

    /// Takes the last entry out. It asks for a smaller block at times, and goes on without it if that is refused.
    pub fn pop(&mut self) -> Option<(u64, T)>
        ensures last { self.old ≡ self.new ++ option_to_list result }
        ensures none { IfNone result (self.old ≡ []) }
    {
        if let Some((key, own)) = take_last(&mut self.places) {
            self.count -= 1;
            close_up(self.alloc, &mut self.places, self.count);
            return Some((key, Box::into_inner(own)));
        }
        let (key, own) = self.tree.pop_last()?;
        Some((key, Box::into_inner(own)))
    }

    /// Ends a list that has no entries.
    pub fn end(self)
        requires { self ≡ [] }
    {
        let KeyedList {
            alloc: _,
            tree,
            mut places,
            count: _,
        } = self;
        tree.destroy_empty();
        trim(&mut places);
        places.destroy_empty();
    }
}
