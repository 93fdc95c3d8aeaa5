//! The entries of a list, one after the other.
ghost use Rattle.std.specs.Prelude.{ℕ};
ghost use Rattle.std.specs.Iterator.{YieldsFirstBy, item_count};
ghost use Rattle.std.specs.Slice.Iter.{iter_rest};
ghost use Rattle.keyed_list.specs.Boxes.{entries_of};

use std::collections::btree_map;
use std::marker::Model;
use std::slice;

/// The entries of a list that are left, in the order of their keys. A contract sees the list of them.
#[derive(Drop)]
pub struct Iter<'a, T> {
    pub(crate) tree: btree_map::Iter<'a, u64, Box<T>>,
    pub(crate) places: slice::Iter<'a, (u64, Option<Box<T>>)>,
}

impl<'a, T> Model for Iter<'a, T> {
    ghost use Rattle.std.specs.Prelude.{ℕ, List, ◌++◌};
    ghost use Rattle.std.specs.Slice.Iter.{iter_rest};
    ghost use Rattle.keyed_list.specs.Boxes.{entries_of, settled};

    ghost Value = { List (ℕ × T) };

    ghost view = { λ it. entries_of (settled it.tree ++ iter_rest it.places) };
}

impl<'a, T> Iterator for Iter<'a, T> {
    type Item = (u64, &'a T);

    ghost next_gives = { YieldsFirstBy (λ item. (item.0, item.1.now)) (λ rest. rest) };

    ghost remaining = { item_count (λ rest. rest) };

    fn next(&mut self) -> Option<(u64, &'a T)> {
        match self.tree.next() {
            Some((key, own)) => Some((*key, &**own)),
            None => next_item(&mut self.places),
        }
    }
}

/// The next item of places, with its key.
fn next_item<'a, T>(places: &mut slice::Iter<'a, (u64, Option<Box<T>>)>) -> Option<(u64, &'a T)>
    ensures { YieldsFirstBy (λ item. (item.0, item.1.now)) (λ rest. entries_of (iter_rest rest)) places.old result places.new }
{
    while let Some((key, own)) = places.next() {
        if let Some(own) = own {
            return Some((*key, &**own));
        }
    }
    None
}
