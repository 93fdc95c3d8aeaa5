//! Places with rising keys, in which items lie until they are taken out or move to a tree.
ghost use Rattle.std.specs.Prelude.{◌≡◌, ◌+◌, ◌<◌, ◌≤◌, ◌==◌, ◌++◌, ℕ, List, Option, Some, false, length, slice_get, option_map, option_to_list, IfSome, IfNone, vec_len, vec_capacity};
ghost use Rattle.std.specs.List.{AllByRecursion};
ghost use Rattle.std.specs.Vec.Iter.{into_iter_items};
ghost use Rattle.std.specs.declared.boxed.Box.{Box};
ghost use Rattle.std.specs.declared.alloc.Global.{Global};
ghost use Rattle.keyed_list.specs.Boxes.{entries_of, settled};
ghost use Rattle.keyed_list.specs.Entries.{Rise};

use std::alloc::Global;
use std::collections::BTreeMap;
use std::{mem, vec};

/// How many places may be empty besides as many as have an item.
const FEW: usize = 16;

/// How many times as large as they need the block of the places may be.
const SPARE: usize = 4;

/// How many places are settled at once.
const BATCH: usize = 64;

/// The place of a key, which may be empty. It is found by halves; the last place, which most calls are for, is looked at
/// first, and a key before the first place, whose item lies in the tree, is not searched for.
pub fn place_of<T>(places: &[(u64, Option<Box<T>>)], key: u64) -> Option<usize>
    requires { Rise (λ p. p.0) places.now }
    ensures some { IfSome result (λ place. IfSome (slice_get places.now place) (λ p. p.0 ≡ key) × (place < length places.now)) }
    ensures none { IfNone result (AllByRecursion (λ p. (p.0 == key) ≡ false) places.now) }
{
    match places {
        [.., last] if last.0 == key => Some(places.len() - 1),
        [first, ..] if key < first.0 => None,
        _ => places.binary_search_by_key(&key, |place| place.0).ok(),
    }
}

/// Takes the last item out, with its place and the empty ones after it.
pub fn take_last<T>(places: &mut Vec<(u64, Option<Box<T>>)>) -> Option<(u64, Box<T>)>
    ensures entries { entries_of places.old.items ≡ entries_of places.new.items ++ option_to_list (option_map (λ e. (e.0, e.1.value)) result) }
    ensures rise { (far : List (ℕ × Option (Box T Global))) → Rise (λ p. p.0) (far ++ places.old.items) → Rise (λ p. p.0) (far ++ (places.new.items ++ option_to_list (option_map (λ e. (e.0, Some e.1)) result))) }
    ensures room { IfSome result (λ _. vec_len places.new < vec_capacity places.new) }
    ensures none { IfNone result (vec_len places.new ≡ 0) }
{
    while let Some((key, own)) = places.pop() {
        if let Some(own) = own {
            return Some((key, own));
        }
    }
    None
}

/// Forgets the empty places after the last item. It takes no memory.
pub fn trim<T>(places: &mut Vec<(u64, Option<Box<T>>)>)
    requires { Rise (λ p. p.0) places.old.items }
    ensures entries { entries_of places.new.items ≡ entries_of places.old.items }
    ensures rise { (far : List (ℕ × Option (Box T Global))) → Rise (λ p. p.0) (far ++ places.old.items) → Rise (λ p. p.0) (far ++ places.new.items) }
    ensures below { (key : ℕ) → AllByRecursion (λ e. e.0 < key) (entries_of places.new.items) → AllByRecursion (λ p. p.0 < key) places.new.items }
{
    if let Some((key, own)) = take_last(places) {
        places.push_reserved((key, Some(own)));
    }
}

/// Moves the items to a block of their own where more places are empty than have an item, or where the block is much
/// larger than they need, so that both time and memory follow the number of items. If memory is refused, all stays as it
/// is.
pub fn close_up<T>(alloc: Global, places: &mut Vec<(u64, Option<Box<T>>)>, count: usize)
    requires { count ≡ length (entries_of places.old.items) }
    ensures entries { entries_of places.new.items ≡ entries_of places.old.items }
    ensures rise { (far : List (ℕ × Option (Box T Global))) → Rise (λ p. p.0) (far ++ places.old.items) → Rise (λ p. p.0) (far ++ places.new.items) }
{
    let most = count.saturating_mul(2).saturating_add(FEW);
    if places.len() <= most && places.capacity() / SPARE <= most {
        return;
    }
    let Ok(mut kept) = Vec::with_capacity(alloc, most) else {
        return;
    };
    mem::swap(places, &mut kept);
    move_items(kept.into_iter(), places);
}

/// Moves the items of the first places to the tree, and the others to a block of their own. If memory is refused, they
/// stay. Gives how many lie in places then.
pub fn settle<T>(
    alloc: Global,
    tree: &mut BTreeMap<u64, Box<T>>,
    places: &mut Vec<(u64, Option<Box<T>>)>,
    count: usize,
) -> usize
    requires rise { Rise (λ p. p.0) (settled tree.old.entries ++ places.old.items) }
    requires count { count ≡ length (entries_of places.old.items) }
    ensures entries { entries_of (settled tree.new.entries ++ places.new.items) ≡ entries_of (settled tree.old.entries ++ places.old.items) }
    ensures rise { Rise (λ p. p.0) (settled tree.new.entries ++ places.new.items) }
    ensures count { result ≡ length (entries_of places.new.items) }
{
    let most = count.saturating_mul(2).saturating_add(FEW);
    let Ok(mut kept) = Vec::with_capacity(alloc, most) else {
        return count;
    };
    mem::swap(places, &mut kept);
    let mut rest = kept.into_iter();
    let left = count - settle_first(tree, &mut rest, places);
    move_items(rest, places);
    left
}

/// Moves the items of the first places to the tree. Gives how many. If memory is refused, the item that came back is
/// the first of the other places, which are empty so far.
fn settle_first<T>(
    tree: &mut BTreeMap<u64, Box<T>>,
    rest: &mut vec::IntoIter<(u64, Option<Box<T>>)>,
    to: &mut Vec<(u64, Option<Box<T>>)>,
) -> usize
    requires rise { Rise (λ p. p.0) (settled tree.old.entries ++ into_iter_items rest.old) }
    requires empty { vec_len to.old ≡ 0 }
    requires room { length (entries_of (into_iter_items rest.old)) ≤ vec_capacity to.old }
    ensures entries { entries_of (settled tree.new.entries ++ (to.new.items ++ into_iter_items rest.new)) ≡ entries_of (settled tree.old.entries ++ into_iter_items rest.old) }
    ensures rise { Rise (λ p. p.0) (settled tree.new.entries ++ (to.new.items ++ into_iter_items rest.new)) }
    ensures count { result + length (entries_of (to.new.items ++ into_iter_items rest.new)) ≡ length (entries_of (into_iter_items rest.old)) }
    ensures room { vec_len to.new + length (entries_of (into_iter_items rest.new)) ≤ vec_capacity to.new }
{
    let mut moved = 0;
    for _place in 0..BATCH {
        let Some((key, own)) = rest.next() else {
            return moved;
        };
        let Some(own) = own else {
            continue;
        };
        match tree.insert(key, own) {
            Ok(None) => {}
            Ok(Some(_own)) => unreachable!(),
            Err(failed) => {
                let (key, back) = failed.value;
                to.push_reserved((key, Some(back)));
                return moved;
            }
        }
        moved += 1;
    }
    moved
}

/// Moves the items of places to others, which have room for them.
fn move_items<T>(
    mut rest: vec::IntoIter<(u64, Option<Box<T>>)>,
    to: &mut Vec<(u64, Option<Box<T>>)>,
)
    requires { vec_len to.old + length (entries_of (into_iter_items rest)) ≤ vec_capacity to.old }
    ensures entries { entries_of to.new.items ≡ entries_of (to.old.items ++ into_iter_items rest) }
    ensures rise { (far : List (ℕ × Option (Box T Global))) → Rise (λ p. p.0) (far ++ (to.old.items ++ into_iter_items rest)) → Rise (λ p. p.0) (far ++ to.new.items) }
{
    while let Some((key, own)) = rest.next() {
        if let Some(own) = own {
            to.push_reserved((key, Some(own)));
        }
    }
    rest.destroy_empty();
}
