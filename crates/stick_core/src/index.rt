//! Counts by addresses.
ghost use Rattle.std.specs.Prelude.{◌≡◌, ◌-◌, ◌+◌, ◌<◌, ◌≤◌, ◌++◌, ◌∷◌, [], ℕ, length, set, max, IfSome, IfNone, OnOk, OnErr, IsOk};
ghost use Rattle.stick_core.specs.Chains.{chain_at};
ghost use Rattle.stick_core.specs.Index.{AreAllChained, IsPlaceOf, IsNoPlaceOf, chain_of, counts_at, key_at, key_number, with_counts};
ghost use Rattle.stick_core.specs.Ring.{Lacks};

use crate::chains::Chains;
use addr_core::{Addr, PackedAddr};
use std::alloc::{AllocError, Global};
use std::fmt::{self, Debug, Formatter};
use std::hash::{BuildHasher, BuildHasherDefault, FoldHasher};
use std::marker::Model;

/// What is counted of a key.
#[derive(Clone, Copy, Debug, PartialEq, Eq)]
pub(crate) struct Counts {
    pub(crate) cur: u64,
    pub(crate) cnt: u64,
    pub(crate) last_touch: u64,
}

type KeyHash = BuildHasherDefault<FoldHasher>;

fn key_number(key: &Addr) -> u128
    ensures { result ≡ key_number key.now }
{
    match *key {
        Addr::V4(number) => u128::from(number),
        Addr::V6(number) => number,
    }
}

/// The chain of a key, of so many. A product takes less time than a remainder.
fn chain_of(hash: &KeyHash, chains: usize, key: &Addr) -> usize
    ensures { result ≡ chain_of hash.now chains key.now }
{
    let number = hash.hash_one(key_number(key));
    (u128::from(number) * chains as u128 / 0x1_0000_0000_0000_0000) as usize
}

/// Puts the places of the entries, the first one first, into chains that have none.
fn chain_all(chains: &mut Chains, entries: &[(PackedAddr, Counts)], hash: &KeyHash)
    requires places { chains.old.places ≡ length entries.now }
    requires some { 0 < length chains.old.chains }
    requires empty { (chain place : ℕ) → Lacks place (chain_at chains.old.chains chain) }
    ensures same { chains.new ≡ record chains.old { chains = chains.new.chains } }
    ensures count { length chains.new.chains ≡ length chains.old.chains }
    ensures chained { AreAllChained hash.now entries.now chains.new.chains }
{
    let count = chains.count();
    for place in 0..entries.len() {
        let chain = chain_of(hash, count, &entries[place].0.addr());
        chains.push_back(chain, place);
    }
}

/// Makes so many chains, if there are fewer and there is memory for them.
fn spread(chains: &mut Chains, entries: &[(PackedAddr, Counts)], hash: &KeyHash, wanted: usize)
    requires places { chains.old.places ≡ length entries.now }
    requires chained { AreAllChained hash.now entries.now chains.old.chains }
    ensures same { chains.new ≡ record chains.old { chains = chains.new.chains } }
    ensures count { length chains.old.chains ≤ length chains.new.chains }
    ensures chained { AreAllChained hash.now entries.now chains.new.chains }
{
    if chains.count() < wanted && chains.reset(wanted).is_ok() {
        chain_all(chains, entries, hash);
    }
}

/// Counts by addresses, each at a place that stays as long as its address is there. No call takes a time that grows
/// with their number, except one that makes room for more.
#[derive(Drop)]
pub(crate) struct AddrIndex {
    entries: Vec<(PackedAddr, Counts)>,
    chains: Chains,
    hash: KeyHash,
}

impl Model for AddrIndex {
    ghost use Rattle.std.specs.Prelude.{◌≡◌, ◌-◌, ◌==◌, min, cond, length, vec_len, vec_capacity};
    ghost use Rattle.stick_core.specs.Index.{Indexing, IsIndexed};

    ghost Value = { Indexing };

    ghost view = { λ i. record { entries = i.entries.items; spare = cond (length i.chains.chains == 0) 0 (min (vec_capacity i.entries - vec_len i.entries) i.chains.spare) } };

    ghost invariant = { λ i. IsIndexed i.hash i.entries.items i.chains };
}

impl Debug for AddrIndex {
    fn fmt<W: fmt::Write>(&self, f: &mut Formatter<W>) -> fmt::Result {
        f.debug_map()
            .entries(self.entries.iter().map(|entry| (entry.0.addr(), entry.1)))
            .finish()
    }
}

impl AddrIndex {
    /// No entries.
    pub(crate) fn new(alloc: Global) -> AddrIndex
        ensures { result.entries ≡ [] }
    {
        AddrIndex {
            entries: Vec::new(alloc),
            chains: Chains::new(alloc),
            hash: BuildHasherDefault::new(),
        }
    }

    /// How many entries there are.
    pub(crate) fn len(&self) -> usize
        ensures { result ≡ length self.now.entries }
    {
        self.entries.len()
    }

    /// The key at a place.
    pub(crate) fn key(&self, place: usize) -> Addr
        requires { place < length self.now.entries }
        ensures { result ≡ key_at self.now.entries place }
    {
        self.entries[place].0.addr()
    }

    /// The counts at a place.
    pub(crate) fn counts(&self, place: usize) -> Counts
        requires { place < length self.now.entries }
        ensures { result ≡ counts_at self.now.entries place }
    {
        self.entries[place].1
    }

    /// Puts other counts at a place.
    pub(crate) fn set_counts(&mut self, place: usize, counts: Counts)
        requires { place < length self.old.entries }
        ensures entries { self.new.entries ≡ with_counts self.old.entries place counts }
        ensures spare { self.new.spare ≡ self.old.spare }
    {
        self.entries[place].1 = counts;
    }

    /// The place of a key.
    pub(crate) fn place_of(&self, key: &Addr) -> Option<usize>
        ensures some { IfSome result (λ place. IsPlaceOf key.now self.now.entries place) }
        ensures none { IfNone result (IsNoPlaceOf key.now self.now.entries) }
    {
        let chain = chain_of(&self.hash, self.chains.count(), key);
        let mut next = self.chains.first(chain);
        for _ in 0..self.entries.len() {
            let place = next?;
            if self.entries[place].0.addr().is_same(key) {
                return Some(place);
            }
            next = self.chains.next(chain, place);
        }
        None
    }

    /// Makes room for so many more entries. It may have made some also where it lacks memory for all.
    pub(crate) fn reserve(&mut self, more: usize) -> Result<(), AllocError>
        ensures room { OnOk result (more ≤ self.new.spare) }
        ensures entries { self.new.entries ≡ self.old.entries }
        ensures spare { self.old.spare ≤ self.new.spare }
        ensures succeeds { more ≤ self.old.spare → IsOk result }
    {
        self.entries.reserve(more)?;
        self.chains.reserve(more)?;
        let wanted = self.entries.capacity().saturating_mul(2);
        spread(
            &mut self.chains,
            self.entries.as_slice(),
            &self.hash,
            wanted,
        );
        if more > 0 && self.chains.count() == 0 {
            return Err(AllocError);
        }
        Ok(())
    }

    /// Adds a key.
    pub(crate) fn push(&mut self, key: &Addr, counts: Counts)
        requires spare { 0 < self.old.spare }
        requires none { IsNoPlaceOf key.now self.old.entries }
        ensures entries { self.new.entries ≡ self.old.entries ++ (key.now, counts) ∷ [] }
        ensures spare { self.new.spare + 1 ≡ self.old.spare }
    {
        let chain = chain_of(&self.hash, self.chains.count(), key);
        let place = self.chains.add_place();
        self.entries.push_reserved((PackedAddr::of(key), counts));
        self.chains.push_back(chain, place);
    }

    /// Puts a key in the place of another.
    pub(crate) fn replace(&mut self, place: usize, key: &Addr, counts: Counts)
        requires place { place < length self.old.entries }
        requires none { IsNoPlaceOf key.now self.old.entries }
        ensures entries { self.new.entries ≡ set self.old.entries place (key.now, counts) }
        ensures spare { self.new.spare ≡ self.old.spare }
    {
        let count = self.chains.count();
        let old = chain_of(&self.hash, count, &self.entries[place].0.addr());
        self.chains.remove(old, place);
        let chain = chain_of(&self.hash, count, key);
        self.chains.push_back(chain, place);
        self.entries[place] = (PackedAddr::of(key), counts);
    }
}
