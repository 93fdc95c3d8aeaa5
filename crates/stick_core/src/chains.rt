//! Chains of places.
ghost use Rattle.std.specs.Prelude.{◌≡◌, ◌≢◌, ◌+◌, ◌<◌, ◌≤◌, ℕ, [], ◌∷◌, ◌++◌, length, set, replicate, slice_get, OnOk, OnErr, IsOk};
ghost use Rattle.stick_core.specs.Chains.{chain_at, put_at_end, taken_out};
ghost use Rattle.stick_core.specs.Ring.{Distinct, Has, Lacks, next_of, without};

use crate::links::{END, Link, link_at_place, link_last, unlink};
use std::alloc::{AllocError, Global};
use std::marker::Model;

const NO_ENDS: Link = Link {
    before: END,
    after: END,
};

/// Chains of some of the places 0, 1, .. that it was given. No place is in two of them.
#[derive(Debug, Drop)]
pub(crate) struct Chains {
    alloc: Global,
    ends: Vec<Link>,
    links: Vec<Link>,
}

impl Model for Chains {
    ghost use Rattle.std.specs.Prelude.{◌-◌, ◌≤◌, min, vec_len, vec_capacity};
    ghost use Rattle.stick_core.specs.Links.{end};
    ghost use Rattle.stick_core.specs.Chains.{Chaining, AreLinked, chained};

    ghost Value = { Chaining };

    ghost view = { λ c. record { chains = chained c.ends.items c.links.items; places = vec_len c.links; spare = min end (vec_capacity c.links) - vec_len c.links } };

    ghost invariant = { λ c. AreLinked c.ends.items c.links.items × (vec_len c.links ≤ end) };
}

impl Chains {
    /// No chains, and no places.
    pub(crate) fn new(alloc: Global) -> Chains
        ensures chains { result.chains ≡ [] }
        ensures places { result.places ≡ 0 }
    {
        Chains {
            alloc,
            ends: Vec::new(alloc),
            links: Vec::new(alloc),
        }
    }

    /// How many chains there are. No place is twice in one.
    pub(crate) fn count(&self) -> usize
        ensures value { result ≡ length self.now.chains }
        ensures once { (chain : ℕ) → Distinct (chain_at self.now.chains chain) }
        ensures fits { (chain : ℕ) → length (chain_at self.now.chains chain) ≤ self.now.places }
    {
        self.ends.len()
    }

    /// Makes room for so many more places. There are 2^32 - 1 at the most.
    pub(crate) fn reserve(&mut self, more: usize) -> Result<(), AllocError>
        ensures room { OnOk result (more ≤ self.new.spare) }
        ensures same { self.new ≡ record self.old { spare = self.new.spare } }
        ensures spare { self.old.spare ≤ self.new.spare }
        ensures succeeds { more ≤ self.old.spare → IsOk result }
        ensures err { OnErr result (self.new ≡ self.old) }
    {
        if more > END as usize - self.links.len() {
            return Err(AllocError);
        }
        self.links.reserve(more)
    }

    /// Leaves so many chains, none of which has a place.
    pub(crate) fn reset(&mut self, chains: usize) -> Result<(), AllocError>
        ensures ok { OnOk result (self.new ≡ record self.old { chains = replicate chains [] }) }
        ensures err { OnErr result (self.new ≡ self.old) }
    {
        self.ends = vec![in self.alloc; NO_ENDS; chains]?;
        Ok(())
    }

    /// One more place, which is in no chain.
    pub(crate) fn add_place(&mut self) -> usize
        requires { 0 < self.old.spare }
        ensures place { result ≡ self.old.places }
        ensures chains { self.new.chains ≡ self.old.chains }
        ensures places { self.new.places ≡ self.old.places + 1 }
        ensures spare { self.new.spare + 1 ≡ self.old.spare }
    {
        self.links.push_reserved(NO_ENDS);
        self.links.len() - 1
    }

    /// The first place of a chain. Where there is no such chain, it has none.
    pub(crate) fn first(&self, chain: usize) -> Option<usize>
        ensures { result ≡ slice_get (chain_at self.now.chains chain) 0 }
    {
        let ends = self.ends.get(chain)?;
        if ends.after == END {
            None
        } else {
            Some(ends.after as usize)
        }
    }

    /// The place after one of a chain.
    pub(crate) fn next(&self, chain: usize, place: usize) -> Option<usize>
        requires { Has place (chain_at self.now.chains chain) }
        ensures { result ≡ next_of place (chain_at self.now.chains chain) }
    {
        let _places = self.links.len();
        let link = link_at_place(self.links.as_slice(), &NO_ENDS, place as u32);
        if link.after == END {
            None
        } else {
            Some(link.after as usize)
        }
    }

    /// Takes a place out of a chain.
    pub(crate) fn remove(&mut self, chain: usize, place: usize)
        requires chain { chain < length self.old.chains }
        requires has { Has place (chain_at self.old.chains chain) }
        ensures { self.new ≡ record self.old { chains = taken_out self.old.chains chain place } }
    {
        unlink(
            self.links.as_mut_slice(),
            &mut self.ends[chain],
            place as u32,
        );
    }

    /// Puts a place at the end of a chain.
    pub(crate) fn push_back(&mut self, chain: usize, place: usize)
        requires chain { chain < length self.old.chains }
        requires place { place < self.old.places }
        requires lacks { (other : ℕ) → Lacks place (chain_at self.old.chains other) }
        ensures { self.new ≡ record self.old { chains = put_at_end self.old.chains chain place } }
    {
        link_last(
            self.links.as_mut_slice(),
            &mut self.ends[chain],
            place as u32,
        );
    }
}
