//! An order of places.
ghost use Rattle.std.specs.Prelude.{◌≡◌, ◌+◌, ◌<◌, ◌≤◌, [], ◌∷◌, ◌++◌, slice_get, OnOk, OnErr, IsOk};
ghost use Rattle.stick_core.specs.Ring.{Has, Lacks, next_of, without};

use crate::links::{END, Link, link_at_place, link_last, unlink};
use std::alloc::{AllocError, Global};
use std::marker::Model;

/// An order of some of the places 0, 1, .. that it was given.
#[derive(Debug, Drop)]
pub(crate) struct Order {
    ends: Link,
    links: Vec<Link>,
}

impl Model for Order {
    ghost use Rattle.std.specs.Prelude.{◌-◌, ◌≤◌, min, vec_len, vec_capacity};
    ghost use Rattle.stick_core.specs.Links.{end, IsLinked, ordered};
    ghost use Rattle.stick_core.specs.Ring.{Ranking};

    ghost Value = { Ranking };

    ghost view = { λ o. record { order = ordered o.ends o.links.items; places = vec_len o.links; spare = min end (vec_capacity o.links) - vec_len o.links } };

    ghost invariant = { λ o. IsLinked o.ends o.links.items × (vec_len o.links ≤ end) };
}

impl Order {
    /// No places.
    pub(crate) fn new(alloc: Global) -> Order
        ensures order { result.order ≡ [] }
        ensures places { result.places ≡ 0 }
    {
        Order {
            ends: Link {
                before: END,
                after: END,
            },
            links: Vec::new(alloc),
        }
    }

    /// How many places there are.
    pub(crate) fn places(&self) -> usize
        ensures { result ≡ self.now.places }
    {
        self.links.len()
    }

    /// Makes room for so many more places. There are 2^32 - 1 at the most.
    pub(crate) fn reserve(&mut self, more: usize) -> Result<(), AllocError>
        ensures room { OnOk result (more ≤ self.new.spare) }
        ensures same { self.new ≡ record self.old { spare = self.new.spare } }
        ensures spare { self.old.spare ≤ self.new.spare }
        ensures succeeds { more ≤ self.old.spare → IsOk result }
        ensures err { OnErr result (self.new ≡ self.old) }
    {
        if more > END as usize - self.links.len() {
            return Err(AllocError);
        }
        self.links.reserve(more)
    }

    /// One more place, which is not in the order.
    pub(crate) fn add_place(&mut self) -> usize
        requires { 0 < self.old.spare }
        ensures place { result ≡ self.old.places }
        ensures order { self.new.order ≡ self.old.order }
        ensures places { self.new.places ≡ self.old.places + 1 }
        ensures spare { self.new.spare + 1 ≡ self.old.spare }
    {
        self.links.push_reserved(Link {
            before: END,
            after: END,
        });
        self.links.len() - 1
    }

    /// The first place.
    pub(crate) fn first(&self) -> Option<usize>
        ensures { result ≡ slice_get self.now.order 0 }
    {
        if self.ends.after == END {
            None
        } else {
            Some(self.ends.after as usize)
        }
    }

    /// The place after one of the order.
    pub(crate) fn next(&self, place: usize) -> Option<usize>
        requires { Has place self.now.order }
        ensures { result ≡ next_of place self.now.order }
    {
        let _places = self.links.len();
        let link = link_at_place(self.links.as_slice(), &self.ends, place as u32);
        if link.after == END {
            None
        } else {
            Some(link.after as usize)
        }
    }

    /// Takes a place out.
    pub(crate) fn remove(&mut self, place: usize)
        requires { Has place self.old.order }
        ensures { self.new ≡ record self.old { order = without place self.old.order } }
    {
        unlink(self.links.as_mut_slice(), &mut self.ends, place as u32);
    }

    /// Puts a place at the end.
    pub(crate) fn push_back(&mut self, place: usize)
        requires place { place < self.old.places }
        requires lacks { Lacks place self.old.order }
        ensures { self.new ≡ record self.old { order = self.old.order ++ place ∷ [] } }
    {
        link_last(self.links.as_mut_slice(), &mut self.ends, place as u32);
    }
}
