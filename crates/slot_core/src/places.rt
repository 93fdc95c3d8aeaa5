//! The places of counts that are in use.
ghost use Rattle.std.specs.Prelude.{◌≡◌, ◌<◌, true, false, length, slice_set, replicate, MatchOption, IfOk, ⊤};
ghost use Rattle.slot_core.specs.Counts.{named_at, open_at};

use crate::slots::{Count, SlotIx};
use std::alloc::{AllocError, Global};
use std::fmt::{self, Debug, Formatter};
use std::marker::Model;

/// Which places the kept versions name, and where the next search for a free place begins. A contract sees of each place
/// whether it is named.
#[derive(Drop)]
pub struct NamedPlaces {
    pub(crate) named: Vec<bool>,
    /// Each place before it is named, or has an open connection.
    next: usize,
    /// The place that was marked last.
    last: usize,
}

impl Model for NamedPlaces {
    ghost use Rattle.std.specs.Prelude.{List, Bool};

    ghost Value = { List Bool };

    ghost view = { λ p. p.named.items };
}

/// Without the place that was marked last, from which only a search begins.
impl Debug for NamedPlaces {
    fn fmt<W: fmt::Write>(&self, f: &mut Formatter<W>) -> fmt::Result {
        f.debug_struct("NamedPlaces")
            .field("named", &self.named)
            .field("next", &self.next)
            .finish()
    }
}

impl NamedPlaces {
    /// So many places, none of them named.
    pub fn none(alloc: Global, places: usize) -> Result<NamedPlaces, AllocError>
        ensures { IfOk result (λ named. named ≡ replicate places false) }
    {
        let named = vec![in alloc; false; places]?;
        Ok(NamedPlaces {
            named,
            next: 0,
            last: 0,
        })
    }

    /// Marks a place as named, if there is such a place.
    pub fn note(&mut self, ix: SlotIx)
        ensures { self.new ≡ slice_set self.old ix.place true }
    {
        if ix.place < self.named.len() {
            self.named[ix.place] = true;
        }
        self.last = ix.place;
    }

    /// The place after the one that was marked last: servers that come one after the other in a text mostly have places
    /// that do.
    pub(crate) fn next_noted(&self) -> usize {
        self.last.saturating_add(1)
    }

    /// The next place that is not named, and to whose server no connection is open.
    pub fn free(&mut self, counts: &[Count]) -> Option<usize>
        ensures found { MatchOption result ⊤ (λ place. place < length counts.now) }
        ensures unnamed { MatchOption result ⊤ (λ place. named_at place self.old ≡ false) }
        ensures closed { MatchOption result ⊤ (λ place. open_at place counts.now ≡ 0) }
        ensures same { self.new ≡ self.old }
    {
        let free = free_from(self.named.as_slice(), counts, self.next);
        self.next = free.unwrap_or(counts.len());
        free
    }
}

/// The first place from there on that is free.
fn free_from(named: &[bool], counts: &[Count], first: usize) -> Option<usize>
    ensures found { MatchOption result ⊤ (λ place. place < length counts.now) }
    ensures unnamed { MatchOption result ⊤ (λ place. named_at place named.now ≡ false) }
    ensures closed { MatchOption result ⊤ (λ place. open_at place counts.now ≡ 0) }
{
    for place in first..counts.len() {
        if !is_named(named, place) && connections_at(counts, place) == 0 {
            return Some(place);
        }
    }
    None
}

fn is_named(named: &[bool], place: usize) -> bool
    ensures { result ≡ named_at place named.now }
{
    match named.get(place) {
        Some(is) => *is,
        None => false,
    }
}

fn connections_at(counts: &[Count], place: usize) -> u64
    ensures { result ≡ open_at place counts.now }
{
    match counts.get(place) {
        Some(count) => count.connections,
        None => 0,
    }
}
