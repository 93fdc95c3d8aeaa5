//! Counts of open connections.
ghost use Rattle.std.specs.Prelude.{◌≡◌, ◌↔◌, IsTrue, ◌+◌, ◌-◌, ◌<◌, ◌^◌, ◌++◌, ◌∷◌, ℕ, true, false, List, [], length, find, replicate, slice_set, None, Some, IfOk, OnOk, OnErr};
ghost use Rattle.std.specs.List.{position};
ghost use Rattle.std.specs.Option.{option_copied};
ghost use Rattle.slot_core.specs.Counts.{is_of, place_of, closed, identity_at, open_at, open_of, open_in, open_in_all, named_at, with_open, slots_at, IdentitiesDiffer};

use crate::places::NamedPlaces;
use crate::totals::{
    BackendTotal, Guesses, close_one, find_near, find_total, join, leave, open_one, place_of_total,
};
use addr_core::Endpoint;
use list_core::Duplicate;
use proxy_types::ServerIdentity;
use std::alloc::{AllocError, Global};
use std::fmt::{self, Debug, Formatter};
use std::marker::Model;
use text_core::is_same_name;

/// The open connections of a server.
#[derive(Debug, Drop)]
pub struct Count {
    pub identity: ServerIdentity,
    pub connections: u64,
}

/// The place of a server's count. It holds as long as the place is named, or a connection to the server is open.
#[derive(Clone, Copy, Debug, PartialEq, Eq)]
pub struct SlotIx {
    pub place: usize,
}

/// One open connection of a server. It is spent by `give_back` on the slots that gave it.
pub struct Slot {
    ix: SlotIx,
}

impl Model for Slot {
    ghost use Rattle.slot_core.specs.declared.slots.SlotIx.{SlotIx};

    ghost Value = { SlotIx };

    ghost view = { λ s. s.ix };
}

impl Slot {
    /// Which count it is one of.
    pub fn ix(&self) -> SlotIx
        ensures { result ≡ self.now }
    {
        self.ix
    }
}

/// Counts by identity, with a running total for the name of each backend. Contracts see the counts, each at its place.
#[derive(Drop)]
pub struct Slots {
    alloc: Global,
    counts: Vec<Count>,
    /// Of each count, the place of the total of its backend.
    backends: Vec<usize>,
    totals: Vec<BackendTotal>,
    guesses: Guesses,
}

impl Model for Slots {
    ghost use Rattle.std.specs.Prelude.{List};
    ghost use Rattle.slot_core.specs.declared.slots.Count.{Count};
    ghost use Rattle.slot_core.specs.Totals.{AreCounts};

    ghost Value = { List Count };

    ghost view = { λ s. s.counts.items };

    ghost invariant = { λ s. AreCounts s.counts.items s.backends.items s.totals.items };
}

/// Without the guesses, from which only searches begin.
impl Debug for Slots {
    fn fmt<W: fmt::Write>(&self, f: &mut Formatter<W>) -> fmt::Result {
        f.debug_struct("Slots")
            .field("alloc", &self.alloc)
            .field("counts", &self.counts)
            .field("backends", &self.backends)
            .field("totals", &self.totals)
            .finish()
    }
}

impl Slots {
    /// No counts. They grow by that allocator.
    pub fn new(alloc: Global) -> Slots
        ensures { result ≡ [] }
    {
        Slots {
            alloc,
            counts: Vec::new(alloc),
            backends: Vec::new(alloc),
            totals: Vec::new(alloc),
            guesses: Guesses::new(),
        }
    }

    /// How many places there are. No two of them are of one identity.
    pub fn len(&self) -> usize
        ensures value { result ≡ length self.now }
        ensures apart { IdentitiesDiffer self.now }
    {
        self.counts.len()
    }

    /// Whether there is none.
    pub fn is_empty(&self) -> bool
        ensures { IsTrue result ↔ (self.now ≡ []) }
    {
        self.counts.is_empty()
    }

    /// Of each place: that it is not named.
    pub fn none_named(&self, alloc: Global) -> Result<NamedPlaces, AllocError>
        ensures { IfOk result (λ named. named ≡ replicate (length self.now) false) }
    {
        NamedPlaces::none(alloc, self.counts.len())
    }

    /// Where an identity is counted, which is named from now on. One that is new has no open connection. It is given a
    /// place that is not named, and to whose server no connection is open, and the last one where there is no such place.
    pub fn add(
        &mut self,
        identity: &ServerIdentity,
        named: &mut NamedPlaces,
    ) -> Result<SlotIx, AllocError>
        requires { length named.old ≡ length self.old }
        ensures there { IfOk result (λ ix. identity_at ix.place self.new ≡ Some identity.now) }
        ensures named { IfOk result (λ ix. named_at ix.place named.new ≡ true) }
        ensures still_named { (place : ℕ) → named_at place named.old ≡ true → named_at place named.new ≡ true }
        ensures many { length named.new ≡ length self.new }
        ensures apart { IdentitiesDiffer self.new }

        // What is named or has open connections keeps its place.
        ensures kept { (place : ℕ) → named_at place named.old ≡ true → identity_at place self.new ≡ identity_at place self.old }
        ensures open_kept { (place : ℕ) → 0 < open_at place self.old → identity_at place self.new ≡ identity_at place self.old }

        // Each count and each total is as before.
        ensures open { (place : ℕ) → open_at place self.new ≡ open_at place self.old }
        ensures open_in { (name : List ℕ) → open_in name self.new ≡ open_in name self.old }
        ensures err { OnErr result (self.new ≡ self.old) }
        ensures err_named { OnErr result (named.new ≡ named.old) }
    {
        if let Some(place) = self.find(identity, named.next_noted()) {
            named.note(SlotIx { place });
            return Ok(SlotIx { place });
        }
        if let Some(place) = named.free(self.counts.as_slice()) {
            self.replace(place, identity)?;
            named.note(SlotIx { place });
            return Ok(SlotIx { place });
        }
        let place = self.counts.len();
        named.named.try_reserve(1)?;
        self.push(identity)?;
        named.named.push_reserved(true);
        Ok(SlotIx { place })
    }

    /// Where an identity is counted. It is looked for at that place first.
    fn find(&self, identity: &ServerIdentity, guess: usize) -> Option<usize>
        ensures { result ≡ place_of identity.now self.now }
    {
        match self.counts.get(guess) {
            Some(count) if count.identity.is_same(identity) => Some(guess),
            _ => self.search(identity),
        }
    }

    /// The same by a look at the servers of its backend.
    fn search(&self, identity: &ServerIdentity) -> Option<usize>
        ensures { result ≡ place_of identity.now self.now }
    {
        let total = find_total(self.totals.as_slice(), identity.backend.as_slice())?;
        for place in 0..self.counts.len() {
            if self.backends[place] == total && self.counts[place].identity.is_same(identity) {
                return Some(place);
            }
        }
        None
    }

    /// Gives a place to whose server no connection is open to a new identity.
    fn replace(&mut self, place: usize, identity: &ServerIdentity) -> Result<(), AllocError>
        requires there { place < length self.old }
        requires closed { open_at place self.old ≡ 0 }
        requires new { place_of identity.now self.old ≡ None }
        ensures ok { OnOk result (self.new ≡ slice_set self.old place (closed identity.now)) }
        ensures err { OnErr result (self.new ≡ self.old) }
    {
        let identity = identity.duplicate(self.alloc)?;
        let total = place_of_total(self.alloc, &mut self.totals, identity.backend.as_slice())?;
        self.guesses.note(identity.backend.as_slice(), total);
        leave(&mut self.totals, self.backends[place]);
        join(&mut self.totals, total);
        self.backends[place] = total;
        self.counts[place] = Count {
            identity,
            connections: 0,
        };
        Ok(())
    }

    /// Counts a new identity in a place that is the last.
    fn push(&mut self, identity: &ServerIdentity) -> Result<(), AllocError>
        requires { place_of identity.now self.old ≡ None }
        ensures ok { OnOk result (self.new ≡ self.old ++ closed identity.now ∷ []) }
        ensures err { OnErr result (self.new ≡ self.old) }
    {
        let identity = identity.duplicate(self.alloc)?;
        let total = place_of_total(self.alloc, &mut self.totals, identity.backend.as_slice())?;
        self.guesses.note(identity.backend.as_slice(), total);
        self.backends.try_reserve(1)?;
        self.counts.push(Count {
            identity,
            connections: 0,
        })?;
        self.backends.push_reserved(total);
        join(&mut self.totals, total);
        Ok(())
    }

    /// Which server is counted there.
    pub fn identity(&self, ix: SlotIx) -> &ServerIdentity
        requires { ix.place < length self.now }
        ensures { Some result.now ≡ identity_at ix.place self.now }
    {
        &self.counts[ix.place].identity
    }

    /// How many connections are open.
    pub fn count(&self, ix: SlotIx) -> u64
        requires { ix.place < length self.now }
        ensures { result ≡ open_at ix.place self.now }
    {
        self.counts[ix.place].connections
    }

    /// How many connections are open to the server of that backend, name and address: none, if it was not added.
    pub fn count_of(&self, backend: &[u8], name: &[u8], to: &Endpoint) -> u64
        ensures { result ≡ open_of (record { backend = backend.now; name = name.now; to = to.now }) self.now }
    {
        match find_named(self.counts.as_slice(), backend, name, to) {
            Some(count) => count.connections,
            None => 0,
        }
    }

    /// How many connections are open to the servers of the backend of that name: a running number.
    pub fn offered(&self, backend: &[u8]) -> u64
        ensures { result ≡ open_in backend.now self.now }
    {
        let guess = self.guesses.place(backend);
        match find_near(self.totals.as_slice(), backend, guess) {
            Some(place) => self.totals[place].connections,
            None => 0,
        }
    }

    /// Counts one more open connection, without taking memory.
    pub fn take(&mut self, ix: SlotIx) -> Slot
        requires there { ix.place < length self.old }
        requires below { open_in_all self.old < 2 ^ 64 - 1 }
        ensures slot { result ≡ ix }
        ensures counts { self.new ≡ with_open (λ n. n + 1) ix.place self.old }

        // Each count is one higher for each slot of it.
        ensures open { (place : ℕ) → open_at place self.new ≡ open_at place self.old + slots_at place result }
    {
        self.counts[ix.place].connections += 1;
        open_one(&mut self.totals, self.backends[ix.place]);
        Slot { ix }
    }

    /// Counts one open connection less, without taking memory.
    pub fn give_back(&mut self, slot: Slot)
        requires { 0 < open_at slot.place self.old }
        ensures counts { self.new ≡ with_open (λ n. n - 1) slot.place self.old }
        ensures open { (place : ℕ) → open_at place self.new + slots_at place slot ≡ open_at place self.old }
    {
        let Slot { ix } = slot;
        self.counts[ix.place].connections -= 1;
        close_one(&mut self.totals, self.backends[ix.place]);
    }
}

fn is_of(count: &Count, backend: &[u8], name: &[u8], to: &Endpoint) -> bool
    ensures { result ≡ is_of (record { backend = backend.now; name = name.now; to = to.now }) count.now }
{
    is_same_name(count.identity.backend.as_slice(), backend)
        && is_same_name(count.identity.name.as_slice(), name)
        && count.identity.to.is_same(to)
}

fn find_named<'a>(
    counts: &'a [Count],
    backend: &[u8],
    name: &[u8],
    to: &Endpoint,
) -> Option<&'a Count>
    ensures { option_copied result ≡ find (is_of (record { backend = backend.now; name = name.now; to = to.now })) counts.now }
{
    counts.iter().find(|count| is_of(count, backend, name, to))
}
