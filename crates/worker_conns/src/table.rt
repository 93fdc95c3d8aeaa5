//! The connections of one worker.
ghost use Rattle.std.specs.Prelude.{IfSome};
ghost use Rattle.worker_conns.specs.Places.{HasSerial};

use crate::conn::{Conn, ConnStage};
use crate::queue::{Queue, Queued};
use conn_model::event::Why;
use link_core::{Link, Ready};
use slab::Slab;
use std::alloc::{AllocError, Global};
use std::collections::VecDeque;

/// How many places are looked at for each ms, to find connections of which something is due. So all of 10,000 are looked
/// at within 100 ms, and all of 100,000 within a second.
const LOOKS: u64 = 100;

/// How long the worker waits at the most, in ms, while something may be due of a connection that is not looked at yet.
const LOOK_WAIT: u64 = 100;

/// A connection by its key.
#[derive(Drop)]
enum Entry<K: Link> {
    Open(Conn<K>),
    /// It ended, and there was no memory to record that. It is tried again.
    Ended(Why),
}

#[derive(Drop)]
struct Place<K: Link> {
    entry: Entry<K>,
    listener: u16,
    /// Whether it is in the queue.
    is_queued: bool,
    /// The number of the accept among those of this worker.
    serial: u64,
}

/// A connection that waits for its header.
#[derive(Clone, Copy, Debug)]
pub struct HeaderWait {
    /// In ms.
    due: u64,
    pub key: usize,
    serial: u64,
}

/// The connections of a worker, and which of them are to be served next.
#[derive(Drop)]
pub struct ConnTable<K: Link> {
    places: Slab<Place<K>>,
    /// Each open connection once at the most.
    queue: Queue,
    /// In the order of accepts, which is that of the moments.
    waits: VecDeque<HeaderWait>,
    /// How many of the queue have ended.
    ended: usize,
    serial: u64,
    /// From which moment on something may be due of the connection of each key, in ms. These lie close together, so that a
    /// look at a connection that is silent takes eight bytes and not its place.
    next_looks: Vec<u64>,
    /// Before this moment nothing is due of any connection except its header, in ms.
    quiet_until: u64,
    /// The same of the connections that were looked at, and of new ones, since the hand was last at the first place.
    round_quiet_until: u64,
    /// The place that is looked at next.
    hand: usize,
    /// When places were last looked at, in ms.
    looked: u64,
}

impl<K: Link> ConnTable<K> {
    pub fn new(alloc: Global) -> ConnTable<K> {
        ConnTable {
            places: Slab::new(alloc),
            queue: Queue::new(alloc),
            waits: VecDeque::new(alloc),
            ended: 0,
            serial: 0,
            next_looks: Vec::new(alloc),
            quiet_until: u64::MAX,
            round_quiet_until: u64::MAX,
            hand: 0,
            looked: 0,
        }
    }

    /// Makes room for one connection more of a listener, with its place in the queue and its wait for a header.
    pub fn make_room(&mut self, listener: u16) -> Result<usize, AllocError> {
        self.places.reserve(1)?;
        self.queue.make_room(listener)?;
        self.waits.reserve(1)?;
        self.next_looks.reserve(1)?;
        Ok(self.places.vacant_key())
    }

    /// Keeps a connection of a listener, and says under which key.
    pub fn insert(&mut self, listener: u16, conn: Conn<K>) -> Result<usize, AllocError> {
        self.serial = self.serial.saturating_add(1);
        let place = Place {
            entry: Entry::Open(conn),
            listener,
            is_queued: false,
            serial: self.serial,
        };
        match self.places.insert(place) {
            Ok(key) => {
                self.queue.open(listener);
                self.look_soon(key);
                Ok(key)
            }
            Err(_full) => Err(AllocError),
        }
    }

    pub fn conn(&mut self, key: usize) -> Option<&mut Conn<K>> {
        match &mut self.places.get_mut(key)?.entry {
            Entry::Open(conn) => Some(conn),
            Entry::Ended(_) => None,
        }
    }

    /// Why the connection of a key ended, if that is not recorded yet.
    pub fn ended(&self, key: usize) -> Option<Why> {
        match &self.places.get(key)?.entry {
            Entry::Open(_) => None,
            Entry::Ended(why) => Some(*why),
        }
    }

    /// Puts the connection of a key into the queue, unless it is there.
    pub fn enqueue(&mut self, key: usize) {
        let Some(place) = self.places.get_mut(key) else {
            return;
        };
        if !place.is_queued {
            let serial = place.serial;
            place.is_queued = self.queue.push(place.listener, Queued { key, serial });
        }
    }

    /// What the dial reported of a link.
    pub fn raise(&mut self, ready: &Ready) {
        if let Some(conn) = self.conn(ready.key) {
            conn.raise(ready);
            self.enqueue(ready.key);
        }
    }

    /// How many connections are in the queue.
    pub fn queued(&self) -> usize {
        self.queue.len()
    }

    /// The next connection of the queue, unless it has ended since: then its key may be another one's.
    pub fn dequeue(&mut self) -> Option<Queued>
        ensures { IfSome result (λ queued. HasSerial self.new.places queued.key queued.serial) }
    {
        let queued = self.queue.pop()?;
        let place = self.places.get_mut(queued.key)?;
        if place.serial != queued.serial {
            return None;
        }
        place.is_queued = false;
        if matches!(place.entry, Entry::Ended(_)) {
            self.ended = self.ended.saturating_sub(1);
        }
        Some(queued)
    }

    pub fn remove(&mut self, key: usize) {
        if let Some(place) = self.places.try_remove(key) {
            self.queue.close(place.listener);
        }
    }

    /// The connection of a key ended, and its links with it, but that could not be recorded.
    pub fn end(&mut self, key: usize, why: Why) {
        let Some(place) = self.places.get_mut(key) else {
            return;
        };
        place.entry = Entry::Ended(why);
        self.ended = self.ended.saturating_add(1);
        self.enqueue(key);
    }

    /// The connection of a key, which was inserted last, waits for its header until that moment.
    pub fn wait(&mut self, key: usize, due: u64) {
        let serial = self.serial;
        let _ = self.waits.push_back(HeaderWait { due, key, serial });
    }

    /// A wait that is over by another's clock, but not by that of the desk, is tried again 1 ms later.
    pub fn wait_again(&mut self, wait: &HeaderWait, now: u64) {
        let due = now.saturating_add(1);
        let _ = self.waits.push_front(HeaderWait { due, ..*wait });
    }

    /// How many waits there are.
    pub fn waiting(&self) -> usize {
        self.waits.len()
    }

    /// The first wait, if it is over.
    pub fn due(&mut self, now: u64) -> Option<HeaderWait> {
        let wait = *self.waits.front()?;
        if now < wait.due {
            return None;
        }
        self.waits.pop_front()
    }

    /// Whether it is still that connection that has the key, and still waits.
    pub fn waits_for_header(&self, wait: &HeaderWait) -> bool {
        match self.places.get(wait.key) {
            Some(
                Place {
                    entry: Entry::Open(conn),
                    serial,
                    ..
                },
            ) => *serial == wait.serial && matches!(conn.stage, ConnStage::Header),
            _ => false,
        }
    }

    /// How many of so many places are to be looked at now: the more, the longer ago places were last looked at.
    pub fn looks(&mut self, now: u64, places: usize) -> usize {
        let passed = now.saturating_sub(self.looked);
        self.looked = now;
        usize::try_from(passed.saturating_mul(LOOKS))
            .unwrap_or(usize::MAX)
            .min(places)
    }

    /// The place of so many that is looked at next.
    pub fn next_place(&mut self, places: usize) -> usize {
        if self.hand >= places {
            self.begin_round();
        }
        let place = self.hand;
        self.hand = place.saturating_add(1);
        place
    }

    /// All places were looked at.
    fn begin_round(&mut self) {
        self.hand = 0;
        self.quiet_until = self.round_quiet_until;
        self.round_quiet_until = u64::MAX;
    }

    /// The place of a key was looked at.
    pub fn end_look(&mut self, key: usize) {
        if let Some(next_look) = self.next_looks.get(key) {
            self.round_quiet_until = self.round_quiet_until.min(*next_look);
        }
    }

    /// The connection of a key is new: it is looked at.
    fn look_soon(&mut self, key: usize) {
        self.quiet_until = 0;
        self.round_quiet_until = 0;
        match self.next_looks.get_mut(key) {
            Some(next_look) => *next_look = 0,
            None => {
                let _ = self.next_looks.push(0);
            }
        }
    }

    /// Whether something may be due of the connection of a key.
    pub fn is_to_look(&self, key: usize, now: u64) -> bool {
        match self.next_looks.get(key) {
            Some(next_look) => *next_look <= now,
            None => true,
        }
    }

    /// Nothing is due of the connection of a key.
    pub fn look_later(&mut self, key: usize, now: u64) {
        let next = match self.conn(key) {
            Some(conn) => conn.next_look(now),
            None => u64::MAX,
        };
        if let Some(next_look) = self.next_looks.get_mut(key) {
            *next_look = next;
        }
    }

    /// How long the worker may wait, in ms: not at all where something is to be served, and otherwise until the first wait for a
    /// header is over, or something else may be due.
    pub fn limit(&self, now: u64, most: u64) -> u64 {
        if self.queue.len() > self.ended {
            return 0;
        }
        let quiet = self.quiet_until.saturating_sub(now).max(LOOK_WAIT);
        let limit = match self.waits.front() {
            Some(wait) => wait.due.saturating_sub(now).min(quiet),
            None => quiet,
        };
        let limit = limit.min(most);
        if self.ended > 0 { limit.min(1) } else { limit }
    }

    /// Drops all links.
    pub fn clear(&mut self) {
        self.places.clear();
        self.queue.clear();
        self.waits.clear();
        self.next_looks.clear();
    }
}
