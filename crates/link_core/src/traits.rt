//! What a crew works on: connections of bytes, a door that they come through, and the way out to servers.

ghost use Rattle.std.specs.Prelude.{◌≡◌};

use addr_core::{Endpoint, Pair};
use conn_model::event::Health;
use conn_model::reply::{Reply, StepFault};
use device_core::{Input, Output};
use status_core::{CrewStatus, Question};
use std::alloc::AllocError;

/// A connection of bytes that does not wait: where nothing can be read or written at this moment, a call is blocked.
/// Dropping it ends it.
pub trait Link: Input + Output + Drop {
    /// Ends the writing, so that the other side reads to its end; whether that went well. The crew calls it once.
    fn shut(&mut self) -> bool
        ensures { Self.held self.new ≡ Self.held self.old };

    /// Whether the other side has ended and nothing that it sent is left to be read.
    fn has_left(&mut self) -> bool
        ensures left { Self.left self.new ≡ Self.left self.old }
        ensures held { Self.held self.new ≡ Self.held self.old };
}

/// What came to the door.
#[derive(Drop)]
pub enum DoorEvent<K> {
    /// A connection to a listener, by its number; the pair is its peer and its local end.
    Conn(u16, Pair, K),
    /// A new configuration is to come into force: its text.
    Reload(String),
    /// A server is down or up from now on: the numbers of its backend in the newest configuration and of it in its backend.
    Mark(u16, u16, Health),
    /// Somebody asks for the state of the crew.
    Status(Question),
    /// Nothing came. The door may have waited before it said so.
    Idle,
    /// Nothing will come any more.
    Closed,
}

/// What keeps the record of the decisions from going out.
#[derive(Clone, Copy, Debug, PartialEq, Eq)]
pub struct Backlog {
    /// How many segments of it were refused so far. They are lost.
    pub refused: u64,
    /// How many records at least wait in memory, since the segments before them are not taken yet.
    pub waiting: u64,
}

/// Where connections come in. One thread alone uses it.
pub trait Door {
    type Link: Link;

    /// What came next.
    fn next(&mut self) -> DoorEvent<Self::Link>;

    /// Wakes that worker, counted from 0: the connection that was last handed out is with it, all threads began, or nothing
    /// will come any more.
    fn wake(&mut self, worker: usize);

    /// What became of the reload or of the mark that was last handed out.
    fn report(&mut self, answer: &Result<Reply, StepFault>);

    /// The state that was asked for last, unless there was no memory for it.
    fn report_status(&mut self, status: Result<CrewStatus, AllocError>) {
        let _status = status;
    }

    /// The record does not go out as it should. This is called again and again while it is so.
    fn warn(&mut self, backlog: &Backlog);
}

/// What became of a connection to a server.
#[derive(Drop)]
pub enum Dialled<K> {
    Link(K),
    /// It is under way. It is asked for again once its key is ready.
    Later,
    Failed,
}

/// What a worker may do with a connection now, as far as its dial knows.
#[derive(Clone, Copy, Debug, PartialEq, Eq)]
pub struct Ready {
    /// The key of the connection.
    pub key: usize,
    /// Of the link to its server, and not of the one to its client.
    pub of_server: bool,
    pub reads: bool,
    pub writes: bool,
    /// The other side will write no more, so that the end follows the bytes that are still to be read.
    pub is_closed: bool,
    /// The link failed, as by a reset of the other side.
    pub is_reset: bool,
}

/// One worker's way out to the servers, and its watch over the links that it keeps. No other thread uses it.
pub trait Dial {
    type Link: Link;

    /// Begins to connect to a server for the connection of that key, or says what became of it. A link that it hands
    /// out is watched.
    fn poll(&mut self, key: usize, to: &Endpoint) -> Dialled<Self::Link>;

    /// What was begun for the key is not asked for any more.
    fn forget(&mut self, key: usize);

    /// A client that waits at a listener which this dial has too, if one does: the number of the listener, the pair of the
    /// client and of its local end, and its link, which is not watched yet. It does not wait for one.
    fn accept(&mut self) -> Option<(u16, Pair, Self::Link)> {
        None
    }

    /// Watches the link of a client under its key; whether that went well.
    fn watch(&mut self, key: usize, link: &mut Self::Link) -> bool;

    /// Waits until something is ready or a client may wait, for `limit` ms at the most, and adds what is ready to the list as
    /// far as it has room.
    /// It may end sooner. A key that is not in use any more may be among what is ready.
    fn wait(&mut self, limit: u64, ready: &mut Vec<Ready>);
}

/// The time.
pub trait Clock {
    /// In ms. It never falls.
    fn now(&self) -> u64;

    /// Waits for a moment. The acceptor calls it where it found nothing to do.
    fn rest(&self);
}

/// What is called around each call of a worker at the desk, while no lock is held. `nth` counts the worker's calls from 0.
pub trait Gate {
    /// Whether the call may be made. At `false` the worker stops.
    fn enter(&self, worker: u16, nth: u64) -> bool;

    fn leave(&self, worker: u16, nth: u64);
}
