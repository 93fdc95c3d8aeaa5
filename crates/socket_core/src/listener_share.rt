//! A share of the listeners: the clients that a worker takes, or the door.
use crate::fd_budget::FdPermit;
use crate::link::SocketLink;
use crate::ports::{AcceptResult, Ports};
use crate::ready_listeners::ReadyListeners;
use addr_core::Pair;
use link_core::Clock;
use log::{Log, warn};
use std::alloc::{AllocError, Global};
use std::io;
use std::sync::Arc;

/// How long no client is taken after the system refused to give one, in ms.
const PAUSE: u64 = 100;

/// How long a wait is at the most while as many connections are open as may be, in ms.
const FULL_WAIT: u64 = 10;

/// How long a worker leaves a client to the other workers at the most, in ms.
const LEFT_WAIT: u64 = 1;

/// How many clients a worker takes one after another before it leaves one to the others again.
const IN_A_ROW: u32 = 4;

/// What a worker knows of the listeners, which it shares with all other workers, or what the door knows of them if it takes
/// the clients. The system reports to each worker that a client came, and gives it to the one that asks first. While
/// another worker with fewer connections has nothing to do, a worker leaves a client to it for one turn, so that
/// connections that last are spread over all of them.
#[derive(Drop)]
pub struct ListenerShare<'a, R: Log, C: Clock> {
    rt: &'a R,
    clock: &'a C,
    /// Its number among those of the ports. The door's is that of no worker, so that it leaves no client.
    worker: usize,
    ports: Arc<Ports, Global>,
    ready: ReadyListeners,
    /// Whether it has left a client to the others.
    has_left: bool,
    /// How many clients it takes before it leaves one.
    in_a_row: u32,
    /// Until when none is taken.
    resumes: Option<u64>,
    /// Whether as many connections are open as may be.
    is_full: bool,
    /// Whether it was asked for a client. Before that a client that waits ends no wait.
    is_asked: bool,
}

impl<'a, R: Log, C: Clock> ListenerShare<'a, R, C> {
    pub fn new(
        rt: &'a R,
        alloc: Global,
        clock: &'a C,
        worker: usize,
        ports: &Arc<Ports, Global>,
    ) -> Result<ListenerShare<'a, R, C>, AllocError> {
        Ok(ListenerShare {
            rt,
            clock,
            worker,
            ports: Arc::try_clone(ports)?,
            ready: ReadyListeners::new(alloc, ports.len())?,
            has_left: false,
            in_a_row: 0,
            resumes: None,
            is_full: false,
            is_asked: false,
        })
    }

    /// A client may wait at that listener.
    pub fn note_ready(&mut self, listener: u16) {
        self.ready.add(listener);
    }

    /// For how many ms more no client is taken.
    fn pause_left(&mut self) -> u64 {
        let Some(moment) = self.resumes else {
            return 0;
        };
        let left = moment.saturating_sub(self.clock.now());
        if left == 0 {
            self.resumes = None;
        }
        left
    }

    /// No client is taken for a moment. Clients stay in the system's queue.
    fn pause(&mut self, error: &io::Error) {
        let now = self.clock.now();
        if self.ports.refused.allows(now) {
            warn!(self.rt; "no connection can be accepted: {error}");
        }
        self.resumes = Some(now.saturating_add(PAUSE));
    }

    /// A permit for the next connection. If there is none, it is asked for again a moment later, and clients stay in the
    /// system's queue. That is said if there is none twice in a row: another worker may have one that finds no client.
    fn permit(&mut self) -> Option<FdPermit> {
        let permit = FdPermit::ask(&self.ports.budget, self.worker);
        let was_full = self.is_full;
        self.is_full = permit.is_none();
        if self.is_full && was_full && self.ports.full.allows(self.clock.now()) {
            warn!(self.rt; "no connection is accepted: as many are open as the limit of open files allows");
        }
        permit
    }

    fn say_lost(&self) {
        if self.ports.lost.allows(self.clock.now()) {
            warn!(self.rt; "a connection was dropped: it ended early, or its ends are not of one family");
        }
    }

    /// How long a wait may take that may take `limit` ms for all else.
    pub fn limit(&mut self, limit: u64) -> u64 {
        if self.ready.is_empty() || !self.is_asked {
            return limit;
        }
        let paused = self.pause_left();
        if paused > 0 {
            limit.min(paused)
        } else if self.is_full {
            limit.min(FULL_WAIT)
        } else if self.has_left {
            limit.min(LEFT_WAIT)
        } else {
            0
        }
    }

    /// Whether a client is left to the other workers. If none of them took it in the meantime, the worker takes it, and some
    /// more.
    fn leaves(&mut self) -> bool {
        if self.has_left {
            self.has_left = false;
            self.in_a_row = IN_A_ROW;
        }
        if self.in_a_row > 0 {
            self.in_a_row -= 1;
            return false;
        }
        self.has_left = self.ports.has_better(self.worker);
        self.has_left
    }

    /// A client, if one waits: the number of its listener, its pair and its link.
    pub fn accept(&mut self) -> Option<(u16, Pair, SocketLink)> {
        self.is_asked = true;
        if self.ready.is_empty() || self.pause_left() > 0 || self.leaves() {
            return None;
        }
        let permit = self.permit()?;
        for _turn in 0..self.ready.len() {
            let listener = self.ready.next()?;
            match self.ports.accept(listener) {
                AcceptResult::Nothing => {}
                given => return self.taken(listener, given, permit),
            }
        }
        self.in_a_row = 0;
        None
    }

    /// What a listener gave that may have more.
    fn taken(
        &mut self,
        listener: u16,
        given: AcceptResult,
        permit: FdPermit,
    ) -> Option<(u16, Pair, SocketLink)> {
        self.ready.add(listener);
        match given {
            AcceptResult::Conn(pair, link) => {
                return Some((listener, pair, link.with_permit(permit)));
            }
            AcceptResult::Lost => self.say_lost(),
            AcceptResult::Refused(error) => self.pause(&error),
            AcceptResult::Nothing => {}
        }
        None
    }
}
