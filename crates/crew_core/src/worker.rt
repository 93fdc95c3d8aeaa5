//! One worker: its turns, and what it does with each connection.

ghost use Rattle.std.specs.Prelude.{◌≡◌};

use crate::calls::{CallOutcome, Calls, WorkerContext};
use addr_core::Pair;
use conn_model::event::{HEADER_WAIT, Why};
use conn_model::reply::Said;
use desk_core::{Opening, Pass};
use link_core::{Clock, Dial, Gate, Link, Ready, Spares};
use rtrb::Consumer;
use std::alloc::Global;
use std::sync::Wait;
use std::sync::ledger::Ledger;
use worker_conns::{Conn, ConnTable};

/// How many links a dial reports at a time at the most.
pub(crate) const REPORTS: usize = 256;

/// How many times in one turn a dial is asked for reports at the most.
const ASKED: u32 = 64;

/// How many connections are served in one turn at the most, and how many waits for a header end. What is left has its turn
/// after what was reported meanwhile.
pub(crate) const SERVED: usize = 128;

/// How many clients a worker takes from its dial at a time. Those that are left wait until it has served some connections,
/// or for another worker.
const TAKEN: usize = 4;

/// After how many connections that were served it takes clients again.
pub(crate) const BETWEEN_CLIENTS: usize = 16;

/// How long a worker waits at the most, in ms, if nothing is due. What comes ends the wait.
const LONGEST_WAIT: u64 = 10_000;

/// A connection that the acceptor hands to a worker.
#[derive(Drop)]
pub(crate) struct NewConn<K: Link> {
    pub(crate) listener: u16,
    pub(crate) real: Pair,
    pub(crate) link: K,
}

/// What a worker needs besides its pass and its dial. All of it takes memory.
#[derive(Drop)]
pub(crate) struct WorkerState<K: Link> {
    pub(crate) arrivals: Consumer<NewConn<K>>,
    pub(crate) table: ConnTable<K>,
    pub(crate) buffer: Vec<u8>,
    pub(crate) spares: Spares,
    pub(crate) ready: Vec<Ready>,
}

/// A worker.
pub(crate) struct Worker<M: Ledger, O: Ledger, K: Link, L: Dial<Link = K>> {
    pub(crate) calls: Calls<M, O>,
    pub(crate) state: WorkerState<K>,
    pub(crate) dial: L,
    /// How many clients it took from its dial.
    pub(crate) came: u64,
}

impl<M: Ledger, O: Ledger, K: Link, L: Dial<Link = K>> Worker<M, O, K, L> {
    pub(crate) fn new(
        alloc: Global,
        number: u16,
        pass: Pass<M>,
        state: WorkerState<K>,
        dial: L,
    ) -> Worker<M, O, K, L>
        ensures { result.calls.pass ≡ pass }
    {
        Worker {
            calls: Calls::new(alloc, number, pass),
            state,
            dial,
            came: 0,
        }
    }

    /// Works until the door is closed, the gate stops it, or its turns are used up. Then what is open is closed.
    pub(crate) fn work<B: Opening, G: Gate, C: Clock, R: Wait>(
        &mut self,
        rt: &R,
        context: &WorkerContext<'_, M, O, B, G, C>,
    ) {
        context.alert.begin();
        for _turn in 0..context.turns {
            self.turn(rt, context);
            let has_ended = self.state.arrivals.is_abandoned() && self.state.arrivals.is_empty();
            if self.calls.is_stopped || has_ended {
                break;
            }
        }
        self.stop(rt, context);
    }

    /// One turn. It costs what is ready, and not what is open. What is due is looked at after what has come was read, and by
    /// the moment before that: where all threads are stopped in between, nobody's time is over for it.
    fn turn<B: Opening, G: Gate, C: Clock, R: Wait>(
        &mut self,
        rt: &R,
        context: &WorkerContext<'_, M, O, B, G, C>,
    ) {
        let limit = self.state.table.limit(context.clock.now(), LONGEST_WAIT);
        self.gather(limit);
        let now = context.clock.now();
        self.take_arrivals(rt, context);
        self.take_clients(rt, context);
        self.serve_queue(rt, context);
        self.expire(rt, context, now);
        self.do_due(rt, context, now);
    }

    /// Takes all that the dial has to report, so that nobody is served before another connection is known to be ready. It
    /// waits for the first report for `limit` ms at the most.
    fn gather(&mut self, limit: u64) {
        let mut limit = limit;
        for _part in 0..ASKED {
            self.state.ready.clear();
            self.dial.wait(limit, &mut self.state.ready);
            for ready in &self.state.ready {
                self.state.table.raise(ready);
            }
            if self.state.ready.len() < REPORTS {
                return;
            }
            limit = 0;
        }
    }

    fn take_arrivals<B: Opening, G: Gate, C: Clock, R: Wait>(
        &mut self,
        rt: &R,
        context: &WorkerContext<'_, M, O, B, G, C>,
    ) {
        for _place in 0..self.state.arrivals.slots() {
            if self.calls.is_stopped {
                return;
            }
            if let Ok(arrival) = self.state.arrivals.pop() {
                self.accept(rt, context, arrival);
            }
        }
    }

    /// Takes clients that wait at the listeners of its dial, once all threads began and until the door is closed.
    pub(crate) fn take_clients<B: Opening, G: Gate, C: Clock, R: Wait>(
        &mut self,
        rt: &R,
        context: &WorkerContext<'_, M, O, B, G, C>,
    ) {
        if !context.alert.is_open() || self.state.arrivals.is_abandoned() {
            return;
        }
        for _client in 0..TAKEN {
            if self.calls.is_stopped {
                return;
            }
            let Some((listener, real, link)) = self.dial.accept() else {
                return;
            };
            self.came = self.came.saturating_add(1);
            self.accept(
                rt,
                context,
                NewConn {
                    listener,
                    real,
                    link,
                },
            );
        }
    }

    /// A connection came. If it cannot be kept, it is shut.
    fn accept<B: Opening, G: Gate, C: Clock, R: Wait>(
        &mut self,
        rt: &R,
        context: &WorkerContext<'_, M, O, B, G, C>,
        arrival: NewConn<K>,
    ) {
        let NewConn {
            listener,
            real,
            link,
        } = arrival;
        let Ok(key) = self.state.table.make_room(listener) else {
            return shut(link);
        };
        match self.calls.accept(rt, context, key, listener, &real) {
            CallOutcome::Open(said) => self.keep(rt, context, key, listener, link, &said),
            CallOutcome::Ended | CallOutcome::Stopped => {}
            CallOutcome::Failed(_fault) => shut(link),
        }
    }

    /// Keeps an accepted connection under its key.
    fn keep<B: Opening, G: Gate, C: Clock, R: Wait>(
        &mut self,
        rt: &R,
        context: &WorkerContext<'_, M, O, B, G, C>,
        key: usize,
        listener: u16,
        link: K,
        said: &Said,
    ) {
        let mut conn = Conn::new(link);
        let is_watched = self.dial.watch(key, &mut conn.client);
        let kept = self.state.table.insert(listener, conn);
        if kept != Ok(key) || !is_watched {
            return self.close(rt, context, key, Why::Fault);
        }
        match said {
            Said::Offer { to, send, .. } => {
                self.offer(rt, context, key, *to, send.as_slice(), (0, 0));
            }
            _ => {
                let due = context.clock.now().saturating_add(HEADER_WAIT);
                self.state.table.wait(key, due);
                self.state.table.enqueue(key);
            }
        }
    }
}

fn shut<K: Link>(link: K) {
    let mut link = link;
    let _ = link.shut();
}
