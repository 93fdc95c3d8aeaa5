//! The acceptor: connections that come to the door go to the workers in turn, and reloads and marks to the desk.
ghost use Rattle.std.specs.Prelude.{◌≡◌, false, Err, IfErr, IfOk, Ok};

use crate::calls::WorkerContext;
use crate::worker::NewConn;
use addr_core::Pair;
use book_core::Receipt;
use conn_model::event::Health;
use conn_model::reply::{Reply, StepFault};
use desk_core::{Opening, Pass};
use link_core::{Clock, Door, DoorEvent, Gate, Link};
use rtrb::{Producer, PushError};
use status_core::Reloads;
use std::sync::Wait;
use std::sync::ledger::Ledger;

/// How many connections wait for a worker at the most.
pub(crate) const LANE: usize = 64;

/// How often the acceptor rests at the most while it waits for the workers and the recorder to begin.
const MOST_RESTS: u64 = 2_000;

/// What came of the acceptor's work.
#[derive(Clone, Copy, Drop)]
pub(crate) struct Came {
    /// Whether all workers began, and the recorder. If not, the door was not asked.
    pub(crate) began: bool,
    /// How many connections came.
    pub(crate) accepted: u64,
    /// How many of them no lane had room for.
    pub(crate) held: u64,
}

impl Came {
    /// The same with so many connections that workers took from their dials, which they do only once all threads began.
    pub(crate) fn with_taken(self, taken: u64) -> Came
        requires { self.began ≡ false → self.accepted ≡ 0 }
        ensures { result.began ≡ false → result.accepted ≡ 0 }
    {
        if taken == 0 {
            return self;
        }
        Came {
            began: true,
            accepted: self.accepted.saturating_add(taken),
            held: self.held,
        }
    }
}

/// What the acceptor works with.
#[derive(Drop)]
pub(crate) struct Acceptor<'a, M: Ledger, K: Link, D: Door<Link = K>> {
    pub(crate) door: &'a mut D,
    /// One for each worker.
    pub(crate) lanes: Vec<Producer<NewConn<K>>>,
    pub(crate) pass: &'a mut Pass<M>,
}

/// The reply of a call that was answered.
fn reply_to(answer: Result<Receipt, StepFault>) -> Result<Reply, StepFault>
    ensures reply { IfOk answer (λ receipt. result ≡ Ok receipt.reply) }
    ensures fault { IfErr answer (λ fault. result ≡ Err fault) }
{
    match answer {
        Ok(Receipt { number: _, reply }) => Ok(reply),
        Err(fault) => Err(fault),
    }
}

impl<'a, M: Ledger, K: Link, D: Door<Link = K>> Acceptor<'a, M, K, D> {
    /// Takes what comes until the door is closed or the turns are used up. The lanes are given up then, by which the
    /// workers learn of it. The door is asked once all workers began, and the recorder, and so are their dials for clients;
    /// if one does not within some seconds, the system has no thread for it, and nothing is taken.
    pub(crate) fn accept_all<O: Ledger, B: Opening, G: Gate, C: Clock, R: Wait>(
        self,
        rt: &R,
        context: &WorkerContext<'_, M, O, B, G, C>,
    ) -> Came
        ensures unbegun { result.began ≡ false → result.accepted ≡ 0 }
    {
        if !have_begun(context, self.lanes.len() as u64) {
            self.give_up_lanes();
            return Came {
                began: false,
                accepted: 0,
                held: 0,
            };
        }
        context.alert.open();
        let mut acceptor = self;
        acceptor.wake_all();
        let mut reception = Reception {
            acceptor,
            accepted: 0,
            held: None,
            reloads: Reloads::NONE,
        };
        for _turn in 0..context.turns {
            if !reception.turn(rt, context) {
                break;
            }
        }
        let Reception {
            acceptor,
            accepted,
            held,
            ..
        } = reception;
        acceptor.give_up_lanes();
        Came {
            began: true,
            accepted,
            held: u64::from(held.is_some()),
        }
    }

    /// Wakes the workers.
    fn wake_all(&mut self) {
        for worker in 0..self.lanes.len() {
            self.door.wake(worker);
        }
    }

    /// Gives up the lanes, and then wakes the workers, so that each finds its lane given up.
    fn give_up_lanes(self) {
        let Acceptor { door, lanes, .. } = self;
        let workers = lanes.len();
        drop(lanes);
        for worker in 0..workers {
            door.wake(worker);
        }
    }
}

/// What an acceptor has taken so far.
#[derive(Drop)]
struct Reception<'a, M: Ledger, K: Link, D: Door<Link = K>> {
    acceptor: Acceptor<'a, M, K, D>,
    /// How many connections came.
    accepted: u64,
    /// The last one, while no lane has room for it.
    held: Option<NewConn<K>>,
    reloads: Reloads,
}

impl<'a, M: Ledger, K: Link, D: Door<Link = K>> Reception<'a, M, K, D> {
    /// One turn; whether there is to be another one.
    fn turn<O: Ledger, B: Opening, G: Gate, C: Clock, R: Wait>(
        &mut self,
        rt: &R,
        context: &WorkerContext<'_, M, O, B, G, C>,
    ) -> bool {
        if let Some(backlog) = context.alert.backlog() {
            self.acceptor.door.warn(&backlog);
        }
        if let Some(arrival) = self.held.take() {
            self.hand_over(arrival);
            if self.held.is_some() {
                context.clock.rest();
            }
            return true;
        }
        match self.acceptor.door.next() {
            DoorEvent::Conn(listener, real, link) => self.take(listener, real, link),
            DoorEvent::Reload(text) => self.reload(rt, context, text.as_str()),
            DoorEvent::Mark(backend, server, health) => {
                self.mark(rt, context, backend, server, health);
            }
            DoorEvent::Status(question) => {
                let status = context.status(rt, &question, self.reloads);
                self.acceptor.door.report_status(status);
            }
            DoorEvent::Idle => context.clock.rest(),
            DoorEvent::Closed => return false,
        }
        true
    }

    /// A connection came.
    fn take(&mut self, listener: u16, real: Pair, link: K) {
        self.accepted = self.accepted.saturating_add(1);
        self.hand_over(NewConn {
            listener,
            real,
            link,
        });
    }

    /// Hands the connection that came last to a worker. Where too many wait for each of them it is held.
    fn hand_over(&mut self, arrival: NewConn<K>) {
        match hand_over(&mut self.acceptor.lanes, self.accepted, arrival) {
            Ok(worker) => self.acceptor.door.wake(worker),
            Err(back) => self.held = Some(back),
        }
    }

    fn reload<O: Ledger, B: Opening, G: Gate, C: Clock, R: Wait>(
        &mut self,
        rt: &R,
        context: &WorkerContext<'_, M, O, B, G, C>,
        text: &str,
    ) {
        let moment = context.clock.now();
        let answer = context.desk.reload(rt, self.acceptor.pass, moment, text);
        self.reloads.note(answer.is_ok());
        self.report(rt, context, answer);
    }

    /// A server is down or up.
    fn mark<O: Ledger, B: Opening, G: Gate, C: Clock, R: Wait>(
        &mut self,
        rt: &R,
        context: &WorkerContext<'_, M, O, B, G, C>,
        backend: u16,
        server: u16,
        health: Health,
    ) {
        let moment = context.clock.now();
        let pass = &mut *self.acceptor.pass;
        let answer = context.desk.mark(rt, pass, moment, backend, server, health);
        self.report(rt, context, answer);
    }

    /// Says to the door what became of the reload or of the mark that it handed out.
    fn report<O: Ledger, B: Opening, G: Gate, C: Clock, R: Wait>(
        &mut self,
        rt: &R,
        context: &WorkerContext<'_, M, O, B, G, C>,
        answer: Result<Receipt, StepFault>,
    ) {
        if let Ok(receipt) = &answer {
            context.note(rt, receipt.number);
        }
        self.acceptor.door.report(&reply_to(answer));
    }
}

/// Waits for so many workers to begin, and for the recorder; whether they did.
fn have_begun<M: Ledger, O: Ledger, B: Opening, G: Gate, C: Clock>(
    context: &WorkerContext<'_, M, O, B, G, C>,
    workers: u64,
) -> bool {
    for _rest in 0..MOST_RESTS {
        if context.alert.began() > workers {
            return true;
        }
        context.clock.rest();
    }
    false
}

/// Hands the connection of that number to the worker whose turn it is, or to the next one for which not too many wait,
/// and says which one that is. Where too many wait for each of them it comes back.
fn hand_over<K: Link>(
    lanes: &mut [Producer<NewConn<K>>],
    number: u64,
    arrival: NewConn<K>,
) -> Result<usize, NewConn<K>> {
    let count = lanes.len() as u64;
    let mut held = arrival;
    for step in 0..count {
        let worker = (number.wrapping_add(step) % count) as usize;
        if let Some(lane) = lanes.get_mut(worker) {
            match lane.push(held) {
                Ok(()) => return Ok(worker),
                Err(PushError::Full(back)) => held = back,
            }
        }
    }
    Err(held)
}
