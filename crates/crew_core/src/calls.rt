//! The calls of one worker at the desk.
ghost use Rattle.std.specs.Prelude.{◌≡◌, ◌≤◌};
ghost use Rattle.conn_model.specs.declared.event.ConnId.{ConnId};
ghost use Rattle.conn_model.specs.HandedIn.{HasPieceInLimit};
ghost use Rattle.desk_core.specs.Driving.{driven_event};

use crate::leases::Leases;
use crate::meters::Meters;
use crate::recorder::Alert;
use addr_core::Pair;
use book_core::Receipt;
use conn_model::event::Why;
use conn_model::reply::{Reply, Said, StepFault};
use desk_core::{Drive, DriveResult, LeaseList, Opening, Pass, SharedDesk};
use link_core::{Clock, Gate};
use std::alloc::Global;
use std::sync::Wait;
use std::sync::ledger::Ledger;

/// What all workers share.
#[derive(Drop)]
pub(crate) struct WorkerContext<'a, M: Ledger, O: Ledger, B: Opening, G, C> {
    pub(crate) alloc: Global,
    pub(crate) desk: &'a SharedDesk<M, O, B>,
    pub(crate) gate: &'a G,
    pub(crate) clock: &'a C,
    pub(crate) alert: &'a Alert,
    pub(crate) meters: &'a Meters,
    /// How many turns a worker and the acceptor make at the most.
    pub(crate) turns: u64,
}

/// What came of a call.
#[derive(Drop)]
pub(crate) enum CallOutcome {
    /// The connection is open.
    Open(Said),
    /// The connection ended.
    Ended,
    /// Nothing happened.
    Failed(StepFault),
    /// The gate stopped the worker, and no call was made.
    Stopped,
}

/// The calls of one worker, and the leases that they gave.
pub(crate) struct Calls<M: Ledger, O: Ledger> {
    pub(crate) worker: u16,
    pub(crate) pass: Pass<M>,
    pub(crate) leases: Leases<O>,
    /// The number of the next call.
    nth: u64,
    /// How many replies were `Closed`.
    pub(crate) closed: u64,
    pub(crate) is_stopped: bool,
    pub ghost few: { closed ≤ pass.calls },
}

fn said(receipt: Receipt) -> Said {
    let Receipt { number: _, reply } = receipt;
    let Reply { said, tracks: _ } = reply;
    said
}

impl<M: Ledger, O: Ledger> Calls<M, O> {
    pub(crate) fn new(alloc: Global, worker: u16, pass: Pass<M>) -> Calls<M, O>
        ensures { result.pass ≡ pass }
    {
        Calls {
            worker,
            pass,
            leases: Leases::new(alloc),
            nth: 0,
            closed: 0,
            is_stopped: false,
        }
    }

    /// Its pass, the leases that were not spent, and how many replies were `Closed`.
    pub(crate) fn into_parts(self) -> (Pass<M>, LeaseList<O>, u64)
        ensures pass { result.0 ≡ self.pass }
        ensures closed { result.2 ≤ self.pass.calls }
    {
        let Calls {
            worker: _,
            pass,
            leases,
            nth: _,
            closed,
            is_stopped: _,
        } = self;
        (pass, leases.into_left(), closed)
    }

    fn enter(&mut self, gate: &impl Gate) -> bool {
        let may_call = gate.enter(self.worker, self.nth);
        if !may_call {
            self.is_stopped = true;
        }
        may_call
    }

    fn leave(&mut self, gate: &impl Gate) {
        gate.leave(self.worker, self.nth);
        self.nth = self.nth.saturating_add(1);
    }

    /// A connection came to a listener. Its lease is kept under the key, for which room is made first.
    pub(crate) fn accept<B: Opening, G: Gate, C: Clock, R: Wait>(
        &mut self,
        rt: &R,
        context: &WorkerContext<'_, M, O, B, G, C>,
        key: usize,
        listener: u16,
        real: &Pair,
    ) -> CallOutcome {
        if !self.enter(context.gate) {
            return CallOutcome::Stopped;
        }
        let outcome = self.ask_accept(rt, context, key, listener, real);
        self.leave(context.gate);
        outcome
    }

    fn ask_accept<B: Opening, G: Gate, C: Clock, R: Wait>(
        &mut self,
        rt: &R,
        context: &WorkerContext<'_, M, O, B, G, C>,
        key: usize,
        listener: u16,
        real: &Pair,
    ) -> CallOutcome {
        if !self.leases.make_room(key) {
            return CallOutcome::Failed(StepFault::NoMemory);
        }
        let moment = context.clock.now();
        match context
            .desk
            .accept(rt, &mut self.pass, moment, listener, real)
        {
            Ok((receipt, lease)) => {
                context.note(rt, receipt.number);
                match lease {
                    Some(lease) => {
                        self.leases.put(key, lease);
                        CallOutcome::Open(said(receipt))
                    }
                    None => CallOutcome::Ended,
                }
            }
            Err(fault) => CallOutcome::Failed(fault),
        }
    }

    /// Something is driven on the connection of a key.
    pub(crate) fn drive<B: Opening, G: Gate, C: Clock, R: Wait>(
        &mut self,
        rt: &R,
        context: &WorkerContext<'_, M, O, B, G, C>,
        key: usize,
        drive: &Drive<'_>,
    ) -> CallOutcome
        requires piece { (id : ConnId) → HasPieceInLimit (driven_event id drive.now) }
    {
        if !self.enter(context.gate) {
            return CallOutcome::Stopped;
        }
        let outcome = self.ask_drive(rt, context, key, drive);
        self.leave(context.gate);
        outcome
    }

    fn ask_drive<B: Opening, G: Gate, C: Clock, R: Wait>(
        &mut self,
        rt: &R,
        context: &WorkerContext<'_, M, O, B, G, C>,
        key: usize,
        drive: &Drive<'_>,
    ) -> CallOutcome
        requires piece { (id : ConnId) → HasPieceInLimit (driven_event id drive.now) }
    {
        let Some(lease) = self.leases.take(key) else {
            return CallOutcome::Ended;
        };
        let moment = context.clock.now();
        match context.desk.drive(rt, &mut self.pass, moment, lease, drive) {
            DriveResult::Goes(receipt, lease) => {
                context.note(rt, receipt.number);
                self.leases.put(key, lease);
                CallOutcome::Open(said(receipt))
            }
            DriveResult::Over(receipt) => {
                context.note(rt, receipt.number);
                if matches!(said(receipt), Said::Closed { .. }) {
                    self.closed += 1;
                }
                CallOutcome::Ended
            }
            DriveResult::Failed(fault, lease) => {
                self.leases.put(key, lease);
                CallOutcome::Failed(fault)
            }
        }
    }

    /// The connection of a key ended.
    pub(crate) fn close<B: Opening, G: Gate, C: Clock, R: Wait>(
        &mut self,
        rt: &R,
        context: &WorkerContext<'_, M, O, B, G, C>,
        key: usize,
        why: Why,
    ) -> CallOutcome {
        if !self.enter(context.gate) {
            return CallOutcome::Stopped;
        }
        let outcome = self.close_at_once(rt, context, key, why);
        self.leave(context.gate);
        outcome
    }

    /// The connection of a key ended, and the gate is not asked.
    pub(crate) fn close_at_once<B: Opening, G: Gate, C: Clock, R: Wait>(
        &mut self,
        rt: &R,
        context: &WorkerContext<'_, M, O, B, G, C>,
        key: usize,
        why: Why,
    ) -> CallOutcome {
        let Some(lease) = self.leases.take(key) else {
            return CallOutcome::Ended;
        };
        let moment = context.clock.now();
        match context.desk.close(rt, &mut self.pass, moment, lease, why) {
            Ok(receipt) => {
                context.note(rt, receipt.number);
                self.closed += 1;
                CallOutcome::Ended
            }
            Err((fault, lease)) => {
                self.leases.put(key, lease);
                CallOutcome::Failed(fault)
            }
        }
    }
}
