//! What a worker does with one of its connections.
ghost use Rattle.std.specs.Prelude.{◌≡◌, ◌≤◌, length, take, drop, IfOk};
ghost use Rattle.crew_core.specs.Pieces.{IsPiece, IsShort};

use crate::calls::{CallOutcome, WorkerContext};
use crate::worker::{BETWEEN_CLIENTS, SERVED, Worker, WorkerState};
use addr_core::Endpoint;
use conn_model::event::Why;
use conn_model::reply::{Said, StepFault};
use desk_core::{Drive, Opening};
use device_core::{Failed, Got, PIECE_BYTES};
use link_core::{Clock, Dial, Dialled, Gate, Link, Progress};
use std::sync::Wait;
use std::sync::ledger::Ledger;
use worker_conns::{ConnStage, DueAction};

/// How many pieces of a header are read before other connections have their turn. The longest header, of 65,551 bytes
/// (proxy-protocol.txt, section 2.2), takes five: so one that came whole is read whole in one turn.
const PIECES: u32 = 5;

/// What a read of a waiting connection gave.
#[derive(Clone, Copy, Debug, PartialEq, Eq)]
enum Piece {
    /// So many bytes in the buffer.
    Bytes(usize),
    /// Nothing at this moment.
    Blocked,
    /// The end, or a fault.
    Over,
}

/// The bytes from the one place to the other.
fn part(bytes: &[u8], from: usize, until: usize) -> &[u8]
    ensures bytes { until ≤ length bytes.now → result.now ≡ drop from (take until bytes.now) }
    ensures short { length result.now ≤ until }
{
    bytes.get(from..until).unwrap_or(&[])
}

/// Reads one piece into the front of the buffer.
fn read_piece<K: Link>(link: &mut K, buffer: &mut [u8]) -> Result<Got, Failed>
    ensures { IfOk result IsPiece }
{
    if buffer.len() < PIECE_BYTES {
        return Err(Failed);
    }
    link.read(&mut buffer[..PIECE_BYTES])
}

impl<M: Ledger, O: Ledger, K: Link, L: Dial<Link = K>> Worker<M, O, K, L> {
    /// The connections of the queue have their turns: `SERVED` of them at the most. Clients are taken in between, so that they
    /// do not wait for all of them.
    pub(crate) fn serve_queue<B: Opening, G: Gate, C: Clock, R: Wait>(
        &mut self,
        rt: &R,
        context: &WorkerContext<'_, M, O, B, G, C>,
    ) {
        for turn in 0..self.state.table.queued().min(SERVED) {
            if turn % BETWEEN_CLIENTS == BETWEEN_CLIENTS - 1 {
                self.take_clients(rt, context);
            }
            if self.calls.is_stopped {
                return;
            }
            if let Some(queued) = self.state.table.dequeue() {
                self.serve(rt, context, queued.key);
            }
        }
    }

    /// A connection has its turn.
    fn serve<B: Opening, G: Gate, C: Clock, R: Wait>(
        &mut self,
        rt: &R,
        context: &WorkerContext<'_, M, O, B, G, C>,
        key: usize,
    ) {
        if let Some(why) = self.state.table.ended(key) {
            return self.close(rt, context, key, why);
        }
        let Some(conn) = self.state.table.conn(key) else {
            return;
        };
        match conn.stage {
            ConnStage::Header => self.receive(rt, context, key),
            ConnStage::Server(_) | ConnStage::Retry(_) if conn.client_flags.is_reset => {
                self.close(rt, context, key, Why::Fault);
            }
            ConnStage::Server(to) => self.dial_server(rt, context, key, &to),
            ConnStage::Retry(_) => self.end_if_left(rt, context, key),
            ConnStage::Bytes => self.relay(rt, context, key),
        }
    }

    /// Reads once from a connection that waits for its header.
    fn read(&mut self, key: usize) -> Piece
        ensures { IsShort result }
    {
        let Some(conn) = self.state.table.conn(key) else {
            return Piece::Blocked;
        };
        if !conn.client_flags.reads {
            return Piece::Blocked;
        }
        match read_piece(&mut conn.client, self.state.buffer.as_mut_slice()) {
            Ok(Got::Bytes(count)) => {
                conn.client_flags.note_read(count, PIECE_BYTES);
                Piece::Bytes(count)
            }
            Ok(Got::Blocked) => {
                conn.client_flags.reads = false;
                Piece::Blocked
            }
            Ok(Got::End) | Err(_) => Piece::Over,
        }
    }

    /// Hands the bytes that came to the desk, until the header is whole.
    fn receive<B: Opening, G: Gate, C: Clock, R: Wait>(
        &mut self,
        rt: &R,
        context: &WorkerContext<'_, M, O, B, G, C>,
        key: usize,
    ) {
        for _piece in 0..PIECES {
            let count = match self.read(key) {
                Piece::Bytes(count) => count,
                Piece::Blocked => return,
                Piece::Over => return self.close(rt, context, key, Why::Fault),
            };
            let bytes = part(self.state.buffer.as_slice(), 0, count);
            match self.calls.drive(rt, context, key, &Drive::Piece(bytes)) {
                CallOutcome::Open(Said::Wait { .. }) => {}
                CallOutcome::Open(Said::Offer { used, to, send, .. }) => {
                    let rest = (used as usize, count);
                    return self.offer(rt, context, key, to, send.as_slice(), rest);
                }
                CallOutcome::Open(_) | CallOutcome::Stopped => return,
                CallOutcome::Ended => return self.forget(key),
                CallOutcome::Failed(_) => return self.close(rt, context, key, Why::Failed),
            }
        }
        self.state.table.enqueue(key);
    }

    /// A connection was offered a server. What is in the buffer from the one place to the other follows its header.
    pub(crate) fn offer<B: Opening, G: Gate, C: Clock, R: Wait>(
        &mut self,
        rt: &R,
        context: &WorkerContext<'_, M, O, B, G, C>,
        key: usize,
        to: Endpoint,
        send: &[u8],
        rest: (usize, usize),
    ) {
        let (from, until) = rest;
        let settings = self.calls.leases.settings(key);
        let WorkerState {
            table,
            buffer,
            spares,
            ..
        } = &mut self.state;
        let Some(conn) = table.conn(key) else {
            return;
        };
        let rest = part(buffer.as_slice(), from, until);
        match conn.offer(spares, to, send, rest) {
            Ok(()) => {
                if let Some(settings) = settings {
                    conn.set_settings(settings);
                }
                self.begin_dial(rt, context, key, &to);
            }
            Err(_) => self.close(rt, context, key, Why::Fault),
        }
    }

    /// Dials the server of a connection. The time of the dial begins after that, however long the call took.
    fn begin_dial<B: Opening, G: Gate, C: Clock, R: Wait>(
        &mut self,
        rt: &R,
        context: &WorkerContext<'_, M, O, B, G, C>,
        key: usize,
        to: &Endpoint,
    ) {
        self.dial_server(rt, context, key, to);
        if let Some(conn) = self.state.table.conn(key) {
            conn.begin_dial(context.clock.now());
        }
    }

    /// Asks for the link to the server of a connection.
    fn dial_server<B: Opening, G: Gate, C: Clock, R: Wait>(
        &mut self,
        rt: &R,
        context: &WorkerContext<'_, M, O, B, G, C>,
        key: usize,
        to: &Endpoint,
    ) {
        match self.dial.poll(key, to) {
            Dialled::Later => self.end_if_left(rt, context, key),
            Dialled::Link(server) => self.connect(rt, context, key, server),
            Dialled::Failed => self.try_again(rt, context, key),
        }
    }

    /// There is a link to the server of a connection.
    fn connect<B: Opening, G: Gate, C: Clock, R: Wait>(
        &mut self,
        rt: &R,
        context: &WorkerContext<'_, M, O, B, G, C>,
        key: usize,
        server: K,
    ) {
        match self.calls.drive(rt, context, key, &Drive::Connected) {
            CallOutcome::Open(_) => {
                if let Some(conn) = self.state.table.conn(key) {
                    conn.connect(server, context.clock.now());
                    self.state.table.enqueue(key);
                }
            }
            CallOutcome::Stopped => {}
            CallOutcome::Ended => self.forget(key),
            CallOutcome::Failed(_) => self.close(rt, context, key, Why::Failed),
        }
    }

    /// Ends a connection whose client has left while its server does not answer.
    fn end_if_left<B: Opening, G: Gate, C: Clock, R: Wait>(
        &mut self,
        rt: &R,
        context: &WorkerContext<'_, M, O, B, G, C>,
        key: usize,
    ) {
        let has_left = match self.state.table.conn(key) {
            Some(conn) => conn.has_left(),
            None => false,
        };
        if has_left {
            self.close(rt, context, key, Why::Fault);
        }
    }

    /// The server of a connection did not accept it. It is dialled again later, or another one is asked for, unless that was
    /// the last time.
    fn try_again<B: Opening, G: Gate, C: Clock, R: Wait>(
        &mut self,
        rt: &R,
        context: &WorkerContext<'_, M, O, B, G, C>,
        key: usize,
    ) {
        context.meters.note_failed_dial();
        let has_pause = match self.state.table.conn(key) {
            Some(conn) => conn.begin_pause(context.clock.now()),
            None => false,
        };
        if has_pause {
            self.dial.forget(key);
            return self.end_if_left(rt, context, key);
        }
        match self.calls.drive(rt, context, key, &Drive::ConnectFailed) {
            CallOutcome::Open(Said::Offer { to, send, .. }) => {
                self.offer_again(rt, context, key, to, send.as_slice());
            }
            CallOutcome::Open(_) | CallOutcome::Stopped => {}
            CallOutcome::Ended => self.forget(key),
            CallOutcome::Failed(_) => self.close(rt, context, key, Why::Failed),
        }
    }

    /// A connection was offered another server, which is dialled at the next turn.
    fn offer_again<B: Opening, G: Gate, C: Clock, R: Wait>(
        &mut self,
        rt: &R,
        context: &WorkerContext<'_, M, O, B, G, C>,
        key: usize,
        to: Endpoint,
        send: &[u8],
    ) {
        self.dial.forget(key);
        let has_room = match self.state.table.conn(key) {
            Some(conn) => {
                let has_room = conn.offer_again(to, send);
                conn.begin_dial(context.clock.now());
                has_room
            }
            None => return,
        };
        if has_room {
            self.state.table.enqueue(key);
        } else {
            self.close(rt, context, key, Why::Fault);
        }
    }

    /// The pause of a connection is over.
    fn dial_again<B: Opening, G: Gate, C: Clock, R: Wait>(
        &mut self,
        rt: &R,
        context: &WorkerContext<'_, M, O, B, G, C>,
        key: usize,
        to: &Endpoint,
    ) {
        context.meters.note_retry();
        if let Some(conn) = self.state.table.conn(key) {
            conn.end_pause(*to);
        }
        self.begin_dial(rt, context, key, to);
    }

    /// What is due of a connection at a moment.
    fn due(&mut self, key: usize, now: u64) -> Option<DueAction> {
        self.state.table.conn(key)?.due(now)
    }

    /// Does what is due of the connections that are looked at in a turn, which began at that moment.
    pub(crate) fn do_due<B: Opening, G: Gate, C: Clock, R: Wait>(
        &mut self,
        rt: &R,
        context: &WorkerContext<'_, M, O, B, G, C>,
        now: u64,
    ) {
        let places = self.calls.leases.len();
        for _look in 0..self.state.table.looks(now, places) {
            if self.calls.is_stopped {
                return;
            }
            let key = self.state.table.next_place(places);
            if self.state.table.is_to_look(key, now) {
                self.look(rt, context, key, now);
            }
            self.state.table.end_look(key);
        }
    }

    /// Does what is due of a connection.
    fn look<B: Opening, G: Gate, C: Clock, R: Wait>(
        &mut self,
        rt: &R,
        context: &WorkerContext<'_, M, O, B, G, C>,
        key: usize,
        now: u64,
    ) {
        match self.due(key, now) {
            None => self.state.table.look_later(key, now),
            Some(DueAction::DialTimeout(to)) => self.end_dial(rt, context, key, &to, now),
            Some(DueAction::Retry(to)) => self.dial_again(rt, context, key, &to),
            Some(DueAction::End(_)) => self.end_silent(rt, context, key, now),
        }
    }

    /// Gives up a dial that had taken too long by that moment. All threads may have been stopped since the dial was last
    /// asked, so it is asked once more.
    fn end_dial<B: Opening, G: Gate, C: Clock, R: Wait>(
        &mut self,
        rt: &R,
        context: &WorkerContext<'_, M, O, B, G, C>,
        key: usize,
        to: &Endpoint,
        now: u64,
    ) {
        self.dial_server(rt, context, key, to);
        if let Some(DueAction::DialTimeout(_)) = self.due(key, now) {
            self.try_again(rt, context, key);
        }
    }

    /// Ends a connection of which a side had been silent for too long by that moment. For the same reason its links are
    /// read and written once more. What comes of that later than that moment counts too.
    fn end_silent<B: Opening, G: Gate, C: Clock, R: Wait>(
        &mut self,
        rt: &R,
        context: &WorkerContext<'_, M, O, B, G, C>,
        key: usize,
        now: u64,
    ) {
        if let Some(conn) = self.state.table.conn(key) {
            conn.expect_bytes();
        }
        self.relay(rt, context, key);
        if let Some(DueAction::End(why)) = self.due(key, now) {
            self.close(rt, context, key, why);
        }
    }

    /// Passes bytes on.
    fn relay<B: Opening, G: Gate, C: Clock, R: Wait>(
        &mut self,
        rt: &R,
        context: &WorkerContext<'_, M, O, B, G, C>,
        key: usize,
    ) {
        let WorkerState {
            table,
            buffer,
            spares,
            ..
        } = &mut self.state;
        let Some(conn) = table.conn(key) else {
            return;
        };
        let progress = conn.relay(spares, buffer.as_mut_slice());
        conn.note_activity(context.clock.now());
        context.meters.note_sent(conn.take_sent());
        match progress {
            None => self.close(rt, context, key, Why::Done),
            Some(Progress::Fault) => self.close(rt, context, key, Why::Fault),
            Some(Progress::More) => self.state.table.enqueue(key),
            // One side is gone while the other takes nothing: no read would ever find that out.
            Some(Progress::Idle) if conn.is_reset() => self.close(rt, context, key, Why::Fault),
            Some(Progress::Idle) => {}
        }
    }

    /// Connections that had waited for their header for too long by that moment: as many of them as are served in one turn.
    pub(crate) fn expire<B: Opening, G: Gate, C: Clock, R: Wait>(
        &mut self,
        rt: &R,
        context: &WorkerContext<'_, M, O, B, G, C>,
        now: u64,
    ) {
        for _wait in 0..self.state.table.waiting().min(SERVED) {
            if self.calls.is_stopped {
                return;
            }
            let Some(wait) = self.state.table.due(now) else {
                return;
            };
            if self.state.table.waits_for_header(&wait) {
                self.receive_late(rt, context, wait.key);
            }
            if !self.state.table.waits_for_header(&wait) {
                continue;
            }
            match self.calls.drive(rt, context, wait.key, &Drive::Expire) {
                CallOutcome::Open(_) | CallOutcome::Stopped => {}
                CallOutcome::Ended => self.forget(wait.key),
                CallOutcome::Failed(StepFault::NotDue) => self.state.table.wait_again(&wait, now),
                CallOutcome::Failed(_) => self.close(rt, context, wait.key, Why::Failed),
            }
        }
    }

    /// Reads what has come of a header that is due. All threads may have been stopped since the dial was last asked, so the
    /// link is read whether it was reported or not.
    fn receive_late<B: Opening, G: Gate, C: Clock, R: Wait>(
        &mut self,
        rt: &R,
        context: &WorkerContext<'_, M, O, B, G, C>,
        key: usize,
    ) {
        if let Some(conn) = self.state.table.conn(key) {
            conn.client_flags.reads = true;
        }
        self.receive(rt, context, key);
    }

    /// A connection that was reported to have ended is not kept any longer.
    fn forget(&mut self, key: usize) {
        self.dial.forget(key);
        self.state.table.remove(key);
    }

    /// Ends a connection. If there is no memory to record that, it is tried again in a later turn.
    pub(crate) fn close<B: Opening, G: Gate, C: Clock, R: Wait>(
        &mut self,
        rt: &R,
        context: &WorkerContext<'_, M, O, B, G, C>,
        key: usize,
        why: Why,
    ) {
        match self.calls.close(rt, context, key, why) {
            CallOutcome::Open(_) | CallOutcome::Ended => self.forget(key),
            CallOutcome::Stopped => {}
            CallOutcome::Failed(_) => {
                self.dial.forget(key);
                self.state.table.end(key, why);
            }
        }
    }

    /// Closes what is open, and the gate is not asked. A lease whose close is refused is left.
    pub(crate) fn stop<B: Opening, G: Gate, C: Clock, R: Wait>(
        &mut self,
        rt: &R,
        context: &WorkerContext<'_, M, O, B, G, C>,
    ) {
        for key in 0..self.calls.leases.len() {
            let why = self.state.table.ended(key).unwrap_or(Why::Stopped);
            let _ = self.calls.close_at_once(rt, context, key, why);
            self.dial.forget(key);
        }
        self.state.table.clear();
    }
}
