//! The crew: the workers, each in a thread of its own, and the acceptor in the caller's.
ghost use Rattle.std.specs.Prelude.{◌≡◌, ◌<◌, ◌≤◌, ◌+◌, ◌-◌, ◌^◌, false, [], Some, IfErr, IfOk, sum_by, vec_capacity, vec_len};
ghost use Rattle.std.specs.Thread.{IsSend};
ghost use Rattle.rtrb.specs.Ring.{received, sent, IsPair};
ghost use Rattle.proxy_types.specs.declared.limits.TheConstants.{MOST_WORKERS};
ghost use Rattle.book_core.specs.Book.{with_ring};
ghost use Rattle.conn_model.specs.Counts.{open_connections};
ghost use Rattle.desk_core.specs.declared.desk.TheConstants.{CALL_PARTS};
ghost use Rattle.desk_core.specs.Books.{IsOf};
ghost use Rattle.desk_core.specs.Calls.{calls_of};
ghost use Rattle.desk_core.specs.Leased.{leases_in};
ghost use Rattle.crew_core.specs.Crew.{IsIdle, IsUnbegun};
ghost use Rattle.crew_core.specs.Outlets.{HasHandedOn};

use crate::acceptor::{Acceptor, Came, LANE};
use crate::calls::WorkerContext;
use crate::meters::Meters;
use crate::outlet::{Outlet, Sink, empty};
use crate::recorder::Alert;
use crate::worker::{NewConn, REPORTS, Worker, WorkerState};
use book_core::Book;
use desk_core::{ClosedDesk, Desk, Lease, LeaseList, Opening, Pass};
use link_core::{Clock, Dial, Door, FLOW, Gate, Link, Spares};
use rtrb::{Producer, RingBuffer};
use std::alloc::{AllocError, Global};
use std::sync::Wait;
use std::sync::ledger::{Blank, Ledger};
use std::thread;
use std::thread::Threads;
use thiserror::Error;
use worker_conns::ConnTable;

/// Why a crew did nothing.
#[derive(Clone, Copy, Debug, PartialEq, Eq, Error)]
pub enum CrewFault {
    #[error("a thread cannot be started")]
    Spawn,
    #[error("no memory")]
    NoMemory,
}

/// How a crew works.
#[derive(Clone, Copy, Debug, PartialEq, Eq)]
pub struct Setup {
    /// How many workers there are, 1 to 64.
    pub workers: u16,
    /// How many turns each worker makes at the most, and the acceptor.
    pub turns: u64,
    /// Whether the passes keep the records of their calls.
    pub keeps: bool,
}

/// What a crew did.
#[derive(Clone, Copy, Debug, PartialEq, Eq)]
pub struct Summary {
    /// The connections that the door gave, and those that workers took from their dials.
    pub accepted: u64,
    /// Those of them that a worker took.
    pub taken: u64,
    /// The replies `Closed`.
    pub closed: u64,
    /// All replies.
    pub recorded: u64,
    /// The segments that the sink refused. They are lost to it.
    pub sink_failed: u64,
    /// Whether all workers began, and the recorder. If the system had no thread for one of them, the door was not asked.
    pub began: bool,
}

/// What is left of a crew.
pub struct Crew<M: Ledger, O: Ledger, B: Opening, L, S: Sink> {
    pub summary: Summary,
    pub shut: ClosedDesk<M, O, B>,
    /// That of the acceptor first, and then those of the workers.
    pub passes: Vec<Pass<M>>,
    /// For each worker, the last one first, the leases whose connections could not be closed because memory ran out.
    pub left: Vec<Vec<Lease<O>>>,
    pub dials: Vec<L>,
    pub outlet: Outlet<S>,
}

/// What takes memory before a crew begins.
struct Rooms<M: Ledger, O: Ledger, K: Link, L: Dial<Link = K>> {
    states: Vec<WorkerState<K>>,
    lanes: Vec<Producer<NewConn<K>>>,
    meters: Meters,
    passes: Vec<Pass<M>>,
    dials: Vec<L>,
    lists: Vec<LeaseList<O>>,
    left: Vec<Vec<Lease<O>>>,
    workers: Vec<Worker<M, O, K, L>>,
}

/// What one worker works with, and the lane that leads to it.
fn make_state<K: Link>(
    alloc: Global,
) -> Result<(WorkerState<K>, Producer<NewConn<K>>), AllocError> {
    let (lane, arrivals) = RingBuffer::new(alloc, LANE)?;
    let state = WorkerState {
        arrivals,
        table: ConnTable::new(alloc),
        buffer: Vec::from_elem(alloc, 0u8, FLOW)?,
        spares: Spares::new(alloc)?,
        ready: Vec::with_capacity(alloc, REPORTS)?,
    };
    Ok((state, lane))
}

/// Room for the leases of so many workers, as lists and without the rest of these.
fn make_lists<O: Ledger>(
    alloc: Global,
    workers: usize,
) -> Result<(Vec<LeaseList<O>>, Vec<Vec<Lease<O>>>), AllocError>
    ensures lists { IfOk result (λ r. (vec_len r.0 ≡ 0) × (workers ≤ vec_capacity r.0)) }
    ensures left { IfOk result (λ r. (vec_len r.1 ≡ 0) × (workers ≤ vec_capacity r.1)) }
{
    let lists = Vec::with_capacity(alloc, workers)?;
    match Vec::with_capacity(alloc, workers) {
        Ok(left) => Ok((lists, left)),
        Err(full) => {
            lists.destroy_empty();
            Err(full)
        }
    }
}

/// Makes all rooms for so many workers, and meters for so many frontends.
fn make_rooms<M: Ledger, O: Ledger, K: Link, L: Dial<Link = K> + Drop>(
    alloc: Global,
    workers: usize,
    frontends: usize,
) -> Result<Rooms<M, O, K, L>, AllocError>
    requires { workers ≤ MOST_WORKERS }
    ensures states { IfOk result (λ r. vec_len r.states ≡ workers) }
    ensures passes { IfOk result (λ r. (vec_len r.passes ≡ 0) × (workers + 1 ≤ vec_capacity r.passes)) }
    ensures dials { IfOk result (λ r. (vec_len r.dials ≡ 0) × (workers ≤ vec_capacity r.dials)) }
    ensures lists { IfOk result (λ r. (vec_len r.lists ≡ 0) × (workers ≤ vec_capacity r.lists)) }
    ensures left { IfOk result (λ r. (vec_len r.left ≡ 0) × (workers ≤ vec_capacity r.left)) }
    ensures workers { IfOk result (λ r. (vec_len r.workers ≡ 0) × (workers ≤ vec_capacity r.workers)) }
{
    let mut states = Vec::with_capacity(alloc, workers)?;
    let mut lanes = Vec::with_capacity(alloc, workers)?;
    for _worker in 0..workers {
        let (state, lane) = make_state(alloc)?;
        states.push(state)?;
        lanes.push(lane)?;
    }
    let meters = Meters::new(alloc, frontends)?;
    let passes = Vec::with_capacity(alloc, workers + 1)?;
    let dials = Vec::with_capacity(alloc, workers)?;
    let (lists, left) = make_lists(alloc, workers)?;
    match Vec::with_capacity(alloc, workers) {
        Ok(workers) => Ok(Rooms {
            states,
            lanes,
            meters,
            passes,
            dials,
            lists,
            left,
            workers,
        }),
        Err(full) => {
            lists.destroy_empty();
            left.destroy_empty();
            Err(full)
        }
    }
}

/// Whether so many threads can be started at one time. If the system refuses one later all the same, a worker or the
/// recorder does not begin, and the acceptor takes nothing.
fn can_spawn<R: Threads>(rt: &R, alloc: Global, workers: usize) -> Result<(), CrewFault> {
    let Ok(mut handles) = Vec::with_capacity(alloc, workers) else {
        return Err(CrewFault::NoMemory);
    };
    let mut fault = None;
    for _worker in 0..workers {
        match thread::spawn(rt, || ()) {
            Ok(handle) => {
                if handles.push(handle).is_err() {
                    fault = Some(CrewFault::NoMemory);
                }
            }
            Err(_refused) => fault = Some(CrewFault::Spawn),
        }
    }
    for handle in handles {
        handle.join(rt);
    }
    match fault {
        None => Ok(()),
        Some(fault) => Err(fault),
    }
}

/// Each worker in a thread of its own.
fn attend_each<
    M: Ledger + Send + Sync,
    O: Ledger + Send + Sync,
    B: Opening + Send + Sync,
    K: Link + Send,
    L: Dial<Link = K> + Send,
    G: Gate + Sync,
    C: Clock + Sync,
    R: Threads + Wait + Sync,
>(rt: &R, context: &WorkerContext<'_, M, O, B, G, C>, workers: &mut [Worker<M, O, K, L>]) {
    let threads = workers.len().max(1);
    thread::for_each_mut(rt, workers, threads, &|_, worker| worker.work(rt, context));
}

/// What works at the desk: the workers, and the acceptor.
#[derive(Drop)]
struct Team<'a, M: Ledger, O: Ledger, K: Link, L: Dial<Link = K>, D: Door<Link = K>> {
    workers: &'a mut [Worker<M, O, K, L>],
    acceptor: Acceptor<'a, M, K, D>,
}

/// How many clients the workers took from their dials.
fn taken_from_dials<M: Ledger, O: Ledger, K: Link, L: Dial<Link = K>>(
    workers: &[Worker<M, O, K, L>],
) -> u64 {
    let mut taken = 0u64;
    for worker in workers {
        taken = taken.saturating_add(worker.came);
    }
    taken
}

/// The workers, and the acceptor beside them in the caller's thread. When all of them have ended, so does the recorder. It
/// says what came of the acceptor's work, and to the dials of the workers.
fn work_beside<
    M: Ledger + Send + Sync,
    O: Ledger + Send + Sync,
    B: Opening + Send + Sync,
    K: Link + Send,
    L: Dial<Link = K> + Send,
    D: Door<Link = K>,
    G: Gate + Sync,
    C: Clock + Sync,
    R: Threads + Wait + Sync,
>(rt: &R, context: &WorkerContext<'_, M, O, B, G, C>, team: Team<'_, M, O, K, L, D>) -> Came
    ensures unbegun { result.began ≡ false → result.accepted ≡ 0 }
{
    let Team { workers, acceptor } = team;
    let (_all, came) = thread::join(
        rt,
        ||
            requires { IsSend M.row × IsSend O.row × IsSend B.row × IsSend K.row × IsSend L.row }
        { attend_each(rt, context, workers) },
        move || acceptor.accept_all(rt, context),
    );
    context.alert.end();
    came.with_taken(taken_from_dials(workers))
}

/// All threads: the team, and the recorder beside it. What the team says, and what is left of the outlet with how many
/// segments its sink refused.
fn work_and_record<
    M: Ledger + Send + Sync,
    O: Ledger + Send + Sync,
    B: Opening + Send + Sync,
    K: Link + Send,
    L: Dial<Link = K> + Send,
    D: Door<Link = K>,
    S: Sink + Send,
    G: Gate + Sync,
    C: Clock + Sync,
    R: Threads + Wait + Sync,
>(
    rt: &R,
    context: &WorkerContext<'_, M, O, B, G, C>,
    team: Team<'_, M, O, K, L, D>,
    outlet: Outlet<S>,
) -> (Came, (Outlet<S>, u64))
    ensures handed { HasHandedOn S.takes S.refuses 0 outlet result.1.1 result.1.0 }
    ensures unbegun { result.0.began ≡ false → result.0.accepted ≡ 0 }
{
    let (handed, came) = thread::join(
        rt,
        move || context.hand_on(rt, outlet),
        move ||
            requires { IsSend M.row × IsSend O.row × IsSend B.row × IsSend K.row × IsSend L.row }
        { work_beside(rt, context, team) },
    );
    (came, handed)
}

/// A crew that did nothing.
fn idle<M: Ledger, O: Ledger, B: Opening, L, S: Sink>(
    alloc: Global,
    desk: Desk<M, O, B>,
    dials: Vec<L>,
    outlet: Outlet<S>,
) -> Crew<M, O, B, L, S>
    requires { (desk.given ≡ 0) × (M.parts ≡ CALL_PARTS) }
    ensures idle { IsIdle result.summary }
    ensures nothing { (result.passes.items ≡ []) × (result.left.items ≡ []) × (result.shut.book.made ≡ 0) }
    ensures opened { IsOf B.opening result.shut.book }
    ensures dials { result.dials ≡ dials }
    ensures outlet { result.outlet ≡ outlet }
{
    let mut shut = desk.into_book();
    let mut passes = Vec::new(alloc);
    let recorded = shut.count_calls(&mut passes);
    Crew {
        summary: Summary {
            accepted: 0,
            taken: 0,
            closed: 0,
            recorded,
            sink_failed: 0,
            began: false,
        },
        shut,
        passes,
        left: Vec::new(alloc),
        dials,
        outlet,
    }
}

/// Gives each dial its worker. The last worker is the first of the list.
fn make_workers<M: Ledger, O: Ledger, B: Opening, K: Link, L: Dial<Link = K> + Drop>(
    alloc: Global,
    desk: &mut Desk<M, O, B>,
    keeps: bool,
    states: Vec<WorkerState<K>>,
    dials: Vec<L>,
    workers: &mut Vec<Worker<M, O, K, L>>,
)
    requires empty { vec_len workers.old ≡ 0 }
    requires room { vec_len dials ≤ vec_capacity workers.old }
    requires few { vec_len dials ≤ MOST_WORKERS }
    requires states { vec_len states ≡ vec_len dials }
    requires given { desk.old.given ≡ 1 }
    ensures given { desk.new.given ≡ vec_len workers.new + 1 }
    ensures len { vec_len workers.new ≡ vec_len dials }
{
    let (mut states, mut dials) = (states, dials);
    while let (Some(dial), Some(state)) = (dials.pop(), states.pop()) {
        let number = dials.len() as u16;
        let pass = desk.pass(keeps);
        workers.push_reserved(Worker::new(alloc, number, pass, state, dial));
    }
}

/// Takes the workers apart, and says how many replies were `Closed` and how many connections no worker took.
fn take_apart<M: Ledger, O: Ledger, K: Link, L: Dial<Link = K>>(
    workers: Vec<Worker<M, O, K, L>>,
    passes: &mut Vec<Pass<M>>,
    lists: &mut Vec<LeaseList<O>>,
    dials: &mut Vec<L>,
) -> (u64, u64)
    requires passes { vec_len passes.old + vec_len workers ≤ vec_capacity passes.old }
    requires lists { vec_len lists.old + vec_len workers ≤ vec_capacity lists.old }
    requires dials { vec_len dials.old + vec_len workers ≤ vec_capacity dials.old }
    ensures passes { vec_len passes.new ≡ vec_len passes.old + vec_len workers }
    ensures lists { vec_len lists.new ≡ vec_len lists.old + vec_len workers }
    ensures closed { calls_of passes.old.items + result.0 ≤ calls_of passes.new.items }
{
    let mut workers = workers;
    let mut closed = 0u64;
    let mut waiting = 0u64;
    while let Some(worker) = workers.pop() {
        let Worker {
            calls,
            state,
            dial,
            came: _,
        } = worker;
        let WorkerState { mut arrivals, .. } = state;
        let (pass, leases, replies) = calls.into_parts();
        closed = closed.saturating_add(replies);
        waiting = waiting.saturating_add(arrivals.slots() as u64);
        passes.push_reserved(pass);
        lists.push_reserved(leases);
        dials.push_reserved(dial);
    }
    workers.destroy_empty();
    (closed, waiting)
}

/// The leases of each list without the rest of it, those of the last list first.
fn leases_alone<O: Ledger>(lists: Vec<LeaseList<O>>, left: Vec<Vec<Lease<O>>>) -> Vec<Vec<Lease<O>>>
    requires empty { vec_len left ≡ 0 }
    requires room { vec_len lists ≤ vec_capacity left }
    ensures { sum_by (λ leases. vec_len leases) result.items ≡ leases_in lists.items }
{
    let (mut lists, mut left) = (lists, left);
    while let Some(list) = lists.pop() {
        left.push_reserved(list.into_leases());
    }
    lists.destroy_empty();
    left
}

/// Hands back the leases that were not spent, of which each is an open connection's.
fn hand_back<M: Ledger, O: Ledger, B: Opening>(
    shut: &mut ClosedDesk<M, O, B>,
    lists: Vec<LeaseList<O>>,
    left: Vec<Vec<Lease<O>>>,
) -> Vec<Vec<Lease<O>>>
    requires empty { vec_len left ≡ 0 }
    requires room { vec_len lists ≤ vec_capacity left }
    ensures open { sum_by (λ leases. vec_len leases) result.items ≤ open_connections shut.new.book.state }
    ensures same { (shut.new.book ≡ shut.old.book) × (shut.new.given ≡ shut.old.given) }
{
    let mut lists = lists;
    let _open = shut.count_open(&mut lists);
    leases_alone(lists, left)
}

/// How many of the connections that came a worker took: all but those that wait for one.
fn taken(accepted: u64, waiting: u64) -> u64
    ensures { result ≤ accepted }
{
    accepted.saturating_sub(waiting)
}

/// Runs a crew over a book with no record and no open connection, until the door is closed, the gate stops all workers, or
/// the turns are used up; then what is open is closed. Each worker has one of the dials. The outlet has the reading end of
/// the book's ring: while the crew works one more thread hands the book's segments to the sink. Of the blanks one becomes
/// the ledger of calls, the other that of leases. After a fault nothing was done.
pub fn run_crew<
    R: Threads + Wait + Sync,
    M: Ledger + Send + Sync,
    O: Ledger + Send + Sync,
    B: Opening + Send + Sync,
    K: Link + Send,
    L: Dial<Link = K> + Send + Drop,
    D: Door<Link = K>,
    G: Gate + Sync,
    C: Clock + Sync,
    S: Sink + Send,
>(
    rt: &R,
    alloc: Global,
    book: Book,
    made: Blank,
    leases: Blank,
    door: &mut D,
    dials: Vec<L>,
    outlet: Outlet<S>,
    gate: &G,
    clock: &C,
    setup: Setup,
) -> Result<Crew<M, O, B, L, S>, (CrewFault, Crew<M, O, B, L, S>)>
    requires opened { B.opening ≡ Some book }
    requires ring { IsPair book.segments outlet.segments }
    requires fresh { (book.made ≡ 0) × (open_connections book.state ≡ 0) × (open_connections book.base ≡ 0) }
    requires made_name { made.name ≡ M.name }
    requires made_parts { (made.parts ≡ M.parts) × (made.parts ≡ CALL_PARTS) }
    requires leases_name { leases.name ≡ O.name }
    requires leases_parts { (leases.parts ≡ O.parts) × (leases.parts ≡ 2 ^ 64 - 1) }
    requires workers { (vec_len dials ≡ setup.workers) × (1 ≤ setup.workers) × (setup.workers ≤ MOST_WORKERS) }
    // The replies are those of its passes, which are all that were given, and each is a record of the book.
    ensures passes { IfOk result (λ crew. vec_len crew.passes ≡ crew.shut.given) }
    ensures recorded { IfOk result (λ crew. (crew.summary.recorded ≡ calls_of crew.passes.items) × (crew.summary.recorded ≡ crew.shut.book.made)) }
    ensures closed { IfOk result (λ crew. crew.summary.closed ≤ crew.summary.recorded) }
    ensures taken { IfOk result (λ crew. crew.summary.taken ≤ crew.summary.accepted) }
    // If not all threads began, nothing was accepted.
    ensures unbegun { IfOk result (λ crew. IsUnbegun crew.summary) }
    // The book is over the base of the one that went in.
    ensures base { IfOk result (λ crew. crew.shut.book.base ≡ book.base) }
    // Each segment that was cut came out of the ring and went to the sink, in their order, and those that it refused are
    // counted. What was not cut is the journal of the book.
    ensures sent { IfOk result (λ crew. received crew.outlet.segments ≡ sent crew.shut.book.segments) }
    ensures handed { IfOk result (λ crew. HasHandedOn S.takes S.refuses 0 outlet crew.summary.sink_failed crew.outlet) }
    // No more leases are left than connections are open.
    ensures left { IfOk result (λ crew. sum_by (λ leases. vec_len leases) crew.left.items ≤ open_connections crew.shut.book.state) }
    // After a fault nothing was done.
    ensures idle { IfErr result (λ fault. IsIdle fault.1.summary) }
    ensures nothing { IfErr result (λ fault. (fault.1.passes.items ≡ []) × (fault.1.left.items ≡ []) × (fault.1.shut.book.made ≡ 0)) }
    ensures base_kept { IfErr result (λ fault. fault.1.shut.book.base ≡ book.base) }
    ensures dials { IfErr result (λ fault. fault.1.dials ≡ dials) }
    ensures outlet { IfErr result (λ fault. fault.1.outlet ≡ outlet) }
{
    let frontends = book.base().frontends.len();
    let mut desk = Desk::<M, O, B>::new(alloc, book, made, leases);
    if let Err(fault) = can_spawn(rt, alloc, dials.len() + 1) {
        return Err((fault, idle(alloc, desk, dials, outlet)));
    }
    let Ok(rooms) = make_rooms::<M, O, K, L>(alloc, dials.len(), frontends) else {
        return Err((CrewFault::NoMemory, idle(alloc, desk, dials, outlet)));
    };
    let Rooms {
        states,
        lanes,
        meters,
        mut passes,
        dials: mut dials_back,
        mut lists,
        left,
        mut workers,
    } = rooms;
    let mut pass = desk.pass(setup.keeps);
    make_workers(alloc, &mut desk, setup.keeps, states, dials, &mut workers);
    let alert = Alert::new();
    let context = WorkerContext {
        alloc,
        desk: desk.shared(),
        gate,
        clock,
        alert: &alert,
        meters: &meters,
        turns: setup.turns,
    };
    let acceptor = Acceptor {
        door,
        lanes,
        pass: &mut pass,
    };
    let team = Team {
        workers: workers.as_mut_slice(),
        acceptor,
    };
    let (came, handed) = work_and_record(rt, &context, team, outlet);
    let (mut outlet, refused) = handed;
    passes.push_reserved(pass);
    let (closed, waiting) = take_apart(workers, &mut passes, &mut lists, &mut dials_back);
    let mut shut = desk.into_book();
    let recorded = shut.count_calls(&mut passes);
    let left = hand_back(&mut shut, lists, left);
    let sink_failed = empty(&mut shut, &mut outlet, refused);
    Ok(Crew {
        summary: Summary {
            accepted: came.accepted,
            taken: taken(came.accepted, waiting.saturating_add(came.held)),
            closed,
            recorded,
            sink_failed,
            began: came.began,
        },
        shut,
        passes,
        left,
        dials: dials_back,
        outlet,
    })
}
