//! The engine of `serve`: a crew, from the configuration's text to the record.
ghost use Rattle.std.specs.Prelude.{◌≡◌, ◌⊎◌, ◌≤◌, ◌-◌, ◌^◌, [], Err, IfOk, IfErr, OnErr, OnOk, Some, vec_capacity, vec_len};
ghost use Rattle.rtrb.specs.Ring.{received, IsPair};
ghost use Rattle.proxy_types.specs.declared.limits.TheConstants.{MOST_WORKERS};
ghost use Rattle.conn_core.specs.Meaning.{meaning};
ghost use Rattle.conn_core.specs.Machine.{IsOpened};
ghost use Rattle.book_core.specs.Book.{new_book};
ghost use Rattle.conn_model.specs.Counts.{open_connections};
ghost use Rattle.audit_core.specs.declared.recording.TheConstants.{RECORD_BUFFER};
ghost use Rattle.crew_core.specs.Crew.{IsUnbegun};
ghost use Rattle.crew_core.specs.Writers.{RecordsAll, RecordsFront};

use crate::crew::{Crew, CrewFault, Setup, Summary, run_crew};
use crate::outlet::{Outlet, RING, Sink};
use crate::record_sink::RecordSink;
use audit_core::{RECORD_BUFFER, RecordFault};
use book_core::Book;
use book_core::laws::open_connections_change;
use conn_core::{Core, OpenFault};
use desk_core::{CALL_PARTS, Opening, SettleFault, Settled, settle};
use device_core::Output;
use link_core::{Clock, Dial, Door, Gate, Link};
use record_core::Segment;
use rtrb::{Consumer, RingBuffer};
use std::alloc::Global;
use std::marker::Brand;
use std::sync::Wait;
use std::sync::ledger::{Blank, Ledger};
use std::thread::Threads;

/// What was served.
#[derive(Drop)]
pub struct Served<W> {
    pub summary: Summary,
    /// Whether the record was written.
    pub written: Result<(), RecordFault>,
    /// Whether what each thread did adds up to the record.
    pub settled: Result<Settled, SettleFault>,
    pub writer: W,
}

/// A gate that lets every call of every worker pass.
#[derive(Clone, Copy, Debug)]
struct NoGate;

impl Gate for NoGate {
    fn enter(&self, _worker: u16, _nth: u64) -> bool {
        true
    }

    fn leave(&self, _worker: u16, _nth: u64) {}
}

/// A book with no record, over the configuration of that text, and the reading end of the ring for its segments.
pub fn open_book(alloc: Global, text: &str) -> Result<(Book, Consumer<Segment>), OpenFault>
    ensures made { IfOk result (λ opened. opened.0.made ≡ 0) }
    ensures state { IfOk result (λ opened. open_connections opened.0.state ≡ 0) }
    ensures base { IfOk result (λ opened. open_connections opened.0.base ≡ 0) }
    ensures opened { IfOk result (λ opened. IsOpened text.now 0 opened.0.base × (opened.0 ≡ new_book opened.0.base opened.0.segments)) }
    ensures ring { IfOk result (λ opened. IsPair opened.0.segments opened.1 × (received opened.1 ≡ [])) }
    ensures fault { IfErr result (λ f. (f ≡ OpenFault.NoMemory) ⊎ (meaning text.now ≡ Err f)) }
{
    open_connections_change();
    let core = Core::open(alloc, text)?;
    let Ok((producer, consumer)) = RingBuffer::new(alloc, RING) else {
        core.end();
        return Err(OpenFault::NoMemory);
    };
    match Book::open(alloc, core, producer) {
        Ok(book) => Ok((book, consumer)),
        Err(failed) => {
            let (core, _producer) = failed.value;
            core.end();
            Err(OpenFault::NoMemory)
        }
    }
}

/// Ends what is left of a crew that did nothing.
fn settle_idle<M: Ledger, O: Ledger, B: Opening, L: Drop, S: Sink>(crew: Crew<M, O, B, L, S>)
    requires { M.parts ≡ CALL_PARTS }
{
    let Crew {
        summary: _,
        shut,
        passes,
        left,
        dials: _dials,
        outlet: _outlet,
    } = crew;
    let _settled = settle(shut, passes, left, &[]);
}

/// Runs the crew. When it ended, the rest of the record is written, and its accounts are settled.
fn run<
    M: Ledger + Send + Sync,
    O: Ledger + Send + Sync,
    B: Opening + Send + Sync,
    R: Threads + Wait + Sync,
    K: Link + Send,
    L: Dial<Link = K> + Send + Drop,
    D: Door<Link = K>,
    C: Clock + Sync,
    W: Output + Send + Drop,
>(
    rt: &R,
    alloc: Global,
    book: Book,
    made: Blank,
    leases: Blank,
    segments: Consumer<Segment>,
    door: &mut D,
    dials: Vec<L>,
    clock: &C,
    workers: u16,
    buffer: Vec<u8>,
    writer: W,
) -> Result<Served<W>, CrewFault>
    requires fresh { (book.made ≡ 0) × (open_connections book.state ≡ 0) × (open_connections book.base ≡ 0) }
    requires ring { IsPair book.segments segments × (received segments ≡ []) }
    requires made_name { made.name ≡ M.name }
    requires made_parts { (made.parts ≡ M.parts) × (made.parts ≡ CALL_PARTS) }
    requires leases_name { leases.name ≡ O.name }
    requires leases_parts { (leases.parts ≡ O.parts) × (leases.parts ≡ 2 ^ 64 - 1) }
    requires opened { B.opening ≡ Some book }
    requires room { RECORD_BUFFER ≤ vec_capacity buffer }
    requires workers { (vec_len dials ≡ workers) × (1 ≤ workers) × (workers ≤ MOST_WORKERS) }
    ensures record { IfOk result (λ served. OnOk served.written (RecordsAll book.base served.summary.recorded (W.held writer) (W.held served.writer))) }
    ensures front { IfOk result (λ served. OnErr served.written (RecordsFront book.base served.summary.recorded (W.held writer) (W.held served.writer))) }
    ensures settled { IfOk result (λ served.
        IfOk served.settled (λ settled. settled.made ≡ served.summary.recorded)) }
    ensures unbegun { IfOk result (λ served. IsUnbegun served.summary) }
{
    let setup = Setup {
        workers,
        turns: u64::MAX,
        keeps: false,
    };
    let outlet = Outlet {
        segments,
        sink: RecordSink::new(buffer, writer),
    };
    let ran = run_crew::<R, M, O, B, K, L, D, NoGate, C, RecordSink<W>>(
        rt, alloc, book, made, leases, door, dials, outlet, &NoGate, clock, setup,
    );
    let crew = match ran {
        Ok(crew) => crew,
        Err((fault, crew)) => {
            settle_idle(crew);
            return Err(fault);
        }
    };
    let Crew {
        summary,
        shut,
        passes,
        left,
        dials: _dials,
        outlet,
    } = crew;
    let Outlet {
        segments: _segments,
        sink,
    } = outlet;
    let (written, writer) = sink.finish(shut.book());
    let settled = settle(shut, passes, left, &[]);
    Ok(Served {
        summary,
        written,
        settled,
        writer,
    })
}

/// Serves what comes to the door with a worker for each dial, 1 to 64, until the door is closed. The record is written by
/// segments while it does; then what is open is closed, and the rest is written. The segments are the reading end of
/// the ring of the book. After a fault nothing was served. The buffer that the record is written through is made first, so
/// that memory that runs out later does not end the record.
pub fn serve<
    R: Threads + Wait + Sync,
    K: Link + Send,
    L: Dial<Link = K> + Send + Drop,
    D: Door<Link = K>,
    C: Clock + Sync,
    W: Output + Send + Drop,
>(
    rt: &R,
    alloc: Global,
    book: Book,
    segments: Consumer<Segment>,
    door: &mut D,
    dials: Vec<L>,
    clock: &C,
    workers: u16,
    writer: W,
) -> Result<Served<W>, CrewFault>
    requires fresh { (book.made ≡ 0) × (open_connections book.state ≡ 0) × (open_connections book.base ≡ 0) }
    requires ring { IsPair book.segments segments × (received segments ≡ []) }
    requires workers { (vec_len dials ≡ workers) × (1 ≤ workers) × (workers ≤ MOST_WORKERS) }
    // What is written is the record of a legal history from the base of the book on, of all decisions that were made.
    ensures record { IfOk result (λ served. OnOk served.written (RecordsAll book.base served.summary.recorded (W.held writer) (W.held served.writer))) }
    // If the writer fails, it has a front of such a record.
    ensures front { IfOk result (λ served. OnErr served.written (RecordsFront book.base served.summary.recorded (W.held writer) (W.held served.writer))) }
    // Where the accounts are settled, they are those of as many decisions.
    ensures settled { IfOk result (λ served.
        IfOk served.settled (λ settled. settled.made ≡ served.summary.recorded)) }
    // If not all threads began, nothing was accepted.
    ensures unbegun { IfOk result (λ served. IsUnbegun served.summary) }
{
    let Ok(buffer) = Vec::with_capacity(alloc, RECORD_BUFFER) else {
        book.end();
        return Err(CrewFault::NoMemory);
    };
    run::<Brand, Brand, Brand, R, K, L, D, C, W>(
        rt,
        alloc,
        book,
        Blank::new(CALL_PARTS),
        Blank::new(u64::MAX),
        segments,
        door,
        dials,
        clock,
        workers,
        buffer,
        writer,
    )
}
