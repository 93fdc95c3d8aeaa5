//! `l4proxy serve`: connections of sockets, until standard input says `quit` or ends.
ghost use Rattle.std.specs.Prelude.{◌≡◌, ◌≤◌, [], IfOk, vec_len};
ghost use Rattle.rtrb.specs.Ring.{received, IsPair};
ghost use Rattle.proxy_types.specs.declared.limits.TheConstants.{MOST_WORKERS};
ghost use Rattle.conn_model.specs.Counts.{open_connections};

use book_core::Book;
use command_line::{DEVICE, DONE, REFUSED, ServeWords};
use conn_core::OpenFault;
use conn_model::reply::{Reply, StepFault};
use crew_core::{Backlog, Clock, CrewFault, Dial, Door, DoorEvent, Served, open_book, serve};
use desk_core::{SettleFault, Settled};
use device_core::ToWrite;
use file_commands::{explain_refusal, unreadable, warn_of_plan};
use log::Log;
use record_core::Segment;
use rtrb::Consumer;
use serve_setup::{ServeSockets, fail, open_sockets};
use socket_core::{SocketLink, SystemClock};
use status_core::CrewStatus;
use std::alloc::AllocError;
use std::net::Net;
use std::rt::Files;
use std::sync::Wait;
use std::thread::Threads;
use std::{fs, io, rt};

/// What is ready before the first connection is taken.
pub struct ServeSetup<'a, R: Net + Log + rt::Clock> {
    pub book: Book,
    /// The reading end of the ring of the book.
    pub segments: Consumer<Segment>,
    pub sockets: ServeSockets<'a, R>,
}

/// Warns of what the configuration of a book lacks.
fn warn_of_book(rt: &(impl AllocGlobal + Eprint), file: &str, text: &str, book: &Book) {
    if let Some(version) = book.base().versions.as_slice().last() {
        warn_of_plan(rt, file, text, &version.plan);
    }
}

/// A book over the configuration of the file, and the reading end of its ring.
fn read_book<R: Files + AllocGlobal + Eprint>(
    rt: &R,
    file: &str,
) -> Result<(Book, Consumer<Segment>), u8>
    ensures made { IfOk result (λ opened. opened.0.made ≡ 0) }
    ensures state { IfOk result (λ opened. open_connections opened.0.state ≡ 0) }
    ensures base { IfOk result (λ opened. open_connections opened.0.base ≡ 0) }
    ensures ring { IfOk result (λ opened. IsPair opened.0.segments opened.1 × (received opened.1 ≡ [])) }
{
    let Ok(text) = fs::read_to_string(rt, file) else {
        return Err(unreadable(rt, file));
    };
    match open_book(rt.alloc(), text.as_str()) {
        Ok((book, segments)) => {
            warn_of_book(rt, file, text.as_str(), &book);
            Ok((book, segments))
        }
        Err(fault) => {
            explain_refusal(rt, file, text.as_str(), &fault);
            match fault {
                OpenFault::NoMemory => Err(DEVICE),
                _ => Err(REFUSED),
            }
        }
    }
}

/// Opens the configuration and its listeners, or else says what is wrong and gives the status.
pub fn open<'a, R: Files + Net + Log + rt::Clock + AllocGlobal + Eprint>(
    rt: &'a R,
    clock: &'a SystemClock<'a, R>,
    words: &ServeWords,
) -> Result<ServeSetup<'a, R>, u8>
    ensures made { IfOk result (λ setup. setup.book.made ≡ 0) }
    ensures state { IfOk result (λ setup. open_connections setup.book.state ≡ 0) }
    ensures base { IfOk result (λ setup. open_connections setup.book.base ≡ 0) }
    ensures ring { IfOk result (λ setup. IsPair setup.book.segments setup.segments × (received setup.segments ≡ [])) }
    ensures dials { IfOk result (λ setup. vec_len setup.sockets.dials ≡ words.now.workers) }
{
    let (book, segments) = read_book(rt, words.file.as_str())?;
    match open_sockets(rt, clock, book.base(), words) {
        Ok(sockets) => Ok(ServeSetup {
            book,
            segments,
            sockets,
        }),
        Err(status) => {
            book.end();
            Err(status)
        }
    }
}

/// Says what was served. What is open then could not be closed, since memory ran out, and the record lacks its end.
fn say_served<W>(rt: &impl Eprint, served: &Served<W>) -> u8 {
    if let Err(fault) = &served.written {
        let _written = eprintln!(rt; "l4proxy: standard output: {fault}");
    }
    match &served.settled {
        Ok(settled) => say_settled(rt, served.summary.accepted, settled),
        Err(fault) => say_unsettled(rt, fault),
    }
    match (&served.written, &served.settled) {
        (Err(_), _) => DEVICE,
        (Ok(()), Err(_)) => REFUSED,
        (Ok(()), Ok(settled)) if settled.live > 0 => DEVICE,
        (Ok(()), Ok(_)) => DONE,
    }
}

/// Says how many connections came, how many records they have, and which of them the record leaves open.
fn say_settled(rt: &impl Eprint, accepted: u64, settled: &Settled) {
    let (made, live) = (settled.made, settled.live);
    let _written = eprintln!(rt; "l4proxy: {accepted} connections, {made} records, {live} open");
    if live > 0 {
        let _written = eprintln!(rt; "l4proxy: no memory for the end of those that are open");
    }
}

/// Says in what the record differs from what the threads did.
fn say_unsettled(rt: &impl Eprint, fault: &SettleFault) {
    let _written = match fault {
        SettleFault::WrongReceipt(number) => eprintln!(rt;
            "l4proxy: record {number} differs from what was answered"
        ),
        SettleFault::Missing(number) => eprintln!(rt; "l4proxy: record {number} is missing"),
        SettleFault::Twice(number) => eprintln!(rt; "l4proxy: record {number} was answered twice"),
        SettleFault::NotAll => eprintln!(rt;
            "l4proxy: the records or the open connections are not those of all workers"
        ),
    };
}

/// A door that says when it is asked for the first time, which is when all threads are there.
#[derive(Drop)]
struct ReadyDoor<'a, R: Eprint, D: Door<Link = SocketLink>> {
    rt: &'a R,
    door: &'a mut D,
    is_ready: bool,
}

impl<'a, R: Eprint, D: Door<Link = SocketLink>> Door for ReadyDoor<'a, R, D> {
    type Link = SocketLink;

    fn next(&mut self) -> DoorEvent<SocketLink> {
        if !self.is_ready {
            self.is_ready = true;
            let _written = eprintln!(self.rt; "l4proxy: ready");
        }
        self.door.next()
    }

    fn wake(&mut self, worker: usize) {
        self.door.wake(worker);
    }

    fn report(&mut self, answer: &Result<Reply, StepFault>) {
        self.door.report(answer);
    }

    fn report_status(&mut self, status: Result<CrewStatus, AllocError>) {
        self.door.report_status(status);
    }

    fn warn(&mut self, backlog: &Backlog) {
        self.door.warn(backlog);
    }
}

/// Serves until the door is closed, and writes the record on standard output meanwhile. Then says what was served.
pub fn run<
    R: Threads + Wait + AllocGlobal + Print + Eprint + Sync,
    L: Dial<Link = SocketLink> + Send + Drop,
    D: Door<Link = SocketLink>,
    C: Clock + Sync,
>(
    rt: &R,
    clock: &C,
    book: Book,
    segments: Consumer<Segment>,
    door: &mut D,
    dials: Vec<L>,
    workers: u16,
) -> u8
    requires fresh { (book.made ≡ 0) × (open_connections book.state ≡ 0) × (open_connections book.base ≡ 0) }
    requires ring { IsPair book.segments segments × (received segments ≡ []) }
    requires workers { (vec_len dials ≡ workers) × (1 ≤ workers) × (workers ≤ MOST_WORKERS) }
{
    let mut door = ReadyDoor {
        rt,
        door,
        is_ready: false,
    };
    let writer = ToWrite::of(io::writer(rt));
    match serve(
        rt,
        rt.alloc(),
        book,
        segments,
        &mut door,
        dials,
        clock,
        workers,
        writer,
    ) {
        Ok(served) if !served.summary.began => fail(rt, &CrewFault::Spawn),
        Ok(served) => say_served(rt, &served),
        Err(fault) => fail(rt, &fault),
    }
}
