//! A whole run of a crew, and what came of it.
ghost use Rattle.std.specs.Prelude.{◌≡◌, ◌≤◌, ◌-◌, ◌^◌, IfSome, Some, vec_len};
ghost use Rattle.conn_model.specs.Counts.{open_connections};
ghost use Rattle.rtrb.specs.Ring.{IsPair};

use crate::tests::door::FakeDoor;
use crate::tests::link::{FakeDial, FakeLink, Script};
use crate::tests::shelf::Shelf;
use crate::tests::stage::{FakeClock, FakeGate, Mark, Stage};
use addr_core::{Addr, Endpoint, Pair};
use book_core::Book;
use book_core::laws::open_connections_change;
use conn_core::Core;
use conn_model::event::Why;
use conn_model::reply::{Cause, Said};
use crew_core::{Backlog, Crew, CrewFault, DoorEvent, Outlet, Setup, Summary, run_crew};
use desk_core::{CALL_PARTS, Opening, Pass, SettleFault, Settled, settle};
use proxy_types::MOST_WORKERS;
use record_core::{Record, Segment};
use rtrb::{Consumer, RingBuffer};
use std::alloc::Global;
use std::marker::Brand;
use std::sync::ledger::{Blank, Ledger};
use std::sync::{Arc, Wait};
use std::thread::Threads;
use std::time::Clock;

/// A record as a word, and a number: that of the connection, or the line of the server that it is offered or of the
/// rule that rejects it, or the version of a reload, or the line of a server that is reported.
pub type Word = (&'static str, u64);

fn word_of(said: &Said) -> Word {
    match *said {
        Said::Wait { id, .. } => ("wait", id.serial),
        Said::Offer { line, .. } => ("offer", u64::from(line)),
        Said::Refuse {
            cause: Cause::Line(line),
            ..
        } => ("refuse", u64::from(line)),
        Said::Refuse { .. } => ("refuse", 0),
        Said::Up { id } => ("up", id.serial),
        Said::Closed { id, why } => match why {
            Why::Done => ("done", id.serial),
            Why::Fault => ("fault", id.serial),
            Why::Stopped => ("stopped", id.serial),
            Why::Failed => ("failed", id.serial),
            Why::ClientTimeout => ("client-timeout", id.serial),
            Why::ServerTimeout => ("server-timeout", id.serial),
        },
        Said::Reloaded { version } => ("reloaded", version),
        Said::Marked { line, .. } => ("marked", u64::from(line)),
    }
}

/// How one run goes.
#[derive(Clone, Copy, Debug)]
pub struct Play<'a> {
    /// The configuration, and one that comes to the door before the clients.
    pub text: &'a str,
    pub reload: Option<&'a str>,
    pub clients: &'a [Script],
    /// Those that wait at the dial of the first worker, the last one first, and not at the door.
    pub at_dial: &'a [Script],
    pub server: Script,
    /// How many dials of a worker fail, and whether each worker has to ask twice for the first.
    pub fails: u32,
    pub is_late: bool,
    /// When the door is closed.
    pub closes_after: Option<Mark>,
    /// How many segments the ring to the recorder has room for, and how many the sink refuses before it takes one.
    pub ring: usize,
    pub refusals: u32,
    /// How many calls the gate lets each worker make, and whether it holds the first of worker 1 back.
    pub calls: u64,
    pub holds: bool,
    pub workers: u16,
    pub turns: u64,
    /// By how many ms the time goes on when a dial waits.
    pub step: u64,
}

/// What came of a run.
#[derive(Drop)]
pub struct Ended {
    /// The records of the sink, and after them those of the journal.
    pub words: Vec<Word>,
    pub seen: Seen,
}

/// What is seen of a run beside its records.
#[derive(Clone, Copy, Debug)]
pub struct Seen {
    pub fault: Option<CrewFault>,
    pub summary: Summary,
    /// How many segments the sink took, how many records they have, and how many do not follow the one before.
    pub segments: usize,
    pub records: u64,
    pub gaps: u64,
    /// The calls of all passes.
    pub calls: u64,
    pub settled: Result<Settled, SettleFault>,
    /// Whether the server and the client were sent what they should be, and whether any link was sent something else.
    pub is_served: bool,
    pub is_answered: bool,
    pub is_wrong: bool,
    /// How many reloads went well, and how many did not.
    pub reloads: (u32, u32),
    /// What the door was last told of a record that does not go out.
    pub warned: Option<Backlog>,
}

/// The addresses of a connection from 10.1.1.1 to 127.0.0.1:8080.
fn real_pair() -> Option<Pair> {
    let source = Endpoint {
        addr: Addr::V4(0x0a01_0101),
        port: 5000,
    };
    let destination = Endpoint {
        addr: Addr::V4(0x7f00_0001),
        port: 8080,
    };
    Pair::of(source, destination)
}

/// A book over the configuration, if it opens, and the other end of its ring, which has room for so many segments.
fn open_with_ring(alloc: Global, text: &str, segments: usize) -> Option<(Book, Consumer<Segment>)>
    ensures made { IfSome result (λ opened. opened.0.made ≡ 0) }
    ensures state { IfSome result (λ opened. open_connections opened.0.state ≡ 0) }
    ensures base { IfSome result (λ opened. open_connections opened.0.base ≡ 0) }
    ensures ring { IfSome result (λ opened. IsPair opened.0.segments opened.1) }
{
    open_connections_change();
    let Ok(core) = Core::open(alloc, text) else {
        return None;
    };
    let Ok((producer, consumer)) = RingBuffer::new(alloc, segments) else {
        core.end();
        return None;
    };
    match Book::open(alloc, core, producer) {
        Ok(book) => Some((book, consumer)),
        Err(failed) => {
            let (core, _producer) = failed.value;
            core.end();
            None
        }
    }
}

/// What comes to the door, the last of it first.
fn knocks(alloc: Global, stage: &Arc<Stage>, play: &Play<'_>) -> Option<Vec<DoorEvent<FakeLink>>> {
    let real = real_pair()?;
    let mut knocks = Vec::new(alloc);
    for at in 0..play.clients.len() {
        let script = play.clients[play.clients.len() - 1 - at];
        let link = FakeLink::new(Arc::try_clone(stage).ok()?, script);
        if knocks.push(DoorEvent::Conn(0, real, link)).is_err() {
            return None;
        }
    }
    if let Some(text) = play.reload {
        let mut copy = String::new(alloc);
        copy.push_str(text).ok()?;
        if knocks.push(DoorEvent::Reload(copy)).is_err() {
            return None;
        }
    }
    Some(knocks)
}

/// The clients that wait at a dial.
fn waiting(alloc: Global, stage: &Arc<Stage>, scripts: &[Script]) -> Option<Vec<(Pair, FakeLink)>> {
    let real = real_pair()?;
    let mut waiting = Vec::new(alloc);
    for script in scripts {
        let link = FakeLink::new(Arc::try_clone(stage).ok()?, *script);
        if waiting.push((real, link)).is_err() {
            return None;
        }
    }
    Some(waiting)
}

/// A dial for each worker.
fn dials<H: Clock + Copy + Drop>(
    alloc: Global,
    sleeper: H,
    stage: &Arc<Stage>,
    play: &Play<'_>,
    workers: u16,
) -> Option<Vec<FakeDial<H>>>
    ensures { IfSome result (λ dials. vec_len dials ≡ workers) }
{
    let mut dials = Vec::new(alloc);
    for worker in 0..workers {
        let scripts = if worker == 0 { play.at_dial } else { &[] };
        let waiting = waiting(alloc, stage, scripts)?;
        let stage = Arc::try_clone(stage).ok()?;
        let dial = FakeDial::new(
            sleeper,
            stage,
            play.server,
            play.fails,
            play.is_late,
            waiting,
        );
        if dials.push(dial).is_err() {
            return None;
        }
    }
    Some(dials)
}

fn add_words(words: &mut Vec<Word>, records: &[Record]) {
    for record in records {
        let _ = words.push(word_of(&record.reply.said));
    }
}

/// Those of the sink, and after them those of the journal.
fn words_of(alloc: Global, shelf: &Shelf, journal: &[Record]) -> Vec<Word> {
    let mut words = Vec::new(alloc);
    for segment in &shelf.segments {
        add_words(&mut words, segment.records.as_slice());
    }
    add_words(&mut words, journal);
    words
}

fn calls_of<M: Ledger>(passes: &[Pass<M>]) -> u64 {
    let mut calls = 0u64;
    for pass in passes {
        calls = calls.saturating_add(pass.calls());
    }
    calls
}

/// Takes apart what is left of a crew.
fn end<M: Ledger, O: Ledger, B: Opening, L: Drop>(
    alloc: Global,
    stage: &Stage,
    fault: Option<CrewFault>,
    crew: Crew<M, O, B, L, Shelf>,
    door: &FakeDoor,
) -> Ended
    requires { M.parts ≡ CALL_PARTS }
{
    let Crew {
        summary,
        shut,
        passes,
        left,
        dials: _,
        outlet,
    } = crew;
    let Outlet {
        segments: _segments,
        sink: shelf,
    } = outlet;
    let words = words_of(alloc, &shelf, shut.book().journal());
    let seen = Seen {
        fault,
        summary,
        segments: shelf.segments.len(),
        records: shelf.records,
        gaps: shelf.gaps,
        calls: calls_of(passes.as_slice()),
        settled: settle(shut, passes, left, shelf.segments.as_slice()),
        is_served: stage.has(Mark::Served),
        is_answered: stage.has(Mark::Answered),
        is_wrong: stage.has(Mark::Wrong),
        reloads: door.reloads,
        warned: door.warned,
    };
    Ended { words, seen }
}

/// The fakes of a run.
#[derive(Drop)]
struct Fakes<H: Clock> {
    door: FakeDoor,
    gate: FakeGate<H>,
    clock: FakeClock<H>,
}

fn act<
    M: Ledger + Send + Sync,
    O: Ledger + Send + Sync,
    B: Opening + Send + Sync,
    R: Threads + Wait + Sync,
    H: Clock + Send + Sync + Drop,
>(
    rt: &R,
    alloc: Global,
    book: Book,
    made: Blank,
    units: Blank,
    stage: &Stage,
    fakes: Fakes<H>,
    dials: Vec<FakeDial<H>>,
    outlet: Outlet<Shelf>,
    setup: Setup,
) -> Ended
    requires opened { (B.opening ≡ Some book) × IsPair book.segments outlet.segments }
    requires fresh { (book.made ≡ 0) × (open_connections book.state ≡ 0) × (open_connections book.base ≡ 0) }
    requires made_name { made.name ≡ M.name }
    requires made_parts { (made.parts ≡ M.parts) × (made.parts ≡ CALL_PARTS) }
    requires units_name { units.name ≡ O.name }
    requires units_parts { (units.parts ≡ O.parts) × (units.parts ≡ 2 ^ 64 - 1) }
    requires workers { (vec_len dials ≡ setup.workers) × (1 ≤ setup.workers) × (setup.workers ≤ MOST_WORKERS) }
{
    let Fakes {
        mut door,
        gate,
        clock,
    } = fakes;
    let (fault, crew) = match run_crew::<R, M, O, B, _, _, _, _, _, Shelf>(
        rt, alloc, book, made, units, &mut door, dials, outlet, &gate, &clock, setup,
    ) {
        Ok(crew) => (None, crew),
        Err((fault, crew)) => (Some(fault), crew),
    };
    end(alloc, stage, fault, crew, &door)
}

fn make_fakes<H: Clock + Copy + Drop>(
    alloc: Global,
    sleeper: H,
    stage: &Arc<Stage>,
    play: &Play<'_>,
) -> Option<Fakes<H>> {
    Some(Fakes {
        door: FakeDoor {
            stage: Arc::try_clone(stage).ok()?,
            knocks: knocks(alloc, stage, play)?,
            closes_after: play.closes_after,
            reloads: (0, 0),
            warned: None,
        },
        gate: FakeGate {
            sleeper,
            stage: Arc::try_clone(stage).ok()?,
            calls: play.calls,
            holds: play.holds,
        },
        clock: FakeClock {
            sleeper,
            stage: Arc::try_clone(stage).ok()?,
        },
    })
}

/// One run, where there is memory for it.
pub fn run<R: Threads + Wait + Sync, H: Clock + Copy + Send + Sync + Drop>(
    rt: &R,
    alloc: Global,
    sleeper: H,
    play: &Play<'_>,
) -> Option<Ended> {
    let workers = play.workers;
    if workers < 1 || workers > MOST_WORKERS {
        return None;
    }
    let stage = Arc::new(alloc, Stage::new(play.step)).ok()?;
    let fakes = make_fakes(alloc, sleeper, &stage, play)?;
    let dials = dials(alloc, sleeper, &stage, play, workers)?;
    let setup = Setup {
        workers,
        turns: play.turns,
        keeps: true,
    };
    let (book, segments) = open_with_ring(alloc, play.text, play.ring)?;
    let outlet = Outlet {
        segments,
        sink: Shelf::new(alloc, play.refusals),
    };
    Some(act::<Brand, Brand, Brand, R, H>(
        rt,
        alloc,
        book,
        Blank::new(CALL_PARTS),
        Blank::new(u64::MAX),
        &stage,
        fakes,
        dials,
        outlet,
        setup,
    ))
}
