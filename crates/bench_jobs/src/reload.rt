//! A file is changed, checked and loaded while clients come and go.
use crate::book::Keeper;
use crate::clients::{Clients, Habits};
use crate::digest::{with_bytes, with_number};
use crate::draw::mixed;
use crate::job::JobFault;
use crate::serve::room;
use crate::texts;
use conn_model::event::Event;
use device_core::{MemoryOutput, Schedule};
use replay_core::run_check;
use std::alloc::{AllocError, Global};

/// How many lines of a deny list the large file has.
const DENIED: u64 = 250;

/// How many reloads of the small file there are for one of the large file.
const SMALL: u64 = 60;

/// The turns of clients after a reload.
const TURNS: u64 = 100;

const HABITS: Habits = Habits {
    listeners: texts::WIDE,
    port: 8_000,
    sources: 50_000,
    open: 1_500,
};

/// The digest with the line of a check.
fn check(alloc: Global, text: &str, digest: u64) -> Result<u64, JobFault> {
    let mut line = MemoryOutput::new(alloc, 4_096, Schedule::plain(alloc))?;
    match run_check(alloc, text, &mut line) {
        Ok(_fault) => Ok(with_bytes(digest, line.as_slice())),
        Err(_) => Err(JobFault::Device),
    }
}

/// A large file, the last of whose lines is wrong if that is wanted.
fn large(alloc: Global, seed: u64, wrong: bool) -> Result<String, AllocError> {
    let mut text = texts::wide(alloc, seed, DENIED)?;
    if wrong {
        text.push_str("    server last 10.0.0.1\n")?;
    }
    Ok(text)
}

/// The large file is changed so often. Each is checked first, and every third one is wrong in its last line.
fn large_reloads(
    alloc: Global,
    keeper: &mut Keeper,
    count: u64,
    seed: u64,
) -> Result<u64, JobFault> {
    let mut clients = Clients::new(alloc, HABITS, mixed(seed));
    let mut digest = 0;
    for number in 0..count {
        clients.turns(alloc, keeper, TURNS)?;
        let text = large(alloc, seed.wrapping_add(number), number % 3 == 2)?;
        digest = check(alloc, text.as_str(), digest)?;
        let said = keeper.step(0, &Event::Reload(text.as_str()));
        digest = with_number(digest, u64::from(said.is_some()));
    }
    clients.turns(alloc, keeper, TURNS)?;
    Ok(digest)
}

/// The small file is changed so often, and a connection of each stays.
fn small_reloads(
    alloc: Global,
    keeper: &mut Keeper,
    count: u64,
    seed: u64,
) -> Result<u64, JobFault> {
    let habits = Habits {
        listeners: 1,
        port: 5_432,
        sources: 50_000,
        open: 20,
    };
    let mut clients = Clients::new(alloc, habits, mixed(seed));
    let mut digest = 0;
    for number in 0..count {
        clients.turns(alloc, keeper, TURNS)?;
        clients.leave_newest();
        let text = texts::small(alloc, seed.wrapping_add(number))?;
        let said = keeper.step(0, &Event::Reload(text.as_str()));
        digest = with_number(digest, u64::from(said.is_some()));
    }
    Ok(digest)
}

/// The digest of the record of what was done, and of what it gave.
fn end(keeper: Keeper, done: Result<u64, JobFault>) -> Result<u64, JobFault> {
    let (record, faults) = keeper.end();
    let digest = with_number(done?, faults);
    Ok(with_bytes(digest, record.as_slice()))
}

pub fn run(alloc: Global, count: u64, seed: u64) -> Result<u64, JobFault> {
    let text = texts::wide(alloc, seed, DENIED)?;
    let space = room(count.saturating_mul(4_000));
    let mut keeper = Keeper::open(alloc, text.as_str(), space)?;
    let done = large_reloads(alloc, &mut keeper, count, seed);
    let first = end(keeper, done)?;
    let text = texts::small(alloc, seed)?;
    let many = count.saturating_mul(SMALL);
    let mut keeper = Keeper::open(alloc, text.as_str(), room(many.saturating_mul(TURNS)))?;
    let done = small_reloads(alloc, &mut keeper, many, seed);
    Ok(with_number(first, end(keeper, done)?))
}
