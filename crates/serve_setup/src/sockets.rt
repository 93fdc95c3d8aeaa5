//! What `l4proxy serve` opens to the outside before its first connection.
ghost use Rattle.std.specs.Prelude.{◌≡◌, IfOk, vec_len};

use addr_core::{Endpoint, write_endpoint};
use command_line::{DEVICE, ServeWords};
use conn_model::plain::Plain;
use log::Log;
use socket_core::{
    Checker, CommandSender, DoorPlan, Listeners, SetupFault, SocketDial, SocketDoor, StatusAsker,
    SystemClock, listen, make_dials,
};
use status_core::Outline;
use std::alloc::{AllocError, Global};
use std::net::Net;
use std::rt::Files;
use std::sync::Arc;
use std::{fmt, fs, rt};

/// How many descriptors are left for all that is no connection, listener or poll.
const OTHER_FILES: u64 = 12;

/// How many `--stats` takes: its listener, and the one client that it answers at a time.
const STATS_FILES: u64 = 2;

/// What asks for the state, and what names the frontends by their numbers.
#[derive(Drop)]
pub struct Watch {
    /// For the reader of standard input.
    pub asker: StatusAsker,
    /// For the listener of `--stats`.
    pub stats_asker: StatusAsker,
    /// The sections of the first configuration.
    pub first: Arc<Outline, Global>,
}

/// What is open to the outside before the first connection is taken.
pub struct ServeSockets<'a, R: Net + Log + rt::Clock> {
    pub door: SocketDoor<'a, R, SystemClock<'a, R>>,
    pub commands: CommandSender,
    pub dials: Vec<SocketDial<'a, R>>,
    pub checker: Checker,
    pub watch: Watch,
}

/// Says on standard error what keeps it from serving.
pub fn fail<F: fmt::Display>(rt: &impl Eprint, fault: &F) -> u8 {
    let _written = eprintln!(rt; "l4proxy: {fault}");
    DEVICE
}

/// The addresses of the listeners, by their numbers.
fn addresses(alloc: Global, base: &Plain) -> Result<Vec<Endpoint>, AllocError> {
    let mut all = Vec::new(alloc);
    for listener in base.listeners.as_slice() {
        all.push(listener.at)?;
    }
    Ok(all)
}

/// What the door knows of the newest configuration.
fn door_plan(alloc: Global, base: &Plain) -> Result<DoorPlan, AllocError> {
    match base.versions.as_slice().last() {
        Some(version) => DoorPlan::first(alloc, &version.plan),
        None => DoorPlan::none(alloc),
    }
}

/// Says where it listens, in one line for each listener.
fn say_listeners(rt: &impl Eprint, base: &Plain, listeners: &Listeners) {
    for (number, listener) in base.listeners.as_slice().iter().enumerate() {
        let at = listeners.at(number).unwrap_or(listener.at);
        let frontends = base.frontends.as_slice();
        let name = match frontends.get(usize::from(listener.frontend)) {
            Some(frontend) => std::str::from_utf8(frontend.name.as_slice()).unwrap_or(""),
            None => "",
        };
        let at = write_endpoint(&at);
        let _written = eprintln!(rt; "l4proxy: listening on {at} (frontend {name})");
    }
}

/// How many files the process may open, as the system says (`/proc/self/limits`), if there is a limit.
fn open_files<R: Files + AllocGlobal>(rt: &R) -> Option<u64> {
    let text = fs::read_to_string(rt, "/proc/self/limits").ok()?;
    for line in text.as_str().lines() {
        if let Some(limits) = line.strip_prefix("Max open files") {
            return limits.split_whitespace().next()?.parse::<u64>().ok();
        }
    }
    None
}

/// How many connections may be open at one time: each takes two descriptors, beside those of the listeners, of the
/// workers', the door's and the checker's polls with their wakers, one for the check of each server, those of `--stats`, and some for all
/// else.
fn most_connections<R: Files + AllocGlobal>(
    rt: &R,
    listeners: usize,
    checks: usize,
    words: &ServeWords,
) -> u64 {
    let polls = u64::from(words.workers).saturating_add(2).saturating_mul(2);
    let stats = if words.stats.is_some() {
        STATS_FILES
    } else {
        0
    };
    let others = polls
        .saturating_add(stats)
        .saturating_add(listeners as u64)
        .saturating_add(checks as u64)
        .saturating_add(OTHER_FILES);
    match open_files(rt) {
        Some(limit) => (limit.saturating_sub(others) / 2).max(1),
        None => u64::MAX,
    }
}

/// What asks the door for the state.
fn make_watch<'a, R: Net + Log + rt::Clock>(
    door: &mut SocketDoor<'a, R, SystemClock<'a, R>>,
    first: Arc<Outline, Global>,
) -> Result<Watch, AllocError> {
    Ok(Watch {
        asker: door.add_asker()?,
        stats_asker: door.add_asker()?,
        first,
    })
}

/// Binds the listeners, all of them before any connection is taken.
fn bind<R: Net + AllocGlobal + Eprint>(rt: &R, base: &Plain) -> Result<Listeners, u8> {
    let Ok(addresses) = addresses(rt.alloc(), base) else {
        return Err(fail(rt, &SetupFault::NoMemory));
    };
    match listen(rt, rt.alloc(), addresses.as_slice()) {
        Ok(listeners) => {
            say_listeners(rt, base, &listeners);
            Ok(listeners)
        }
        Err(fault) => Err(fail(rt, &fault)),
    }
}

/// What the door knows of the newest configuration, and an owner more of its sections.
fn open_plan<R: AllocGlobal + Eprint>(
    rt: &R,
    base: &Plain,
) -> Result<(DoorPlan, Arc<Outline, Global>), u8> {
    let Ok(plan) = door_plan(rt.alloc(), base) else {
        return Err(fail(rt, &SetupFault::NoMemory));
    };
    match Arc::try_clone(&plan.outline) {
        Ok(first) => Ok((plan, first)),
        Err(_) => Err(fail(rt, &SetupFault::NoMemory)),
    }
}

/// Binds the listeners of the configuration that a proxy begins with, and makes what watches them. If that fails, it says
/// why and gives the status.
pub fn open_sockets<'a, R: Files + Net + Log + rt::Clock + AllocGlobal + Eprint>(
    rt: &'a R,
    clock: &'a SystemClock<'a, R>,
    base: &Plain,
    words: &ServeWords,
) -> Result<ServeSockets<'a, R>, u8>
    ensures { IfOk result (λ sockets. vec_len sockets.dials ≡ words.now.workers) }
{
    let alloc = rt.alloc();
    let listeners = bind(rt, base)?;
    let (plan, first) = open_plan(rt, base)?;
    let most = most_connections(rt, listeners.len(), plan.checks.len(), words);
    let (mut door, commands, checker) = match SocketDoor::new(rt, alloc, clock, plan) {
        Ok(opened) => opened,
        Err(fault) => return Err(fail(rt, &fault)),
    };
    let Ok(watch) = make_watch(&mut door, first) else {
        return Err(fail(rt, &SetupFault::NoMemory));
    };
    match make_dials(rt, alloc, clock, &mut door, listeners, most, words.workers) {
        Ok(dials) => Ok(ServeSockets {
            door,
            commands,
            dials,
            checker,
            watch,
        }),
        Err(fault) => Err(fail(rt, &fault)),
    }
}
