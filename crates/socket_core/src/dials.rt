//! The dials of a crew over sockets.
ghost use Rattle.std.specs.Prelude.{◌≡◌, IfOk, vec_len};

use crate::WAKE;
use crate::alarm::Alarm;
use crate::clock::SystemClock;
use crate::dial::SocketDial;
use crate::door::SocketDoor;
use crate::listener_share::ListenerShare;
use crate::listeners::Listeners;
use crate::ports::Ports;
use log::Log;
use mio::{Poll, Waker};
use std::alloc::{AllocError, Global};
use std::net::Net;
use std::sync::Arc;
use std::{io, rt};
use thiserror::Error;

/// Up to so many workers take clients from the listeners themselves. If there are more, the door takes the clients and
/// hands them over, since the system wakes every thread that waits for a client when one comes.
const MOST_TAKERS: u16 = 8;

/// Why there is no door, or no dials.
#[derive(Debug, Drop, Error)]
pub enum SetupFault {
    #[error("no memory")]
    NoMemory,
    /// The system gives no poll or no waker, for that reason.
    #[error("{0}")]
    System(io::Error),
}

impl From<AllocError> for SetupFault {
    fn from(_error: AllocError) -> SetupFault {
        SetupFault::NoMemory
    }
}

/// The poll of a worker, and what ends its wait from another thread.
#[derive(Drop)]
struct WorkerPoll {
    poll: Poll,
    alarm: Arc<Alarm, Global>,
}

fn make_poll<R: Net>(rt: &R, alloc: Global) -> Result<WorkerPoll, SetupFault> {
    let poll = Poll::new(rt).map_err(SetupFault::System)?;
    let waker = Waker::new(poll.registry(), WAKE).map_err(SetupFault::System)?;
    let alarm = Arc::new(alloc, Alarm::new(waker)).map_err(|_| SetupFault::NoMemory)?;
    Ok(WorkerPoll { poll, alarm })
}

/// So many polls.
fn make_polls<R: Net>(rt: &R, alloc: Global, workers: u16) -> Result<Vec<WorkerPoll>, SetupFault>
    ensures { IfOk result (λ polls. vec_len polls ≡ workers) }
{
    let mut polls = Vec::new(alloc);
    for _worker in 0..workers {
        let poll = make_poll(rt, alloc)?;
        polls.push(poll).map_err(|_| SetupFault::NoMemory)?;
    }
    Ok(polls)
}

/// The listeners for workers with these polls.
fn make_ports(
    alloc: Global,
    listeners: Listeners,
    most: u64,
    polls: &[WorkerPoll],
) -> Result<Arc<Ports, Global>, SetupFault> {
    let mut alarms = Vec::new(alloc);
    for poll in polls {
        alarms
            .push(Arc::try_clone(&poll.alarm)?)
            .map_err(|_| SetupFault::NoMemory)?;
    }
    let ports = Ports::new(alloc, listeners, most, alarms)?;
    Arc::new(alloc, ports).map_err(|_| SetupFault::NoMemory)
}

/// Has each of these polls report when a client comes to one of the listeners.
fn watch_by_all(listeners: &mut Listeners, polls: &[WorkerPoll]) -> Result<(), SetupFault> {
    for worker in polls {
        listeners
            .watch(worker.poll.registry())
            .map_err(SetupFault::System)?;
    }
    Ok(())
}

/// A dial for each of so many workers, whose alarm the door has. The dials take the clients of these listeners, or the
/// door does if there are more than `MOST_TAKERS` of them. No more than `most` clients are connected at one time.
pub fn make_dials<'a, R: Net + Log + rt::Clock>(
    rt: &'a R,
    alloc: Global,
    clock: &'a SystemClock<'a, R>,
    door: &mut SocketDoor<'a, R, SystemClock<'a, R>>,
    listeners: Listeners,
    most: u64,
    workers: u16,
) -> Result<Vec<SocketDial<'a, R>>, SetupFault>
    ensures { IfOk result (λ dials. vec_len dials ≡ workers) }
{
    let mut listeners = listeners;
    let mut polls = make_polls(rt, alloc, workers)?;
    let are_takers = workers <= MOST_TAKERS;
    if are_takers {
        watch_by_all(&mut listeners, polls.as_slice())?;
    } else {
        door.watch(&mut listeners)?;
    }
    let ports = make_ports(alloc, listeners, most, polls.as_slice())?;
    if !are_takers {
        let share = ListenerShare::new(rt, alloc, clock, polls.len(), &ports)?;
        door.take_clients(share);
    }
    let mut dials = Vec::new(alloc);
    while let Some(WorkerPoll { poll, alarm }) = polls.pop() {
        door.add_worker(Arc::try_clone(&alarm)?)?;
        let share = if are_takers {
            Some(ListenerShare::new(rt, alloc, clock, polls.len(), &ports)?)
        } else {
            None
        };
        let dial = SocketDial::new(rt, alloc, poll, alarm, share)?;
        match dials.push(dial) {
            Ok(()) => {}
            Err(_dial) => return Err(SetupFault::NoMemory),
        }
    }
    Ok(dials)
}
