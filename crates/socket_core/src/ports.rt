//! The listeners of a crew, which its workers take clients from, or the door.
use crate::addresses::{endpoint_of, pair_of};
use crate::alarm::Alarm;
use crate::fd_budget::FdBudget;
use crate::link::SocketLink;
use crate::listeners::{BoundListener, Listeners};
use crate::pace::SharedPace;
use addr_core::{Endpoint, Pair};
use mio::net::TcpStream;
use std::alloc::{AllocError, Global};
use std::io;
use std::io::ErrorKind;
use std::net::SocketAddr;
use std::sync::Arc;

/// What a listener gave.
pub enum AcceptResult {
    Conn(Pair, SocketLink),
    /// A connection that ended before it was seen, or whose ends are not known as a pair.
    Lost,
    /// The system gives no connection for that reason, as where no descriptors are left. Those that wait stay.
    Refused(io::Error),
    Nothing,
}

/// Listeners, the workers that take their clients, how many connections there may be of all of them, and when it was said
/// last why one is not taken.
#[derive(Drop)]
pub struct Ports {
    listeners: Vec<BoundListener>,
    /// Those of the workers, by their numbers.
    alarms: Vec<Arc<Alarm, Global>>,
    pub budget: Arc<FdBudget, Global>,
    pub full: SharedPace,
    pub refused: SharedPace,
    pub lost: SharedPace,
}

impl Ports {
    /// The listeners, for workers with these alarms, with no more than `most` connections at one time.
    pub fn new(
        alloc: Global,
        listeners: Listeners,
        most: u64,
        alarms: Vec<Arc<Alarm, Global>>,
    ) -> Result<Ports, AllocError> {
        let budget = FdBudget::new(alloc, most, alarms.len())?;
        Ok(Ports {
            listeners: listeners.into_vec(),
            alarms,
            budget: Arc::new(alloc, budget).map_err(|_| AllocError)?,
            full: SharedPace::new(),
            refused: SharedPace::new(),
            lost: SharedPace::new(),
        })
    }

    /// How many there are.
    pub fn len(&self) -> usize {
        self.listeners.len()
    }

    /// Whether another worker has nothing to do, and fewer connections than the one of that number.
    pub fn has_better(&self, worker: usize) -> bool {
        let own = self.budget.permits_of(worker);
        if own == 0 {
            return false;
        }
        for (other, alarm) in self.alarms.iter().enumerate() {
            if alarm.is_waiting() && self.budget.permits_of(other) < own {
                return true;
            }
        }
        false
    }

    /// Has the listener of that number give a connection.
    pub fn accept(&self, number: u16) -> AcceptResult {
        let Some(listener) = self.listeners.get(usize::from(number)) else {
            return AcceptResult::Nothing;
        };
        match listener.socket.accept() {
            Ok((stream, peer)) => arrived(listener, stream, &peer),
            Err(error) => match error.kind() {
                ErrorKind::WouldBlock => AcceptResult::Nothing,
                ErrorKind::Interrupted | ErrorKind::ConnectionAborted => AcceptResult::Lost,
                _ => AcceptResult::Refused(error),
            },
        }
    }
}

/// The local end of a connection of a listener.
fn local_end(listener: &BoundListener, stream: &TcpStream) -> Option<Endpoint> {
    match listener.local {
        Some(local) => Some(local),
        None => Some(endpoint_of(&stream.local_addr().ok()?)),
    }
}

/// A connection of a listener.
fn arrived(listener: &BoundListener, stream: TcpStream, peer: &SocketAddr) -> AcceptResult {
    let Some(local) = local_end(listener, &stream) else {
        return AcceptResult::Lost;
    };
    match pair_of(&endpoint_of(peer), &local) {
        Some(pair) => AcceptResult::Conn(pair, SocketLink::of(stream)),
        None => AcceptResult::Lost,
    }
}
