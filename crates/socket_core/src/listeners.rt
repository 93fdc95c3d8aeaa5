//! Sockets that listen.
use crate::WAKE;
use crate::addresses::{endpoint_of, is_wildcard, socket_address};
use addr_core::{Endpoint, write_endpoint};
use mio::net::TcpListener;
use mio::{Interest, Registry, Token};
use std::alloc::{AllocError, Global};
use std::io;
use std::net::Net;
use thiserror::Error;

/// Why nothing listens.
#[derive(Debug, Drop, Error)]
pub enum ListenFault {
    /// An address cannot be bound, for the reason that the system gives.
    #[error("cannot listen on {}: {reason}", write_endpoint(.at))]
    Bind {
        /// The number of the listener, from 0.
        number: usize,
        at: Endpoint,
        reason: io::Error,
    },
    #[error("no memory")]
    NoMemory,
}

impl From<AllocError> for ListenFault {
    fn from(_error: AllocError) -> ListenFault {
        ListenFault::NoMemory
    }
}

/// A socket that listens.
#[derive(Drop)]
pub struct BoundListener {
    pub socket: TcpListener,
    /// The local end of its connections, where they all have the same.
    pub local: Option<Endpoint>,
}

/// The token of the listener of that number. No key of a connection has it, nor a waker.
fn token_of(number: usize) -> Token {
    Token(WAKE.0.wrapping_sub(1).wrapping_sub(number))
}

/// The number of the listener that has that token, if one has.
pub fn listener_of(token: Token) -> Option<u16> {
    u16::try_from(WAKE.0.wrapping_sub(1).wrapping_sub(token.0)).ok()
}

/// Sockets that listen, by their numbers.
#[derive(Drop)]
pub struct Listeners {
    all: Vec<BoundListener>,
}

impl Listeners {
    /// How many there are.
    pub fn len(&self) -> usize {
        self.all.len()
    }

    pub fn is_empty(&self) -> bool {
        self.all.is_empty()
    }

    /// Where the listener of that number listens, as the system says.
    pub fn at(&self, number: usize) -> Option<Endpoint> {
        let listener = self.all.get(number)?;
        let address = listener.socket.local_addr().ok()?;
        Some(endpoint_of(&address))
    }

    /// Has one poll more report when a client comes to any of them.
    pub fn watch(&mut self, registry: &Registry) -> io::Result<()> {
        for (number, listener) in self.all.iter_mut().enumerate() {
            registry.register(&mut listener.socket, token_of(number), Interest::READABLE)?;
        }
        Ok(())
    }

    pub(crate) fn into_vec(self) -> Vec<BoundListener> {
        let Listeners { all } = self;
        all
    }
}

/// Binds one address.
fn listen_at(rt: &impl Net, at: &Endpoint) -> io::Result<BoundListener> {
    let socket = TcpListener::bind(rt, socket_address(at))?;
    let local = if is_wildcard(at) {
        None
    } else {
        Some(endpoint_of(&socket.local_addr()?))
    };
    Ok(BoundListener { socket, local })
}

/// Listens on each of these addresses, in this order. Where one of them cannot be bound, none stays bound.
pub fn listen(
    rt: &impl Net,
    alloc: Global,
    addresses: &[Endpoint],
) -> Result<Listeners, ListenFault> {
    let mut all = Vec::new(alloc);
    for (number, at) in addresses.iter().enumerate() {
        match listen_at(rt, at) {
            Ok(listener) => all.push(listener).map_err(|_| ListenFault::NoMemory)?,
            Err(reason) => {
                return Err(ListenFault::Bind {
                    number,
                    at: *at,
                    reason,
                });
            }
        }
    }
    Ok(Listeners { all })
}
