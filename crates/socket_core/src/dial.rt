//! A worker's clients and connections to servers, and its watch over all its sockets.
use crate::WAKE;
use crate::addresses::socket_address;
use crate::alarm::Alarm;
use crate::clock::SystemClock;
use crate::link::{DialProgress, SocketLink};
use crate::listener_share::ListenerShare;
use crate::listeners::listener_of;
use addr_core::{Endpoint, Pair};
use link_core::{Dial, Dialled, Ready};
use log::Log;
use mio::event::Event;
use mio::net::TcpStream;
use mio::{Events, Poll, Token};
use std::alloc::{AllocError, Global};
use std::collections::HashMap;
use std::net::Net;
use std::rt;
use std::sync::Arc;
use std::time::Duration;

/// How many events a wait takes from the system at most: more than a worker takes reports at a time, since some are of
/// listeners.
const MOST_EVENTS: usize = 320;

/// The poll of a worker, and its connections that are under way. Each socket is registered once, for reading and for
/// writing, under a token that has its key; the system reports only what changed. The listeners are registered too, where
/// the worker takes clients itself.
#[derive(Drop)]
pub struct SocketDial<'a, R: Net + Log + rt::Clock> {
    rt: &'a R,
    poll: Poll,
    events: Events,
    // How many of the events were handed out, or none where all were.
    handed_out: Option<usize>,
    // Kept for as long as the poll: a wake is lost if its waker is dropped first.
    alarm: Arc<Alarm, Global>,
    /// How many times the alarm was set off until the last wait.
    rings: u64,
    under_way: HashMap<usize, SocketLink>,
    /// The clients that it takes itself, if it takes some.
    share: Option<ListenerShare<'a, R, SystemClock<'a, R>>>,
}

/// The token of a socket of the connection of that key.
fn token_of(key: usize, of_server: bool) -> Token {
    Token(key.wrapping_mul(2) | usize::from(of_server))
}

/// What an event says, if it is one of a connection.
fn ready_of(event: &Event) -> Option<Ready> {
    let token = event.token();
    if token == WAKE {
        return None;
    }
    Some(Ready {
        key: token.0 / 2,
        of_server: token.0 % 2 == 1,
        reads: event.is_readable() || event.is_read_closed() || event.is_error(),
        writes: event.is_writable() || event.is_write_closed() || event.is_error(),
        is_closed: event.is_read_closed(),
        is_reset: event.is_error(),
    })
}

impl<'a, R: Net + Log + rt::Clock> SocketDial<'a, R> {
    /// A dial with that poll, to which the alarm is registered, and the listeners where it has a share of them.
    pub fn new(
        rt: &'a R,
        alloc: Global,
        poll: Poll,
        alarm: Arc<Alarm, Global>,
        share: Option<ListenerShare<'a, R, SystemClock<'a, R>>>,
    ) -> Result<SocketDial<'a, R>, AllocError> {
        Ok(SocketDial {
            rt,
            poll,
            events: Events::with_capacity(alloc, MOST_EVENTS)?,
            handed_out: None,
            alarm,
            rings: 0,
            under_way: HashMap::new(alloc),
            share,
        })
    }

    /// Asks the system for what is ready, and waits for it for `limit` ms at the most, unless a client is known to wait or
    /// the alarm was set off since it was last asked.
    fn ask(&mut self, limit: u64) {
        let limit = match &mut self.share {
            Some(share) => share.limit(limit),
            None => limit,
        };
        let rings = self.alarm.begin(limit > 0);
        let limit = if rings == self.rings { limit } else { 0 };
        self.rings = rings;
        let limit = Duration::from_millis(limit);
        let _waited = self.poll.poll(&mut self.events, Some(limit));
        self.alarm.end();
    }

    /// Begins to connect. The socket is watched at once, so that its outcome is reported under its key.
    fn begin(&mut self, key: usize, to: &Endpoint) -> Option<SocketLink> {
        let stream = TcpStream::connect(self.rt, socket_address(to)).ok()?;
        let mut link = SocketLink::of(stream);
        if link.watch(self.poll.registry(), token_of(key, true)) {
            Some(link)
        } else {
            None
        }
    }
}

impl<'a, R: Net + Log + rt::Clock> Dial for SocketDial<'a, R> {
    type Link = SocketLink;

    fn poll(&mut self, key: usize, to: &Endpoint) -> Dialled<SocketLink> {
        let (link, progress) = match self.under_way.remove(&key) {
            Some(mut link) => {
                let progress = link.progress();
                (link, progress)
            }
            None => match self.begin(key, to) {
                Some(mut link) => {
                    let progress = link.first_progress();
                    (link, progress)
                }
                None => return Dialled::Failed,
            },
        };
        match progress {
            DialProgress::Connected => Dialled::Link(link),
            DialProgress::Failed => Dialled::Failed,
            DialProgress::UnderWay => match self.under_way.insert(key, link) {
                Ok(_) => Dialled::Later,
                Err(_) => Dialled::Failed,
            },
        }
    }

    fn forget(&mut self, key: usize) {
        let _link = self.under_way.remove(&key);
    }

    fn accept(&mut self) -> Option<(u16, Pair, SocketLink)> {
        self.share.as_mut()?.accept()
    }

    fn watch(&mut self, key: usize, link: &mut SocketLink) -> bool {
        link.watch(self.poll.registry(), token_of(key, false))
    }

    fn wait(&mut self, limit: u64, ready: &mut Vec<Ready>) {
        let from = match self.handed_out {
            Some(count) => count,
            None => {
                self.ask(limit);
                0
            }
        };
        // The system reports a change once, so what finds no room now is kept for the next wait.
        for (place, event) in self.events.iter().enumerate().skip(from) {
            if let Some(listener) = listener_of(event.token()) {
                if let Some(share) = &mut self.share {
                    share.note_ready(listener);
                }
            } else if let Some(one) = ready_of(&event) {
                if ready.push(one).is_err() {
                    self.handed_out = Some(place);
                    return;
                }
            }
        }
        self.handed_out = None;
    }
}
