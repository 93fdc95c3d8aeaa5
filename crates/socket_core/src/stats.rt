//! The listener of `serve --stats`: it answers requests for the state, one connection at a time.
use crate::addresses::{endpoint_of, socket_address};
use crate::clock::SystemClock;
use crate::listeners::ListenFault;
use crate::status_line::StatusAsker;
use addr_core::Endpoint;
use link_core::Clock;
use status_core::{Process, write_metrics};
use status_http::{MOST_HEAD_BYTES, RequestKind, kind_of_request, refusal_of, write_head};
use std::alloc::{AllocError, Global};
use std::io::{ErrorKind, Read, Write};
use std::net::{Net, Shutdown, TcpListener, TcpStream};
use std::time::Duration;
use std::{rt, thread};

/// How long a client may take for its request, in ms.
const REQUEST_TIME: u64 = 2_000;

/// How long it may take for the reply, in ms.
const REPLY_TIME: u64 = 5_000;

/// How long it is waited for the end of what a client sends that was refused, in ms.
const LINGER_TIME: u64 = 200;

/// How many pieces of it are read at the most.
const MOST_LEFT: u32 = 16;

/// How long nothing is accepted after the system refused to give a connection, in ms.
const PAUSE: u64 = 100;

/// A listener that is asked for the state.
#[derive(Drop)]
pub struct StatsListener {
    listener: TcpListener,
}

impl StatsListener {
    /// Listens there.
    pub fn bind<R: Net<Listener = TcpListener, Stream = TcpStream>>(
        rt: &R,
        at: &Endpoint,
    ) -> Result<StatsListener, ListenFault> {
        match TcpListener::bind(rt, socket_address(at)) {
            Ok(listener) => Ok(StatsListener { listener }),
            Err(reason) => Err(ListenFault::Bind {
                number: 0,
                at: *at,
                reason,
            }),
        }
    }

    /// Where it listens, as the system says.
    pub fn at(&self) -> Option<Endpoint> {
        let address = self.listener.local_addr().ok()?;
        Some(endpoint_of(&address))
    }

    /// Answers one client after another, for as long as the process is there. A client that asks for something else, is
    /// slow or sends nothing has no effect but on those that wait behind it, for some seconds.
    pub fn answer_all<R: rt::Clock>(
        &self,
        rt: &R,
        alloc: Global,
        process: &Process<'_>,
        asker: &mut StatusAsker,
    ) {
        let Ok(clock) = SystemClock::start(rt) else {
            return;
        };
        for stream in self.listener.incoming() {
            match stream {
                Ok(mut stream) => answer(rt, alloc, &clock, process, asker, &mut stream),
                Err(_) => thread::sleep(rt, Duration::from_millis(PAUSE)),
            }
        }
    }
}

/// How long is left until a moment, if anything is.
fn time_left(clock: &impl Clock, due: u64) -> Option<Duration> {
    let left = due.saturating_sub(clock.now());
    if left == 0 {
        None
    } else {
        Some(Duration::from_millis(left))
    }
}

/// Reads the head of a request; what it asks for. One that is not whole in time, or ends early, stays incomplete.
fn read_request(stream: &mut TcpStream, clock: &impl Clock, due: u64) -> RequestKind {
    let mut head = [0u8; MOST_HEAD_BYTES];
    let mut len = 0usize;
    for _read in 0..MOST_HEAD_BYTES {
        let from = len.min(MOST_HEAD_BYTES);
        if from == MOST_HEAD_BYTES {
            return RequestKind::TooLong;
        }
        let left = time_left(clock, due);
        if left.is_none() || stream.set_read_timeout(left).is_err() {
            return RequestKind::Incomplete;
        }
        match stream.read(&mut head[from..]) {
            Ok(0) => return RequestKind::Incomplete,
            Ok(count) => len = from.saturating_add(count),
            Err(error) if error.kind() == ErrorKind::Interrupted => continue,
            Err(_) => return RequestKind::Incomplete,
        }
        let kind = kind_of_request(head.get(..len).unwrap_or(&[]));
        if kind != RequestKind::Incomplete {
            return kind;
        }
    }
    RequestKind::TooLong
}

/// Writes all bytes, unless that takes too long.
fn send(stream: &mut TcpStream, clock: &impl Clock, due: u64, bytes: &[u8]) {
    let mut sent = 0usize;
    for _write in 0..u64::MAX {
        let rest = bytes.get(sent..).unwrap_or(&[]);
        let left = time_left(clock, due);
        if rest.is_empty() || left.is_none() || stream.set_write_timeout(left).is_err() {
            return;
        }
        match stream.write(rest) {
            Ok(0) => return,
            Ok(count) => sent = sent.saturating_add(count),
            Err(error) if error.kind() == ErrorKind::Interrupted => {}
            Err(_) => return,
        }
    }
}

/// Ends the writing, and reads what the client still sends, since the system would take the reply back if a connection were
/// closed with bytes that nobody read.
fn linger(stream: &mut TcpStream, clock: &impl Clock) {
    let due = clock.now().saturating_add(LINGER_TIME);
    let mut rest = [0u8; MOST_HEAD_BYTES];
    if stream.shutdown(Shutdown::Write).is_err() {
        return;
    }
    for _read in 0..MOST_LEFT {
        let left = time_left(clock, due);
        if left.is_none() || stream.set_read_timeout(left).is_err() {
            return;
        }
        match stream.read(&mut rest) {
            Ok(0) | Err(_) => return,
            Ok(_) => {}
        }
    }
}

/// The text of the state and the head of the reply, if the state is known.
fn make_reply<R: rt::Clock>(
    rt: &R,
    alloc: Global,
    process: &Process<'_>,
    asker: &mut StatusAsker,
) -> Result<Option<(Vec<u8>, Vec<u8>)>, AllocError> {
    let Some(status) = asker.ask(rt) else {
        return Ok(None);
    };
    let mut text = Vec::new(alloc);
    write_metrics(&mut text, process, &status)?;
    let mut head = Vec::new(alloc);
    write_head(&mut head, text.len())?;
    Ok(Some((head, text)))
}

/// Answers one client, and ends its connection.
fn answer<R: rt::Clock>(
    rt: &R,
    alloc: Global,
    clock: &impl Clock,
    process: &Process<'_>,
    asker: &mut StatusAsker,
    stream: &mut TcpStream,
) {
    let kind = read_request(stream, clock, clock.now().saturating_add(REQUEST_TIME));
    let made = if kind == RequestKind::Metrics {
        make_reply(rt, alloc, process, asker)
    } else {
        Ok(None)
    };
    let due = clock.now().saturating_add(REPLY_TIME);
    match made {
        Ok(Some((head, text))) => {
            send(stream, clock, due, head.as_slice());
            send(stream, clock, due, text.as_slice());
        }
        Ok(None) | Err(_) => {
            if let Some(refusal) = refusal_of(kind) {
                send(stream, clock, due, refusal);
                linger(stream, clock);
            }
        }
    }
}
