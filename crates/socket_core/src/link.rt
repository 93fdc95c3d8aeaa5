//! A connection of bytes over a socket.
ghost use Rattle.std.specs.Prelude.{◌<◌, length};

use crate::fd_budget::FdPermit;
use device_core::{Failed, Got, Input, Output, Put, StdDevice};
use link_core::Link;
use mio::net::TcpStream;
use mio::{Interest, Registry, Token};
use std::io;
use std::io::{Read, Write};
use std::net::Shutdown;

/// A socket of a connection. Dropping it ends the connection.
#[derive(Drop)]
pub struct Socket {
    stream: TcpStream,
    sending: Sending,
}

/// How far a socket has come with sending. A small message waits for the answer to the one before it (RFC 896), unless
/// `TCP_NODELAY` is set. The first message has none before it, so a short connection does without.
#[derive(Clone, Copy, Debug, PartialEq, Eq)]
enum Sending {
    /// Nothing was sent.
    First,
    /// Something was sent.
    Second,
    /// No message waits for another, where the system does that.
    AtOnce,
}

impl Read for Socket {
    fn read(&mut self, buf: &mut [u8]) -> io::Result<usize> {
        self.stream.read(buf)
    }
}

impl Write for Socket {
    fn write(&mut self, buf: &[u8]) -> io::Result<usize> {
        self.sending = match self.sending {
            Sending::First => Sending::Second,
            Sending::Second => {
                let _is_set = self.stream.set_nodelay(true);
                Sending::AtOnce
            }
            Sending::AtOnce => Sending::AtOnce,
        };
        self.stream.write(buf)
    }

    fn flush(&mut self) -> io::Result<()> {
        Ok(())
    }
}

/// A socket as a connection that does not wait.
#[derive(Drop)]
pub struct SocketLink {
    device: StdDevice<Socket>,
    // Of a client.
    permit: Option<FdPermit>,
}

impl SocketLink {
    /// The link of a stream. Small messages are sent without delay, where the system does that.
    pub fn of(stream: TcpStream) -> SocketLink {
        let socket = Socket {
            stream,
            sending: Sending::First,
        };
        SocketLink {
            device: StdDevice::of(socket),
            permit: None,
        }
    }

    /// The link of a client, which keeps its permit for as long as it is there.
    pub fn with_permit(self, permit: FdPermit) -> SocketLink {
        let SocketLink { device, permit: _ } = self;
        SocketLink {
            device,
            permit: Some(permit),
        }
    }

    /// Has a poll report the socket under that token when it can be read or written; whether that went well.
    pub fn watch(&mut self, registry: &Registry, token: Token) -> bool {
        let both = Interest::READABLE | Interest::WRITABLE;
        let stream = &mut self.device.get_mut().stream;
        registry.register(stream, token, both).is_ok()
    }

    /// How far a connection is that was begun just now. A failure is reported by the poll, and not yet here.
    pub fn first_progress(&mut self) -> DialProgress {
        match self.device.get_mut().stream.peer_addr() {
            Ok(_) => DialProgress::Connected,
            Err(_) => DialProgress::UnderWay,
        }
    }

    /// How far a connection is of which the poll reported something.
    pub fn progress(&mut self) -> DialProgress {
        let stream = &mut self.device.get_mut().stream;
        // The system tells an error once, and after that a connection that failed reads as one that ended. So this
        // question is the first.
        if !matches!(stream.take_error(), Ok(None)) {
            return DialProgress::Failed;
        }
        self.first_progress()
    }
}

/// How far a connection is that was begun.
#[derive(Clone, Copy, Debug, PartialEq, Eq)]
pub enum DialProgress {
    Connected,
    UnderWay,
    Failed,
}

impl Input for SocketLink {
    ghost use Rattle.std.specs.Prelude.{◌≡◌, None};
    ghost use Rattle.device_core.specs.Device.{Reads, failures_after, raised, read_stalls};

    ghost left = { λ _. None };

    ghost failures = { λ link. link.device.failures };

    ghost calls = { λ link. link.device.calls };

    ghost stalls = { λ link. link.device.stalls };

    fn read(&mut self, buffer: &mut [u8]) -> Result<Got, Failed> {
        self.device.read(buffer)
    }
}

impl Output for SocketLink {
    ghost use Rattle.std.specs.Prelude.{◌≡◌, None};
    ghost use Rattle.device_core.specs.Device.{Writes, failures_after, raised, write_stalls};

    ghost held = { λ _. None };

    ghost failures = { λ link. link.device.failures };

    ghost calls = { λ link. link.device.calls };

    ghost stalls = { λ link. link.device.stalls };

    fn write(&mut self, bytes: &[u8]) -> Result<Put, Failed> {
        self.device.write(bytes)
    }
}

impl Link for SocketLink {
    fn shut(&mut self) -> bool {
        let stream = &mut self.device.get_mut().stream;
        stream.shutdown(Shutdown::Write).is_ok()
    }

    fn has_left(&mut self) -> bool {
        let stream = &mut self.device.get_mut().stream;
        matches!(stream.peek(&mut [0; 1]), Ok(0))
    }
}
