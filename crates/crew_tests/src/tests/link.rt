//! Links in memory, and a dial that hands them out.
ghost use Rattle.std.specs.Prelude.{None};

use crate::tests::stage::{Mark, Stage, sleep};
use addr_core::{Endpoint, Pair};
use crew_core::{Dial, Dialled, Link, Ready};
use device_core::{Failed, Got, Input, Output, Put};
use std::sync::Arc;
use std::time::Clock;

/// What is sent.
#[derive(Clone, Copy, Debug, PartialEq, Eq)]
pub enum Text {
    Nothing,
    /// The first word of a header.
    Word,
    /// A header of version 1, for a connection from 203.0.113.7:4000 to 198.51.100.1:443.
    Header,
    /// That header, and a request.
    Request,
    /// The request after the header of version 2 for the same addresses.
    OtherRequest,
    /// The answer to the request.
    Answer,
}

impl Text {
    fn bytes(self) -> &'static [u8] {
        match self {
            Text::Nothing => b"",
            Text::Word => b"PROXY ",
            Text::Header => b"PROXY TCP4 203.0.113.7 198.51.100.1 4000 443\r\n",
            Text::Request => {
                b"PROXY TCP4 203.0.113.7 198.51.100.1 4000 443\r\nGET / HTTP/1.0\r\n\r\n"
            }
            Text::OtherRequest => {
                b"\r\n\r\n\x00\r\nQUIT\n\x21\x11\x00\x0c\xcb\x00\x71\x07\xc6\x33\x64\x01\x0f\xa0\x01\xbbGET / HTTP/1.0\r\n\r\n"
            }
            Text::Answer => b"HTTP/1.0 200 OK\r\n\r\n",
        }
    }
}

/// What a link does.
#[derive(Clone, Copy, Debug)]
pub struct Script {
    /// What it gives once that mark is set.
    pub gives: Text,
    pub gives_after: Option<Mark>,
    /// Then it ends once that mark is set, or fails.
    pub ends_after: Option<Mark>,
    pub fails: bool,
    /// What it should be sent, and the mark that is set then.
    pub expects: Text,
    pub comes: Mark,
    /// The mark that is set when it is dropped.
    pub drops: Option<Mark>,
}

/// A link in memory, with the counts of its calls.
pub struct FakeLink {
    stage: Arc<Stage>,
    script: Script,
    given: usize,
    seen: usize,
    failures: u64,
    calls: u64,
    stalls: u64,
}

impl FakeLink {
    pub fn new(stage: Arc<Stage>, script: Script) -> FakeLink {
        FakeLink {
            stage,
            script,
            given: 0,
            seen: 0,
            failures: 0,
            calls: 0,
            stalls: 0,
        }
    }
}

impl Input for FakeLink {
    ghost left = { λ l. None };

    ghost failures = { λ l. l.failures };

    ghost calls = { λ l. l.calls };

    ghost stalls = { λ l. l.stalls };

    fn read(&mut self, buffer: &mut [u8]) -> Result<Got, Failed> {
        self.calls = self.calls.saturating_add(1);
        let left = self.script.gives.bytes().get(self.given..).unwrap_or(&[]);
        let begins = self.stage.has_come(self.script.gives_after);
        if !begins || (left.is_empty() && !self.stage.has_come(self.script.ends_after)) {
            self.stalls = self.stalls.saturating_add(1);
            return Ok(Got::Blocked);
        }
        self.stalls = 0;
        let count = left.len().min(buffer.len());
        if count > 0 {
            buffer[..count].copy_from_slice(&left[..count]);
            self.given = self.given.saturating_add(count);
            return Ok(Got::Bytes(count));
        }
        if self.script.fails {
            self.failures = self.failures.saturating_add(1);
            return Err(Failed);
        }
        Ok(Got::End)
    }
}

impl Output for FakeLink {
    ghost held = { λ l. None };

    ghost failures = { λ l. l.failures };

    ghost calls = { λ l. l.calls };

    ghost stalls = { λ l. l.stalls };

    fn write(&mut self, bytes: &[u8]) -> Result<Put, Failed> {
        let until = self.seen.saturating_add(bytes.len());
        let expected = self.script.expects.bytes();
        if expected.get(self.seen..until) != Some(bytes) {
            self.stage.set(Mark::Wrong);
        }
        self.seen = until;
        if until == expected.len() {
            self.stage.set(self.script.comes);
        }
        self.calls = self.calls.saturating_add(1);
        self.stalls = 0;
        Ok(Put::Bytes(bytes.len()))
    }
}

impl Link for FakeLink {
    fn shut(&mut self) -> bool {
        true
    }

    fn has_left(&mut self) -> bool {
        let is_read = self.given >= self.script.gives.bytes().len();
        is_read && !self.script.fails && self.stage.has_come(self.script.ends_after)
    }
}

impl Drop for FakeLink {
    fn drop(self) {
        let FakeLink {
            stage,
            script,
            given: _,
            seen: _,
            failures: _,
            calls: _,
            stalls: _,
        } = self;
        if let Some(mark) = script.drops {
            stage.set(mark);
        }
    }
}

/// How many keys a dial watches at the most.
const KEYS: usize = 4;

/// A dial that reaches a server of that script, if there is one. The first dials fail. Clients may wait at its listener.
#[derive(Drop)]
pub struct FakeDial<H: Clock> {
    sleeper: H,
    stage: Arc<Stage>,
    server: Script,
    fails: u32,
    is_late: bool,
    /// The clients that wait, the last one first, each with its pair.
    waiting: Vec<(Pair, FakeLink)>,
    clients: [bool; 4],
    servers: [bool; 4],
}

impl<H: Clock> FakeDial<H> {
    /// The first dials fail, and where it is late each answer but the first has to be asked for again.
    pub fn new(
        sleeper: H,
        stage: Arc<Stage>,
        server: Script,
        fails: u32,
        is_late: bool,
        waiting: Vec<(Pair, FakeLink)>,
    ) -> FakeDial<H> {
        FakeDial {
            sleeper,
            stage,
            server,
            fails,
            is_late,
            waiting,
            clients: [false; 4],
            servers: [false; 4],
        }
    }
}

/// Says that a link can be read and written, as far as there is room to say so.
fn report(ready: &mut Vec<Ready>, key: usize, of_server: bool) {
    if ready.len() < ready.capacity() {
        ready.push_reserved(Ready {
            key,
            of_server,
            reads: true,
            writes: true,
            is_closed: false,
            is_reset: false,
        });
    }
}

impl<H: Clock> Dial for FakeDial<H> {
    type Link = FakeLink;

    fn poll(&mut self, key: usize, _to: &Endpoint) -> Dialled<FakeLink> {
        if self.is_late {
            self.is_late = false;
            return Dialled::Later;
        }
        if self.fails > 0 {
            self.fails -= 1;
            return Dialled::Failed;
        }
        let Ok(stage) = Arc::try_clone(&self.stage) else {
            return Dialled::Failed;
        };
        if key < KEYS {
            self.servers[key] = true;
        }
        Dialled::Link(FakeLink::new(stage, self.server))
    }

    fn forget(&mut self, key: usize) {
        if key < KEYS {
            self.clients[key] = false;
            self.servers[key] = false;
        }
    }

    fn accept(&mut self) -> Option<(u16, Pair, FakeLink)> {
        let (real, link) = self.waiting.pop()?;
        Some((0, real, link))
    }

    fn watch(&mut self, key: usize, _link: &mut FakeLink) -> bool {
        if key < KEYS {
            self.clients[key] = true;
        }
        key < KEYS
    }

    fn wait(&mut self, _limit: u64, ready: &mut Vec<Ready>) {
        sleep(&self.sleeper);
        self.stage.go_on();
        for key in 0..KEYS {
            if self.clients[key] {
                report(ready, key, false);
            }
            if self.servers[key] {
                report(ready, key, true);
            }
        }
    }
}
