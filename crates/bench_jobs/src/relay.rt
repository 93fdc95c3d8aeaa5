//! Bytes of both sides of connections are passed on.
ghost use Rattle.std.specs.Prelude.{◌≡◌, ◌<◌, ◌≤◌, IfOk, length, vec_len};

use crate::digest::with_number;
use crate::draw::{Draw, mixed};
use crate::job::JobFault;
use device_core::{Failed, Got, Input, Output, PIECE_BYTES, Put};
use relay_core::{Burst, Drained, FlowFault, Relay, Way};
use std::alloc::{AllocError, Global};

/// The bytes that each direction holds at most.
const CAPACITY: usize = 65_536;

/// The room for the reads of a burst.
const PIECE: usize = 65_536;

/// How many bursts a connection has in each direction.
const BURSTS: u64 = 64;

/// Gives a drawn number of bytes at each read, or nothing at the moment.
#[derive(Drop)]
struct Source {
    bytes: Vec<u8>,
    draw: Draw,
    calls: u64,
    stalls: u64,
}

impl Input for Source {
    ghost use Rattle.std.specs.Prelude.{None};

    ghost left = { λ s. None };

    ghost failures = { λ s. 0 };

    ghost calls = { λ s. s.calls };

    ghost stalls = { λ s. s.stalls };

    fn read(&mut self, buffer: &mut [u8]) -> Result<Got, Failed> {
        self.calls = self.calls.saturating_add(1);
        let wanted = (self.draw.number() % 16_000).saturating_add(400) as usize;
        let count = buffer.len().min(self.bytes.len()).min(wanted);
        if count == 0 || wanted % 8 == 0 {
            self.stalls = self.stalls.saturating_add(1);
            return Ok(Got::Blocked);
        }
        self.stalls = 0;
        buffer[..count].copy_from_slice(&self.bytes[..count]);
        Ok(Got::Bytes(count))
    }
}

/// Takes some bytes at each write, or none at the moment, and writes each piece over the one before.
#[derive(Drop)]
struct Sink {
    bytes: Vec<u8>,
    draw: Draw,
    /// Of how many writes one is taken in part.
    partly: u64,
    digest: u64,
    calls: u64,
    stalls: u64,
    failures: u64,
}

/// How many of so many bytes are taken, by a sink of which one of so many writes is taken in part.
fn taken(draw: &mut Draw, partly: u64, count: usize) -> usize
    ensures { result ≤ count }
{
    let number = draw.number();
    if partly == 0 || number % partly > 0 {
        return count;
    }
    (mixed(number) as usize) % count.saturating_add(1)
}

impl Output for Sink {
    ghost use Rattle.std.specs.Prelude.{None};

    ghost held = { λ s. None };

    ghost failures = { λ s. s.failures };

    ghost calls = { λ s. s.calls };

    ghost stalls = { λ s. s.stalls };

    fn write(&mut self, bytes: &[u8]) -> Result<Put, Failed> {
        self.calls = self.calls.saturating_add(1);
        let count = taken(
            &mut self.draw,
            self.partly,
            bytes.len().min(self.bytes.len()),
        );
        if count == 0 {
            self.stalls = self.stalls.saturating_add(1);
            return Ok(Put::Blocked);
        }
        self.stalls = 0;
        self.bytes[..count].copy_from_slice(&bytes[..count]);
        let last = bytes[count - 1];
        self.digest = with_number(
            self.digest,
            (count as u64).wrapping_mul(256) ^ u64::from(last),
        );
        Ok(Put::Bytes(count))
    }
}

/// So many bytes, which are drawn.
fn drawn_bytes(alloc: Global, seed: u64) -> Result<Vec<u8>, AllocError> {
    let mut draw = Draw::new(seed);
    let mut all = Vec::new(alloc);
    for _byte in 0..PIECE {
        all.push((draw.number() & 0xff) as u8)?;
    }
    Ok(all)
}

fn source_of(alloc: Global, seed: u64) -> Result<Source, AllocError> {
    Ok(Source {
        bytes: drawn_bytes(alloc, seed)?,
        draw: Draw::new(mixed(seed)),
        calls: 0,
        stalls: 0,
    })
}

fn sink_of(alloc: Global, seed: u64, partly: u64) -> Result<Sink, AllocError> {
    let mut bytes = Vec::new(alloc);
    bytes.resize(CAPACITY.saturating_add(PIECE), 0)?;
    Ok(Sink {
        bytes,
        draw: Draw::new(seed),
        partly,
        digest: 0,
        calls: 0,
        stalls: 0,
        failures: 0,
    })
}

/// The digest with what a burst answered.
fn with_burst(digest: u64, answer: &Result<Burst, FlowFault>) -> u64 {
    match answer {
        Ok(burst) => {
            let drained = match burst.drained {
                Drained::Bytes(count) => count as u64,
                _ => u64::MAX,
            };
            with_number(with_number(digest, burst.read as u64), drained)
        }
        Err(_) => with_number(digest, 1),
    }
}

/// A connection is relayed from its header on.
fn connection(
    relay: &mut Relay,
    sources: (&mut Source, &mut Source),
    sinks: (&mut Sink, &mut Sink),
    piece: &mut [u8],
) -> u64
    requires { PIECE ≤ length piece.old }
{
    let mut digest = 0;
    for _burst in 0..BURSTS {
        let forth = relay.burst(Way::Forth, sources.0, sinks.0, piece, PIECE_BYTES);
        let back = relay.burst(Way::Back, sources.1, sinks.1, piece, PIECE_BYTES);
        digest = with_burst(with_burst(digest, &forth), &back);
    }
    digest
}

fn piece(alloc: Global) -> Result<Vec<u8>, AllocError>
    ensures { IfOk result (λ v. vec_len v ≡ PIECE) }
{
    let mut all = Vec::new(alloc);
    all.resize(PIECE, 0)?;
    Ok(all)
}

pub fn run(alloc: Global, count: u64, seed: u64) -> Result<u64, JobFault> {
    let (mut client, mut server) = (source_of(alloc, seed)?, source_of(alloc, mixed(seed))?);
    let mut to_server = sink_of(alloc, seed, 0)?;
    let mut to_client = sink_of(alloc, mixed(seed), 3)?;
    let mut piece = piece(alloc)?;
    let mut digest = seed;
    for _connection in 0..count {
        let mut relay = Relay::new(alloc, CAPACITY, b"header", b"rest")?;
        let got = connection(
            &mut relay,
            (&mut client, &mut server),
            (&mut to_server, &mut to_client),
            &mut piece,
        );
        digest = with_number(digest, got);
    }
    Ok(with_number(with_number(digest, to_server.digest), to_client.digest))
}
