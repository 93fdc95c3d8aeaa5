//! A script is replayed: clients with headers in one piece, in two and in single bytes, clients without, and questions.
use crate::digest::with_bytes;
use crate::draw::{Draw, mixed};
use crate::job::JobFault;
use crate::serve::room;
use crate::texts;
use addr_core::{Addr, write_addr};
use device_core::{MemoryInput, MemoryOutput, Schedule};
use replay_core::run_replay;
use std::alloc::{AllocError, Global};
use text_core::decimal::append_decimal;

/// A header of version 1 in hexadecimal digits.
const HEADER: &[u8] =
    b"50524f58592054435034203230332e302e3131332e3737203139322e302e322e313020343030303120383434330d0a";

/// How many connections of a frontend are open at a time, on the average.
const OPEN: u64 = 100;

/// A script as it grows.
#[derive(Drop)]
struct Script {
    text: Vec<u8>,
    moment: u64,
}

impl Script {
    /// The beginning of a line about a connection.
    fn of_connection(&mut self, verb: &[u8], frontend: u64, serial: u64) -> Result<(), AllocError> {
        append_decimal(&mut self.text, self.moment)?;
        self.text.extend_from_slice(verb)?;
        append_decimal(&mut self.text, frontend)?;
        self.text.extend_from_slice(b".")?;
        append_decimal(&mut self.text, serial)
    }

    fn accept(&mut self, frontend: u64, source: &[u8]) -> Result<(), AllocError> {
        append_decimal(&mut self.text, self.moment)?;
        self.text.extend_from_slice(b" accept ")?;
        append_decimal(&mut self.text, frontend)?;
        self.text.extend_from_slice(b" ")?;
        self.text.extend_from_slice(source)?;
        self.text.extend_from_slice(b":40000 192.0.2.10:8000\n")
    }

    fn piece(&mut self, frontend: u64, serial: u64, digits: &[u8]) -> Result<(), AllocError> {
        self.of_connection(b" piece ", frontend, serial)?;
        self.text.extend_from_slice(b" ")?;
        self.text.extend_from_slice(digits)?;
        self.text.extend_from_slice(b"\n")
    }

    fn connected(&mut self, frontend: u64, serial: u64) -> Result<(), AllocError> {
        self.of_connection(b" connected ", frontend, serial)?;
        self.text.extend_from_slice(b"\n")
    }

    fn close(&mut self, frontend: u64, serial: u64) -> Result<(), AllocError> {
        self.of_connection(b" close ", frontend, serial)?;
        self.text.extend_from_slice(b" done\n")
    }

    fn ask(&mut self, backend: u64) -> Result<(), AllocError> {
        self.text.extend_from_slice(b"ask backend ")?;
        append_decimal(&mut self.text, backend)?;
        self.text.extend_from_slice(b"\n")
    }

    /// A header, in one piece, in two, of which the first has 40 digits, or in single bytes.
    fn header(&mut self, frontend: u64, serial: u64, kind: u64) -> Result<(), AllocError> {
        match kind {
            0 => {
                for digits in HEADER.chunks(2) {
                    self.piece(frontend, serial, digits)?;
                }
                Ok(())
            }
            1 => {
                let (first, rest) = HEADER.split_at(40);
                self.piece(frontend, serial, first)?;
                self.piece(frontend, serial, rest)
            }
            _ => self.piece(frontend, serial, HEADER),
        }
    }
}

/// A client comes to a frontend, and one that came earlier goes.
fn turn(script: &mut Script, draw: &mut Draw, serial: u64) -> Result<(), AllocError> {
    for frontend in 0..texts::TENANTS {
        script.moment = script.moment.saturating_add(draw.below(3));
        let number = mixed(draw.below(50_000));
        let source = write_addr(&Addr::V4((number & 0xffff_ffff) as u32));
        script.accept(frontend, source.as_str().as_bytes())?;
        if frontend % 4 == 3 {
            script.header(frontend, serial, draw.below(50))?;
        }
        script.connected(frontend, serial)?;
        if let Some(earlier) = serial.checked_sub(OPEN) {
            script.close(frontend, earlier.max(1))?;
        }
        if frontend % 16 == 0 {
            script.ask(frontend)?;
        }
    }
    Ok(())
}

pub fn run(alloc: Global, count: u64, seed: u64) -> Result<u64, JobFault> {
    let text = texts::tenants(alloc, seed, 2, 40)?;
    let mut draw = Draw::new(mixed(seed));
    let mut script = Script {
        text: Vec::new(alloc),
        moment: 0,
    };
    let turns = count / texts::TENANTS;
    for serial in 0..turns {
        turn(&mut script, &mut draw, serial.saturating_add(1))?;
    }
    let mut reader = MemoryInput::new(alloc, script.text.as_slice(), Schedule::plain(alloc))?;
    let mut lines = MemoryOutput::new(alloc, room(count), Schedule::plain(alloc))?;
    match run_replay(alloc, text.as_str(), &mut reader, &mut lines) {
        Ok(_replayed) => Ok(with_bytes(0, lines.as_slice())),
        Err(_) => Err(JobFault::Device),
    }
}
