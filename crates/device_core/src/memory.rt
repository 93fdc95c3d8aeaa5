//! Devices in memory, for tests. Their room is taken when they are made.
ghost use Rattle.std.specs.Prelude.{◌≡◌, ◌≤◌, ◌++◌, length, drop};

use crate::device::{Failed, Got, Input, Output, Put};
use crate::schedule::{Schedule, Turn};
use crate::tally::CallTally;
use std::alloc::{AllocError, Global};
use std::marker::Model;

/// Reads bytes that are in memory.
#[derive(Drop)]
pub struct MemoryInput {
    bytes: Vec<u8>,
    at: usize,
    schedule: Schedule,
    tally: CallTally,
}

impl Model for MemoryInput {
    ghost use Rattle.std.specs.Prelude.{◌≤◌, drop, vec_len};
    ghost use Rattle.device_core.specs.Memory.{MemoryReader};

    ghost Value = { MemoryReader };

    ghost view = { λ i. record { left = drop i.at i.bytes.items; turns = i.schedule; failures = i.tally.failures; calls = i.tally.calls; stalls = i.tally.stalls } };

    ghost invariant = { λ i. i.at ≤ vec_len i.bytes };
}

impl MemoryInput {
    ghost use Rattle.std.specs.Prelude.{◌<◌, IfOk, length};
    ghost use Rattle.device_core.specs.Memory.{read_answer, got_count, IsFairRead};

    pub fn new(alloc: Global, bytes: &[u8], schedule: Schedule) -> Result<MemoryInput, AllocError>
        ensures { IfOk result (λ i. i ≡ record { left = bytes.now; turns = schedule; failures = 0; calls = 0; stalls = 0 }) }
    {
        let mut copy = Vec::new(alloc);
        copy.extend_from_slice(bytes)?;
        Ok(MemoryInput {
            bytes: copy,
            at: 0,
            schedule,
            tally: CallTally::new(),
        })
    }

    /// The bytes that were not read.
    pub fn left(&self) -> &[u8]
        ensures { result.now ≡ self.now.left }
    {
        &self.bytes[self.at..]
    }

    fn answer(&self, room: usize) -> Result<Got, Failed>
        ensures answer { result ≡ read_answer self.now room }
        ensures within { got_count result ≤ length self.now.left }
        ensures fits { got_count result ≤ room }
        ensures fair { 0 < room → IsFairRead result self.now.left }
    {
        match self.schedule.turn(self.tally.calls) {
            Turn::Fails => Err(Failed),
            Turn::Blocks => Ok(Got::Blocked),
            Turn::Moves => {
                let left = self.bytes.len() - self.at;
                if left == 0 {
                    Ok(Got::End)
                } else {
                    Ok(Got::Bytes(left.min(self.schedule.per_call()).min(room)))
                }
            }
        }
    }
}

impl MemoryInput {
    ghost use Rattle.std.specs.Prelude.{take, ◌<◌};
    ghost use Rattle.device_core.specs.Memory.{read_answer, after_read, got_count, IsFairRead};

    fn give(&mut self, buffer: &mut [u8]) -> Result<Got, Failed>
        requires { 0 < length buffer.old }
        ensures answer { result ≡ read_answer self.old (length buffer.old) }
        ensures bytes { buffer.new ≡ take (got_count result) self.old.left ++ drop (got_count result) buffer.old }
        ensures after { self.new ≡ after_read self.old result }
        ensures within { got_count result ≤ length self.old.left }
        ensures fits { got_count result ≤ length buffer.old }
        ensures fair { IsFairRead result self.old.left }
    {
        let answer = self.answer(buffer.len());
        if let Ok(Got::Bytes(count)) = answer {
            copy_front(buffer, &self.bytes[self.at..self.at + count]);
            self.at += count;
        }
        self.tally.count_read(answer);
        answer
    }
}

impl Input for MemoryInput {
    ghost use Rattle.std.specs.Prelude.{Some, take, ◌<◌};
    ghost use Rattle.device_core.specs.Device.{Reads, failures_after, raised, read_stalls};
    ghost use Rattle.device_core.specs.Memory.{read_answer, after_read, got_count};

    ghost left = { λ i. Some i.left };

    ghost failures = { λ i. i.failures };

    ghost calls = { λ i. i.calls };

    ghost stalls = { λ i. i.stalls };

    fn read(&mut self, buffer: &mut [u8]) -> Result<Got, Failed>
        requires { 0 < length buffer.old }
        ensures moved { Reads result (Some self.old.left) (Some self.new.left) buffer.new }
        ensures failures { self.new.failures ≡ failures_after result self.old.failures }
        ensures calls { self.new.calls ≡ raised self.old.calls }
        ensures stalls { self.new.stalls ≡ read_stalls result self.old.stalls }

        // What it answers, and what it leaves, to the last bit.
        ensures answer { result ≡ read_answer self.old (length buffer.old) }
        ensures bytes { buffer.new ≡ take (got_count result) self.old.left ++ drop (got_count result) buffer.old }
        ensures after { self.new ≡ after_read self.old result }
    {
        self.give(buffer)
    }
}

/// Writes the bytes over the front of the buffer.
fn copy_front(buffer: &mut [u8], bytes: &[u8])
    requires { length bytes.now ≤ length buffer.old }
    ensures { buffer.new ≡ bytes.now ++ drop (length bytes.now) buffer.old }
{
    let count = bytes.len();
    buffer[..count].copy_from_slice(bytes);
}

/// Writes bytes into memory. A write that finds no room has failed.
#[derive(Drop)]
pub struct MemoryOutput {
    bytes: Vec<u8>,
    room: usize,
    schedule: Schedule,
    tally: CallTally,
}

impl Model for MemoryOutput {
    ghost use Rattle.std.specs.Prelude.{◌≤◌, vec_len, vec_capacity};
    ghost use Rattle.device_core.specs.Memory.{MemoryWriter};

    ghost Value = { MemoryWriter };

    ghost view = { λ o. record { held = o.bytes.items; room = o.room; turns = o.schedule; failures = o.tally.failures; calls = o.tally.calls; stalls = o.tally.stalls } };

    ghost invariant = { λ o. (vec_len o.bytes ≤ o.room) × (o.room ≤ vec_capacity o.bytes) };
}

impl MemoryOutput {
    ghost use Rattle.std.specs.Prelude.{◌<◌, IfOk, [], length, ◌+◌};
    ghost use Rattle.device_core.specs.Memory.{write_answer, put_count, IsFairWrite};

    /// A writer that takes `room` bytes in all.
    pub fn new(alloc: Global, room: usize, schedule: Schedule) -> Result<MemoryOutput, AllocError>
        ensures { IfOk result (λ o. o ≡ record { held = []; room = room; turns = schedule; failures = 0; calls = 0; stalls = 0 }) }
    {
        let bytes = Vec::with_capacity(alloc, room)?;
        Ok(MemoryOutput {
            bytes,
            room,
            schedule,
            tally: CallTally::new(),
        })
    }

    /// The bytes that were written.
    pub fn as_slice(&self) -> &[u8]
        ensures { result.now ≡ self.now.held }
    {
        self.bytes.as_slice()
    }

    fn answer(&self, count: usize) -> Result<Put, Failed>
        ensures answer { result ≡ write_answer self.now count }
        ensures within { length self.now.held + put_count result ≤ self.now.room }
        ensures fits { put_count result ≤ count }
        ensures fair { 0 < count → IsFairWrite result }
    {
        match self.schedule.turn(self.tally.calls) {
            Turn::Fails => Err(Failed),
            Turn::Blocks => Ok(Put::Blocked),
            Turn::Moves => {
                let room = self.room - self.bytes.len();
                if room == 0 {
                    Err(Failed)
                } else {
                    Ok(Put::Bytes(room.min(self.schedule.per_call()).min(count)))
                }
            }
        }
    }
}

impl Output for MemoryOutput {
    ghost use Rattle.std.specs.Prelude.{Some, ◌<◌};
    ghost use Rattle.device_core.specs.Device.{Writes, failures_after, raised, write_stalls};
    ghost use Rattle.device_core.specs.Memory.{write_answer, after_write};

    ghost held = { λ o. Some o.held };

    ghost failures = { λ o. o.failures };

    ghost calls = { λ o. o.calls };

    ghost stalls = { λ o. o.stalls };

    fn write(&mut self, bytes: &[u8]) -> Result<Put, Failed>
        requires { 0 < length bytes.now }
        ensures moved { Writes result (Some self.old.held) (Some self.new.held) bytes.now }
        ensures failures { self.new.failures ≡ failures_after result self.old.failures }
        ensures calls { self.new.calls ≡ raised self.old.calls }
        ensures stalls { self.new.stalls ≡ write_stalls result self.old.stalls }

        // What it answers, and what it leaves, to the last bit.
        ensures answer { result ≡ write_answer self.old (length bytes.now) }
        ensures after { self.new ≡ after_write self.old bytes.now result }
    {
        let answer = self.answer(bytes.len());
        if let Ok(Put::Bytes(count)) = answer {
            self.bytes.extend_from_slice(&bytes[..count]).unwrap();
        }
        self.tally.count_write(answer);
        answer
    }
}
