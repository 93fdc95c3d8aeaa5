//! Devices in memory, how their calls go, and what they should come to.
use device_core::{Calls, MemoryInput, MemoryOutput, Schedule};
use std::alloc::{AllocError, Global};

const NONE: [Calls; 0] = [];

/// How many bytes a call moves at most, unless a test says otherwise.
pub const PER_CALL: usize = 13;

/// How the calls of a device go. They are counted from 0.
#[derive(Clone, Copy, Debug)]
pub enum Course {
    /// All is moved at once.
    Plain,
    /// The call of a number fails.
    Fails(u64),
    /// The call of a number fails, and each other moves one byte.
    FailsOfBytes(u64),
    /// All calls from that number on are blocked.
    Blocked(u64),
    /// A call moves so many bytes at most. Blocked are those below 9, and those from 11 on below that number.
    Interrupted(usize, u64),
}

fn failing(alloc: Global, per_call: usize, at: u64) -> Result<Schedule, AllocError> {
    let calls = [Calls {
        from: at,
        to: at.saturating_add(1),
    }];
    Schedule::new(alloc, per_call.max(1), &NONE, &calls)
}

fn interrupted(alloc: Global, per_call: usize, to: u64) -> Result<Schedule, AllocError> {
    let calls = [Calls { from: 0, to: 9 }, Calls { from: 11, to }];
    Schedule::new(alloc, per_call.max(1), &calls, &NONE)
}

fn schedule(alloc: Global, course: Course) -> Result<Schedule, AllocError> {
    match course {
        Course::Plain => Ok(Schedule::plain(alloc)),
        Course::Fails(at) => failing(alloc, PER_CALL, at),
        Course::FailsOfBytes(at) => failing(alloc, 1, at),
        Course::Blocked(from) => {
            let calls = [Calls { from, to: u64::MAX }];
            Schedule::new(alloc, PER_CALL, &calls, &NONE)
        }
        Course::Interrupted(per_call, to) => interrupted(alloc, per_call, to),
    }
}

/// A reader of the text.
pub fn reader_of(alloc: Global, text: &[u8], course: Course) -> Result<MemoryInput, AllocError> {
    MemoryInput::new(alloc, text, schedule(alloc, course)?)
}

/// A writer with room for 4,096 bytes.
pub fn writer_of(alloc: Global, course: Course) -> Result<MemoryOutput, AllocError> {
    MemoryOutput::new(alloc, 4096, schedule(alloc, course)?)
}

/// How many bytes so many calls move, of a text of that length.
pub fn moved_by(calls: u64, length: usize) -> usize {
    let calls = usize::try_from(calls).unwrap_or(usize::MAX);
    calls.saturating_mul(PER_CALL).min(length)
}

/// How many calls move a text of that length.
pub fn calls_for(length: usize) -> u64 {
    length.div_ceil(PER_CALL) as u64
}

/// How many bytes were written, if they are the first ones of the text.
pub fn front_of(written: &[u8], text: &[u8]) -> Option<usize> {
    if text.starts_with(written) {
        Some(written.len())
    } else {
        None
    }
}

/// How many lines are whole.
pub fn lines_in(text: &[u8]) -> usize {
    let mut lines = 0usize;
    for byte in text {
        if *byte == b'\n' {
            lines = lines.saturating_add(1);
        }
    }
    lines
}

/// How many bytes the first lines have.
pub fn length_of(text: &[u8], lines: usize) -> usize {
    let mut left = lines;
    let mut length = 0usize;
    for byte in text {
        if left == 0 {
            return length;
        }
        length = length.saturating_add(1);
        if *byte == b'\n' {
            left -= 1;
        }
    }
    length
}
