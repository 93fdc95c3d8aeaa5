//! A reader and a writer in memory.
ghost use Rattle.std.specs.Prelude.{◌<◌};

use device_core::{Calls, MemoryInput, MemoryOutput, Schedule};
use std::alloc::{AllocError, Global};

/// No calls.
pub const NONE: [Calls; 0] = [];

/// A call moves as much as it can.
pub const ALL: usize = usize::MAX;

/// How the calls of two devices go: how many bytes one moves at most, and which are blocked or fail.
#[derive(Drop)]
pub struct Plan<'a> {
    pub reads: usize,
    pub writes: usize,
    pub blocked: &'a [Calls],
    pub failing: &'a [Calls],
    ghost some_are_read: { 0 < reads },
    ghost some_are_written: { 0 < writes },
}

#[derive(Drop)]
pub struct Devices {
    pub input: MemoryInput,
    pub output: MemoryOutput,
}

/// A reader of the text, and a writer that has room for so many bytes.
pub fn make_devices(
    alloc: Global,
    text: &[u8],
    room: usize,
    plan: &Plan<'_>,
) -> Result<Devices, AllocError> {
    let reads = Schedule::new(alloc, plan.reads, plan.blocked, plan.failing)?;
    let writes = Schedule::new(alloc, plan.writes, plan.blocked, plan.failing)?;
    Ok(Devices {
        input: MemoryInput::new(alloc, text, reads)?,
        output: MemoryOutput::new(alloc, room, writes)?,
    })
}
