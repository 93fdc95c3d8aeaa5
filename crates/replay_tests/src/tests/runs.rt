//! Replays over devices in memory.
use crate::tests::devices::{Course, front_of, reader_of, writer_of};
use device_core::{MemoryInput, MemoryOutput};
use replay_core::{ReplayFault, Replayed, run_replay};
use std::alloc::{AllocError, Global};

/// Its third line rejects 198.51.100.0/24.
pub const CONFIG: &str =
    "frontend f\nbind 127.0.0.1:9000\ntcp-request connection reject if { src 198.51.100.0/24 }\ndefault_backend b\nbackend b\nserver s 10.0.0.20:80\n";

/// How a replay ends, as a word and a number, and how many bytes of the answers it wrote, if it wrote nothing else. The
/// number is how many lines it answered, or the line of its fault.
pub type End = (&'static str, u64, Option<usize>);

fn word_of(replayed: Result<Replayed, ReplayFault>) -> (&'static str, u64) {
    match replayed {
        Ok(done) => ("end", done.lines),
        Err(ReplayFault::Config(_)) => ("config", 0),
        Err(ReplayFault::Format(line)) => ("format", line),
        Err(ReplayFault::TooLong(line)) => ("too long", line),
        Err(ReplayFault::Read) => ("read", 0),
        Err(ReplayFault::Write) => ("write", 0),
        Err(ReplayFault::NoMemory) => ("memory", 0),
    }
}

fn end_of(
    alloc: Global,
    reader: &mut MemoryInput,
    writer: &mut MemoryOutput,
    answers: &[u8],
) -> End {
    let (word, number) = word_of(run_replay(alloc, CONFIG, reader, writer));
    (word, number, front_of(writer.as_slice(), answers))
}

/// Replays a script, of which the answers should be these.
pub fn replay(
    alloc: Global,
    script: &[u8],
    answers: &[u8],
    reads: Course,
    writes: Course,
) -> Result<End, AllocError> {
    let mut reader = reader_of(alloc, script, reads)?;
    let mut writer = writer_of(alloc, writes)?;
    Ok(end_of(alloc, &mut reader, &mut writer, answers))
}

/// The same where all calls go well.
pub fn plain_replay(alloc: Global, script: &[u8], answers: &[u8]) -> Result<End, AllocError> {
    replay(alloc, script, answers, Course::Plain, Course::Plain)
}
