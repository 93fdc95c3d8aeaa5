//! One connection through a balancer, of which the reader or the writer fails.
use crate::tests::devices::{Course, front_of, reader_of, writer_of};
use crate::tests::writing::pair_from;
use device_core::{MemoryInput, MemoryOutput};
use pipe_core::{PipeEnd, PipeFault, run_pipe};
use std::alloc::{AllocError, Global};

const CONFIG: &str =
    "frontend web\nbind 127.0.0.1:8080 accept-proxy\ndefault_backend app\nbackend app\nserver s 10.0.0.11:443 send-proxy-v2\n";

/// A header of 46 bytes and a request of 18.
const INPUT: &[u8] = b"PROXY TCP4 203.0.113.7 198.51.100.1 4000 443\r\nGET / HTTP/1.0\r\n\r\n";

/// The header of version 2 for the same pair, of 28 bytes, and the request.
const OUTPUT: &[u8] =
    b"\r\n\r\n\0\r\nQUIT\n\x21\x11\x00\x0c\xcb\x00\x71\x07\xc6\x33\x64\x01\x0f\xa0\x01\xbbGET / HTTP/1.0\r\n\r\n";

/// How it ends, as a word, and how many bytes of the output were written, if nothing else was.
type End = (&'static str, Option<usize>);

fn word_of(end: Result<PipeEnd, PipeFault>) -> &'static str {
    match end {
        Ok(PipeEnd::Offered(_)) => "offered",
        Ok(PipeEnd::Refused(_)) => "refused",
        Ok(PipeEnd::Unfinished) => "unfinished",
        Err(PipeFault::Read) => "read",
        Err(PipeFault::Write) => "write",
        Err(PipeFault::NoMemory) => "memory",
        Err(_) => "config",
    }
}

fn end_of(alloc: Global, reader: &mut MemoryInput, writer: &mut MemoryOutput) -> End {
    let Some(real) = pair_from(0x0a01_0101, 5000) else {
        return ("no pair", None);
    };
    let end = run_pipe(alloc, CONFIG, b"web", real, reader, writer);
    (word_of(end), front_of(writer.as_slice(), OUTPUT))
}

fn pipe(alloc: Global, reads: Course, writes: Course) -> Result<End, AllocError> {
    let mut reader = reader_of(alloc, INPUT, reads)?;
    let mut writer = writer_of(alloc, writes)?;
    Ok(end_of(alloc, &mut reader, &mut writer))
}

/// What it comes to where a read fails after so many bytes: nothing before the header is whole, and then the header
/// that is sent and what was read after the other one.
fn after_bytes(read: usize) -> End {
    if read < 46 {
        ("read", Some(0))
    } else {
        ("read", Some(read.saturating_sub(18)))
    }
}

/// Each read, that of the end too, fails in turn.
#[test]
fn each_read_of_a_pipe_fails_in_turn(rt: HostRuntime) {
    for at in 0..INPUT.len() + 1 {
        let end = pipe(rt.alloc(), Course::FailsOfBytes(at as u64), Course::Plain);
        assert_eq!(rt; end, Ok(after_bytes(at)), "at {at}");
    }
}

/// Each write fails in turn.
#[test]
fn each_write_of_a_pipe_fails_in_turn(rt: HostRuntime) {
    for at in 0..OUTPUT.len() {
        let end = pipe(rt.alloc(), Course::Plain, Course::FailsOfBytes(at as u64));
        assert_eq!(rt; end, Ok(("write", Some(at))), "at {at}");
    }
}

/// How the reads and the writes go, and what it comes to: the first call that would fail is not made; or a reader is
/// blocked for ever within the header, and after it, or a writer is.
static COURSES: [(Course, Course, End); 5] = [
    (
        Course::FailsOfBytes(65),
        Course::Plain,
        ("offered", Some(46)),
    ),
    (
        Course::Plain,
        Course::FailsOfBytes(46),
        ("offered", Some(46)),
    ),
    (Course::Blocked(2), Course::Plain, ("read", Some(0))),
    (Course::Blocked(4), Course::Plain, ("read", Some(34))),
    (Course::Plain, Course::Blocked(1), ("write", Some(13))),
];

#[test]
fn calls_of_a_pipe_are_not_made_or_are_blocked_for_ever(rt: HostRuntime) {
    for (reads, writes, wanted) in &COURSES {
        let end = pipe(rt.alloc(), *reads, *writes);
        assert_eq!(rt; end, Ok(*wanted), "{reads:?}, {writes:?}");
    }
}
