//! Devices in memory, those of `std`, and loops over them.
use crate::tests::pair::{Devices, NONE, Plan, make_devices};
use device_core::{
    Calls, Failed, FromRead, Got, Input, MOST_READS, MemoryInput, MemoryOutput, Moved, Output, Put,
    Schedule, ToWrite, read_on, write_all,
};
use std::alloc::{AllocError, Global};
use std::io;
use std::io::{ErrorKind, Read, Write};

/// Reads until an end or a fault, three bytes at a time at most, and says whether it was the end.
fn read_all<I: Input>(input: &mut I, out: &mut Vec<u8>) -> Result<bool, AllocError> {
    let mut buffer = [0u8; 3];
    let mut reads = MOST_READS;
    for _ in 0..1000 {
        match read_on(input, &mut buffer, &mut reads) {
            Ok(Moved::Bytes(count)) => out.extend_from_slice(buffer.get(..count).unwrap_or(&[]))?,
            Ok(Moved::End) => return Ok(true),
            Err(Failed) => return Ok(false),
        }
    }
    Ok(false)
}

/// Whether a read fails after so many bytes of the text, and the rest comes after it.
fn reads_on(
    alloc: Global,
    ends: &mut Devices,
    text: &[u8],
    count: usize,
) -> Result<bool, AllocError> {
    let mut out = Vec::new(alloc);
    let has_failed = !read_all(&mut ends.input, &mut out)? && out.len() == count;
    let has_ended = read_all(&mut ends.input, &mut out)?;
    Ok(has_failed && has_ended && out.as_slice() == text)
}

/// Whether a write fails after so many bytes of the text, the rest can be written after it, and no more than that.
fn writes_on(ends: &mut Devices, text: &[u8], count: usize) -> bool {
    let has_failed = write_all(&mut ends.output, text).is_err();
    let is_front = ends.output.as_slice() == text.get(..count).unwrap_or(&[]);
    let goes_on = write_all(&mut ends.output, text.get(count..).unwrap_or(&[])).is_ok();
    let is_all = ends.output.as_slice() == text;
    let is_full = write_all(&mut ends.output, b"x").is_err();
    has_failed && is_front && goes_on && is_all && is_full
}

/// Whether both devices go on after the call of that number failed, when they had moved so many bytes.
fn go_on(alloc: Global, at: u64, count: usize) -> Result<bool, AllocError> {
    let plan = Plan {
        reads: 1,
        writes: 1,
        blocked: &[Calls { from: 1, to: 2 }, Calls { from: 7, to: 9 }],
        failing: &[Calls {
            from: at,
            to: at.saturating_add(1),
        }],
    };
    let mut ends = make_devices(alloc, b"PROXY TCP4", 10, &plan)?;
    let reads = reads_on(alloc, &mut ends, b"PROXY TCP4", count)?;
    Ok(reads && writes_on(&mut ends, b"PROXY TCP4", count))
}

/// The number of the call that fails, and how many bytes were moved before it.
static FAILING: [(u64, usize); 4] = [(0, 0), (3, 2), (5, 4), (6, 5)];

/// The first call of the table that no device goes on after.
fn wrong_call(alloc: Global, table: &[(u64, usize)]) -> Result<Option<u64>, AllocError> {
    for (at, count) in table {
        if !go_on(alloc, *at, *count)? {
            return Ok(Some(*at));
        }
    }
    Ok(None)
}

/// A call fails, between short and blocked ones: what was moved before it is the front of the text, and the rest comes
/// after it.
#[test]
fn each_call_fails_in_turn(rt: HostRuntime) {
    assert_eq!(rt; wrong_call(rt.alloc(), &FAILING), Ok(None));
}

type Patience = (Result<Moved, Failed>, u32);

/// What a read comes to whose reader is blocked so many times, and how many reads are left of those that may be made.
fn read_once(alloc: Global, to: u64, reads: u32) -> Result<Patience, AllocError> {
    let schedule = Schedule::new(alloc, 9, &[Calls { from: 0, to }], &NONE)?;
    let mut input = MemoryInput::new(alloc, b"ab", schedule)?;
    let mut buffer = [0u8; 4];
    let mut left = reads;
    let moved = read_on(&mut input, &mut buffer, &mut left);
    Ok((moved, left))
}

/// How many reads are blocked and how many may be made, and what it comes to.
static READS: [(u64, u32, Patience); 5] = [
    (999_999, MOST_READS, (Ok(Moved::Bytes(2)), 999_000_000)),
    (1_000_000, MOST_READS, (Err(Failed), 999_000_000)),
    (3, 4, (Ok(Moved::Bytes(2)), 0)),
    (4, 4, (Err(Failed), 0)),
    (0, 0, (Err(Failed), 0)),
];

/// The first row of the table that is not so.
fn wrong_read(
    alloc: Global,
    table: &[(u64, u32, Patience)],
) -> Result<Option<(u64, u32)>, AllocError> {
    for (to, reads, wanted) in table {
        if read_once(alloc, *to, *reads)? != *wanted {
            return Ok(Some((*to, *reads)));
        }
    }
    Ok(None)
}

#[test]
fn patience_of_a_read_ends(rt: HostRuntime) {
    assert_eq!(rt; wrong_read(rt.alloc(), &READS), Ok(None));
}

/// Whether two bytes are written to a writer that is blocked from one call on and below another, and how many are.
fn write_two(alloc: Global, from: u64, to: u64) -> Result<(bool, usize), AllocError> {
    let schedule = Schedule::new(alloc, 1, &[Calls { from, to }], &NONE)?;
    let mut output = MemoryOutput::new(alloc, 2, schedule)?;
    let is_done = write_all(&mut output, b"ab").is_ok();
    let is_front = b"ab".starts_with(output.as_slice());
    Ok((is_done && is_front, output.as_slice().len()))
}

/// From which call on and below which one the writer is blocked, whether both bytes are written, and how many are.
static WRITES: [(u64, u64, bool, usize); 4] = [
    (0, 999_999, true, 2),
    (0, 1_000_000, false, 0),
    (1, 1_000_000, true, 2),
    (1, 1_000_001, false, 1),
];

/// The first row of the table that is not so.
fn wrong_write(
    alloc: Global,
    table: &[(u64, u64, bool, usize)],
) -> Result<Option<(u64, u64)>, AllocError> {
    for (from, to, is_done, count) in table {
        if write_two(alloc, *from, *to)? != (*is_done, *count) {
            return Ok(Some((*from, *to)));
        }
    }
    Ok(None)
}

#[test]
fn patience_of_a_write_ends(rt: HostRuntime) {
    assert_eq!(rt; wrong_write(rt.alloc(), &WRITES), Ok(None));
}

/// Answers in turn: interrupted, would block, a byte, an end, a reset.
#[derive(Drop)]
struct Five(u8);

impl Five {
    fn answer(&mut self) -> io::Result<usize> {
        self.0 = self.0.saturating_add(1);
        match self.0 {
            1 => Err(ErrorKind::Interrupted.into()),
            2 => Err(ErrorKind::WouldBlock.into()),
            3 => Ok(1),
            4 => Ok(0),
            _ => Err(ErrorKind::ConnectionReset.into()),
        }
    }
}

impl Read for Five {
    fn read(&mut self, buffer: &mut [u8]) -> io::Result<usize> {
        let count = self.answer()?.min(buffer.len());
        if count > 0 {
            buffer[0] = b'x';
        }
        Ok(count)
    }
}

impl Write for Five {
    fn write(&mut self, bytes: &[u8]) -> io::Result<usize> {
        Ok(self.answer()?.min(bytes.len()))
    }

    fn flush(&mut self) -> io::Result<()> {
        Ok(())
    }
}

/// What a read and a write answer, one after the other.
type Answers = (Result<Got, Failed>, Result<Put, Failed>);

static FIVE: [Answers; 5] = [
    (Ok(Got::Blocked), Ok(Put::Blocked)),
    (Ok(Got::Blocked), Ok(Put::Blocked)),
    (Ok(Got::Bytes(1)), Ok(Put::Bytes(1))),
    (Ok(Got::End), Err(Failed)),
    (Err(Failed), Err(Failed)),
];

/// How many calls of a reader and a writer of `std` are answered so.
fn answered(wanted: &[Answers]) -> usize {
    let mut input = FromRead::of(Five(0));
    let mut output = ToWrite::of(Five(0));
    let mut right = 0usize;
    for (got, put) in wanted {
        let mut buffer = [0u8; 2];
        let is_read = input.read(&mut buffer) == *got;
        if output.write(b"yz") == *put && is_read {
            right = right.saturating_add(1);
        }
    }
    right
}

#[test]
fn errors_of_std(rt: HostRuntime) {
    assert_eq!(rt; answered(&FIVE), 5);
}

/// What is read of memory by way of `std` with more written after it, if all went well.
fn copied_and_more(alloc: Global) -> Result<Option<Vec<u8>>, AllocError> {
    let mut bytes = Vec::new(alloc);
    let mut input = FromRead::of(b"one two".as_slice());
    let is_read = read_all(&mut input, &mut bytes)? && input.into_inner().is_empty();
    let mut output = ToWrite::of(bytes);
    if write_all(&mut output, b", three").is_ok() && is_read {
        Ok(Some(output.into_inner()))
    } else {
        Ok(None)
    }
}

#[test]
fn memory_of_std(rt: HostRuntime) {
    let is_right = match copied_and_more(rt.alloc()) {
        Ok(Some(bytes)) => bytes.as_slice() == b"one two, three".as_slice(),
        _ => false,
    };
    assert!(rt; is_right);
}
