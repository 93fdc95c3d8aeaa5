//! Audits, of which a reader or the writer fails.
use crate::tests::devices::{Course, calls_for, front_of, moved_by, reader_of, writer_of};
use crate::tests::records::{RECORD, RELOAD_RECORD, kind_word};
use crate::tests::runs::CONFIG;
use audit_core::run_audit;
use device_core::{MemoryInput, MemoryOutput};
use replay_core::PrintFault;
use std::alloc::{AllocError, Global};

const AUDIT: &[u8] =
    b"conn 0.2 real 198.51.100.9:4001 refuse line 3\nconn 0.1 real 192.0.2.5:4000 src 192.0.2.5:4000 line 6 closed done\nchecked 3 open 0\n";

const RELOAD_AUDIT: &[u8] =
    b"conn 0.1 real 192.0.2.5:4000 src 192.0.2.5:4000 line 6 closed done\nchecked 4 open 1\n";

/// How an audit ends, as a word, and how many bytes of what it should write were written, if nothing else was.
type End = (&'static str, Option<usize>);

/// Runs an audit over two readers and a writer.
fn end_of(
    alloc: Global,
    first: &mut MemoryInput,
    second: &mut MemoryInput,
    writer: &mut MemoryOutput,
    text: &[u8],
) -> End {
    let word = match run_audit(alloc, CONFIG, first, second, writer) {
        Ok(None) => "right",
        Ok(Some(fault)) => kind_word(&fault.kind),
        Err(PrintFault::Read) => "read",
        Err(PrintFault::Write) => "write",
        Err(PrintFault::NoMemory) => "memory",
    };
    (word, front_of(writer.as_slice(), text))
}

/// An audit over a reader, a second reader of that text, and a writer, of which the last text should be written.
fn audit_with(
    alloc: Global,
    first: &mut MemoryInput,
    second: &[u8],
    courses: (Course, Course),
    text: &[u8],
) -> Result<End, AllocError> {
    let mut second = reader_of(alloc, second, courses.0)?;
    let mut writer = writer_of(alloc, courses.1)?;
    Ok(end_of(alloc, first, &mut second, &mut writer, text))
}

/// An audit over a reader of the record, a second reader of that text, and a writer, whose calls go in these courses.
fn audit(
    alloc: Global,
    second: &[u8],
    courses: (Course, Course, Course),
) -> Result<End, AllocError> {
    let mut first = reader_of(alloc, RECORD, courses.0)?;
    audit_with(alloc, &mut first, second, (courses.1, courses.2), AUDIT)
}

/// All is right.
fn whole() -> End {
    ("right", Some(AUDIT.len()))
}

/// What a reader comes to that fails at that call, or is blocked from there on: nothing is written before the second
/// one was read.
fn after_reads(reads: u64) -> End {
    if reads <= calls_for(RECORD.len()) {
        ("read", Some(0))
    } else {
        whole()
    }
}

fn after_writes(writes: u64) -> End {
    if writes < calls_for(AUDIT.len()) {
        ("write", Some(moved_by(writes, AUDIT.len())))
    } else {
        whole()
    }
}

/// Audits of which the first reader, the second one, or the writer goes in that course.
fn ends_of(alloc: Global, course: Course) -> Result<(End, End, End), AllocError> {
    let first = audit(alloc, RECORD, (course, Course::Plain, Course::Plain))?;
    let second = audit(alloc, RECORD, (Course::Plain, course, Course::Plain))?;
    let writer = audit(alloc, RECORD, (Course::Plain, Course::Plain, course))?;
    Ok((first, second, writer))
}

/// What they come to where the call of that number fails, or is blocked as are all after it.
fn ends_after(calls: u64) -> (End, End, End) {
    let read = after_reads(calls);
    (read, read, after_writes(calls))
}

/// Each read of both readers, that of the end too, and each write fails in turn.
#[test]
fn each_call_of_an_audit_fails_in_turn(rt: HostRuntime) {
    for at in 0..22 {
        let ends = ends_of(rt.alloc(), Course::Fails(at));
        assert_eq!(rt; ends, Ok(ends_after(at)), "at {at}");
    }
}

#[test]
fn calls_of_an_audit_are_blocked_for_ever(rt: HostRuntime) {
    for from in [0, 4] {
        let ends = ends_of(rt.alloc(), Course::Blocked(from));
        assert_eq!(rt; ends, Ok(ends_after(from)), "from {from}");
    }
}

/// An audit whose second reader has so many bytes of the record.
fn with_front(alloc: Global, length: usize) -> Result<End, AllocError> {
    let front = RECORD.get(..length).unwrap_or(RECORD);
    audit(alloc, front, (Course::Plain, Course::Plain, Course::Plain))
}

#[test]
fn second_reader_has_a_front_of_the_record(rt: HostRuntime) {
    for length in [42, 43, 170, 222] {
        let end = with_front(rt.alloc(), length);
        assert!(rt; matches!(end, Ok(("read", Some(_)))), "{length} bytes");
    }
}

/// An audit of the record with a reload.
fn audit_of_a_reload(alloc: Global) -> Result<End, AllocError> {
    let mut first = reader_of(alloc, RELOAD_RECORD, Course::Plain)?;
    let courses = (Course::Plain, Course::Plain);
    audit_with(alloc, &mut first, RELOAD_RECORD, courses, RELOAD_AUDIT)
}

#[test]
fn record_of_a_reload_is_audited(rt: HostRuntime) {
    let end = ("right", Some(RELOAD_AUDIT.len()));
    assert_eq!(rt; audit_of_a_reload(rt.alloc()), Ok(end));
}
