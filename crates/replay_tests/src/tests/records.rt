//! Records, over readers that fail or are blocked, and with changes.
use crate::tests::devices::{Course, calls_for, reader_of};
use crate::tests::runs::CONFIG;
use audit_core::{CheckFault, CheckKind, Checked, check_record};
use std::alloc::{AllocError, Global};

pub const RECORD: &[u8] =
    b"1 0 accept 0 192.0.2.5:4000 127.0.0.1:9000\n= offer 0.1 used 0 line 6 to 10.0.0.20:80 src 192.0.2.5:4000 dst 127.0.0.1:9000 send -\n2 1 accept 0 198.51.100.9:4001 127.0.0.1:9000\n= refuse 0.2 used 0 line 3\n3 2 close 0.1 done\n= closed 0.1 done\n";

/// A record with a reload by which a server of another address is used, and the rule is gone.
pub const RELOAD_RECORD: &[u8] =
    b"1 0 accept 0 192.0.2.5:4000 127.0.0.1:9000\n= offer 0.1 used 0 line 6 to 10.0.0.20:80 src 192.0.2.5:4000 dst 127.0.0.1:9000 send -\n2 1 reload 6\n|frontend f\n|bind 127.0.0.1:9000\n|default_backend b\n|backend b\n|server s 10.0.0.21:80\n|\n= reloaded 2\n3 2 accept 0 198.51.100.9:4001 127.0.0.1:9000\n= offer 0.2 used 0 line 5 to 10.0.0.21:80 src 198.51.100.9:4001 dst 127.0.0.1:9000 send -\n4 3 close 0.1 done\n= closed 0.1 done\n";

/// What a check finds: a word, and two numbers, which are those of the entries and of the open connections, or the line
/// of a fault and 0.
pub type Found = (&'static str, u64, u64);

const RIGHT: Found = ("right", 3, 0);

const RELOAD_IS_RIGHT: Found = ("right", 4, 1);

const UNREADABLE: Found = ("read", 0, 0);

/// The word of a kind of fault.
pub fn kind_word(kind: &CheckKind) -> &'static str {
    match kind {
        CheckKind::Format => "format",
        CheckKind::WrongReply => "wrong reply",
        CheckKind::NoMemory => "memory",
        CheckKind::Read => "read",
        CheckKind::TooLong => "too long",
        CheckKind::Config(_) => "config",
    }
}

fn found_in(checked: Result<Checked, CheckFault>) -> Found {
    match checked {
        Ok(counts) => ("right", counts.records, counts.live),
        Err(fault) => (kind_word(&fault.kind), fault.line, 0),
    }
}

/// What is found in a record.
fn check(alloc: Global, record: &[u8], reads: Course) -> Result<Found, AllocError> {
    let mut reader = reader_of(alloc, record, reads)?;
    Ok(found_in(check_record(alloc, CONFIG, &mut reader)))
}

fn check_plain(alloc: Global, record: &[u8]) -> Result<Found, AllocError> {
    check(alloc, record, Course::Plain)
}

fn check_failing(alloc: Global, at: u64) -> Result<Found, AllocError> {
    check(alloc, RECORD, Course::Fails(at))
}

/// Each read fails in turn, that of the end too: no front of the record is taken for it.
#[test]
fn each_read_of_a_record_fails_in_turn(rt: HostRuntime) {
    let reads = calls_for(RECORD.len()).saturating_add(1);
    for at in 0..reads {
        assert_eq!(rt; check_failing(rt.alloc(), at), Ok(UNREADABLE), "at {at}");
    }
    assert_eq!(rt; check_failing(rt.alloc(), reads), Ok(RIGHT));
}

fn check_interrupted(alloc: Global, per_call: usize) -> Result<Found, AllocError> {
    check(alloc, RECORD, Course::Interrupted(per_call, 999_999))
}

fn check_blocked(alloc: Global, from: u64) -> Result<Found, AllocError> {
    check(alloc, RECORD, Course::Blocked(from))
}

/// Reads are short and interrupted for a while, or from some call on for ever.
#[test]
fn reads_of_a_record_are_interrupted(rt: HostRuntime) {
    for per_call in [1, 7, 4096] {
        assert_eq!(rt; check_interrupted(rt.alloc(), per_call), Ok(RIGHT));
    }
    for from in [0, 5] {
        assert_eq!(rt; check_blocked(rt.alloc(), from), Ok(UNREADABLE));
    }
}

/// Where the text comes first in the record with the reload.
fn place_of(text: &[u8]) -> Option<usize> {
    for at in 0..RELOAD_RECORD.len() {
        if RELOAD_RECORD[at..].starts_with(text) {
            return Some(at);
        }
    }
    None
}

/// The record with the reload where one text is in the place of another.
fn changed(alloc: Global, from: &[u8], to: &[u8]) -> Result<Vec<u8>, AllocError> {
    let at = place_of(from).unwrap_or(0);
    let until = at.saturating_add(from.len());
    let mut record = Vec::new(alloc);
    record.extend_from_slice(RELOAD_RECORD.get(..at).unwrap_or(&[]))?;
    record.extend_from_slice(to)?;
    record.extend_from_slice(RELOAD_RECORD.get(until..).unwrap_or(&[]))?;
    Ok(record)
}

/// What is found in the record with the reload where one text is in the place of another.
fn check_changed(alloc: Global, from: &[u8], to: &[u8]) -> Result<Found, AllocError> {
    let record = changed(alloc, from, to)?;
    check_plain(alloc, record.as_slice())
}

#[test]
fn record_of_a_reload_is_right(rt: HostRuntime) {
    assert_eq!(rt; check_plain(rt.alloc(), RELOAD_RECORD), Ok(RELOAD_IS_RIGHT));
}

/// A text, another one that comes in its place, and the word and the line of the fault then.
type Change = (&'static [u8], &'static [u8], (&'static str, u64));

/// The wrong reply is that to a later event, or that to a reload which is refused. A wrong form is that of the line, or of
/// one that its number asks for.
static CHANGES: [Change; 13] = [
    (
        b"server s 10.0.0.21:80",
        b"server s 10.0.0.22:80",
        ("wrong reply", 12),
    ),
    (
        b"|default_backend b\n",
        b"|maxconn 1\n",
        ("wrong reply", 12),
    ),
    (
        b"server s 10.0.0.21:80",
        b"server s 10.0.0.21",
        ("wrong reply", 10),
    ),
    (
        b"|bind 127.0.0.1:9000",
        b"|bind 127.0.0.1:9001",
        ("wrong reply", 10),
    ),
    (b"= reloaded 2", b"= reloaded 3", ("wrong reply", 10)),
    (b"|backend b", b"backend b", ("format", 7)),
    (b"|backend b", b" |backend b", ("format", 7)),
    (b"|\n= reloaded", b"\n= reloaded", ("format", 9)),
    (b"|backend b", b"|backend \xff", ("format", 7)),
    (b"reload 6", b"reload 5", ("format", 9)),
    (b"reload 6", b"reload 7", ("format", 10)),
    (b"reload 6", b"reload 0", ("format", 3)),
    (b"2 1 reload 6", b"3 1 reload 6", ("format", 3)),
];

/// A line of a reload is changed, or is none of its text.
#[test]
fn lines_of_a_reload_are_changed(rt: HostRuntime) {
    for (from, to, (word, line)) in &CHANGES {
        let found = check_changed(rt.alloc(), from, to);
        assert_eq!(rt; found, Ok((*word, *line, 0)), "{to:?}");
    }
}

/// Whether the record is right, or lacks its next line, where it ends with or without the end of that line. After the
/// lines 2, 10, 12 and 14 an entry is whole.
fn is_right_up_to(alloc: Global, end: usize, line: u64) -> Result<bool, AllocError> {
    let is_whole = line == 2 || line == 10 || line == 12 || line == 14;
    let front = RELOAD_RECORD.get(..end).unwrap_or(RELOAD_RECORD);
    let (word, number, _) = check_plain(alloc, front)?;
    if is_whole {
        Ok(word == "right")
    } else {
        Ok(word == "format" && number == line.saturating_add(1))
    }
}

/// A record ends within the text of a reload, or before its reply.
#[test]
fn record_ends_within_a_reload(rt: HostRuntime) {
    let mut line = 0u64;
    for end in 0..RELOAD_RECORD.len() {
        if RELOAD_RECORD[end] == b'\n' {
            line = line.saturating_add(1);
            assert_eq!(rt;
                is_right_up_to(rt.alloc(), end, line),
                Ok(true),
                "after {line}"
            );
            assert_eq!(rt;
                is_right_up_to(rt.alloc(), end + 1, line),
                Ok(true),
                "after {line}"
            );
        }
    }
    assert_eq!(rt; line, 14);
}

/// What is found where a line with that beginning, which is so long, comes before the last but one of the reload.
fn check_long_line(alloc: Global, bar: &[u8], length: usize) -> Result<Found, AllocError> {
    let mut line = Vec::new(alloc);
    line.extend_from_slice(bar)?;
    for _ in 0..length {
        line.push(b'#')?;
    }
    line.extend_from_slice(b"\n|backend b")?;
    check_changed(alloc, b"|backend b", line.as_slice())
}

/// A line of a text is as long as any, or too long, whatever else is wrong with it. A line of a configuration is not as
/// long, so the reload is refused where the record goes on.
#[test]
fn long_lines_of_a_reload(rt: HostRuntime) {
    let (goes_on, form) = (("format", 10, 0), ("format", 7, 0));
    let too_long = ("too long", 7, 0);
    assert_eq!(rt; check_long_line(rt.alloc(), b"|#", 131_198), Ok(goes_on));
    assert_eq!(rt; check_long_line(rt.alloc(), b"|#", 131_199), Ok(too_long));
    assert_eq!(rt; check_long_line(rt.alloc(), b"##", 131_198), Ok(form));
    assert_eq!(rt; check_long_line(rt.alloc(), b"##", 131_199), Ok(too_long));
}

/// Where memory runs out, nothing else is found: tried with each allocation refused in turn.
#[test]
fn memory_for_a_reload(rt: HostRuntime) {
    if let Ok(found) = check_plain(rt.alloc(), RELOAD_RECORD) {
        assert!(rt; found == RELOAD_IS_RIGHT || found == ("memory", 0, 0));
    }
}
