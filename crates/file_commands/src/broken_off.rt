//! Whether a record breaks off: it ends in the midst of an entry, and what is there of its last line is the beginning of
//! a line that is due there.
use audit_core::{Auditor, open_auditor, read_numbered};
use conn_model::event::PIECE_LIMIT;
use conn_model::reply::Reply;
use device_core::Input;
use event_text::{read_bar, write_reply_text};
use line_reader::{LineReader, Next, ReadFault};
use std::alloc::{AllocError, Global};
use text_core::decimal::append_decimal;

/// Events without their numbers, of each form. If a line is the beginning of an event, it is one with an ending of these.
const EVENTS: [&[u8]; 14] = [
    b"0 accept 0 0.0.0.0:0 0.0.0.0:0",
    b"0 accept 0 [::]:0 [::]:0",
    b"0 accept 0 [0:0:0:0:0:0:0:0]:0 [0:0:0:0:0:0:0:0]:0",
    b"0 piece 0.1 00",
    b"0 connected 0.1",
    b"0 failed 0.1",
    b"0 expire 0.1",
    b"0 close 0.1 done",
    b"0 close 0.1 fault",
    b"0 close 0.1 stopped",
    b"0 close 0.1 failed",
    b"0 close 0.1 client-timeout",
    b"0 close 0.1 server-timeout",
    b"0 reload 1",
];

/// The last bytes of characters in UTF-8: each beginning of a character is one with some of these.
const LAST_BYTES: [&[u8]; 5] = [
    b"\x80",
    b"\x80\x80",
    b"\x80\x80\x80",
    b"\xa0\x80",
    b"\x90\x80\x80",
];

/// Whether a line is the beginning of that reply's line, and not all of it.
fn begins_reply(alloc: Global, reply: &Reply, line: &[u8]) -> Result<bool, AllocError> {
    let mut whole = Vec::new(alloc);
    whole.extend_from_slice(b"= ")?;
    write_reply_text(&mut whole, reply)?;
    Ok(line.len() < whole.len() && whole.starts_with(line))
}

/// Whether a line is an event with that number.
fn is_event(alloc: Global, number: u64, line: &[u8]) -> Result<bool, AllocError> {
    let mut piece = vec![in alloc; 0; PIECE_LIMIT]?;
    Ok(read_numbered(number, line, &mut piece).is_some())
}

/// Whether a line is an event with that number, once an ending of this event is there.
fn is_ended_by(alloc: Global, number: u64, line: &[u8], event: &[u8]) -> Result<bool, AllocError> {
    let mut tried = Vec::new(alloc);
    for at in 0..event.len() {
        tried.clear();
        tried.extend_from_slice(line)?;
        tried.extend_from_slice(&event[at..])?;
        if is_event(alloc, number, tried.as_slice())? {
            return Ok(true);
        }
    }
    Ok(false)
}

/// Whether a line is the beginning of an event with that number.
fn begins_event(alloc: Global, number: u64, line: &[u8]) -> Result<bool, AllocError> {
    let mut event = Vec::new(alloc);
    for sample in EVENTS {
        event.clear();
        append_decimal(&mut event, number)?;
        event.extend_from_slice(b" ")?;
        event.extend_from_slice(sample)?;
        if is_ended_by(alloc, number, line, event.as_slice())? {
            return Ok(true);
        }
    }
    Ok(false)
}

/// Whether a line is one of the text of a reload, except that its last character lacks some bytes.
fn begins_text(alloc: Global, line: &[u8]) -> Result<bool, AllocError> {
    let mut tried = Vec::new(alloc);
    for rest in LAST_BYTES {
        tried.clear();
        tried.extend_from_slice(line)?;
        tried.extend_from_slice(rest)?;
        if read_bar(tried.as_slice()).is_some() {
            return Ok(true);
        }
    }
    Ok(false)
}

/// Whether a line is the beginning of one that is due. Then the check is over.
fn begins_due(alloc: Global, auditor: &mut Auditor, line: &[u8]) -> Result<bool, AllocError> {
    if auditor.is_between() {
        return begins_event(alloc, auditor.records() + 1, line);
    }
    if let Some((_peer, reply)) = auditor.answered() {
        return begins_reply(alloc, reply, line);
    }
    // A line of a text is due, or a reply to an event that has none, which no line is.
    Ok(auditor.check_line(b"|").is_ok() && begins_text(alloc, line)?)
}

/// Whether a record breaks off at the line of that number. Nothing is said if it cannot be read.
fn breaks_off<I: Input>(
    alloc: Global,
    auditor: &mut Auditor,
    lines: &mut LineReader,
    reader: &mut I,
    line: u64,
) -> Option<bool> {
    for _before in 1..line {
        match lines.advance(reader) {
            Ok(Next::Line) => auditor.check_line(lines.line()).ok()?,
            Ok(Next::LastLine | Next::End) => return Some(true),
            Err(ReadFault::TooLong | ReadFault::Read | ReadFault::NoMemory) => return None,
        }
    }
    match lines.advance(reader) {
        Ok(Next::Line) => Some(false),
        Ok(Next::LastLine) => begins_due(alloc, auditor, lines.line()).ok(),
        Ok(Next::End) => Some(true),
        Err(ReadFault::TooLong | ReadFault::Read | ReadFault::NoMemory) => None,
    }
}

/// How many whole entries a record has before the line of that number, which is the first wrong one, if it breaks off
/// there.
pub fn entries_before<I: Input>(
    alloc: Global,
    config: &str,
    reader: &mut I,
    line: u64,
) -> Option<u64> {
    let mut lines = LineReader::new(alloc).ok()?;
    let mut auditor = open_auditor(alloc, config).ok()?;
    let is_broken = breaks_off(alloc, &mut auditor, &mut lines, reader, line);
    let entries = auditor.records();
    auditor.end();
    match is_broken {
        Some(true) => Some(entries),
        Some(false) | None => None,
    }
}
