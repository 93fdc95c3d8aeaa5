//! Reading the lines of a text.
ghost use Rattle.std.specs.Prelude.{◌≡◌, ◌+◌, ◌<◌, ◌≤◌, length, IfOk};
ghost use Rattle.std.specs.List.{list_all, list_any};
ghost use Rattle.list_core.specs.Each.{Gives};
ghost use Rattle.conf_text.specs.Lines.{is_quoting, is_plain, is_allowed, check_bytes, judged_code, judged_line, lines_of};

use crate::cut::{first_line, without_comment, without_return, words};
use crate::line::{
    Line, LineFault, LineKind, MOST_BYTES, MOST_BYTES_OF_LINE, MOST_LINES, MOST_WORDS,
};
use list_core::{Seq, Stop};
use std::alloc::Global;

fn has_quoting(code: &[u8]) -> bool
    ensures { result ≡ list_any is_quoting code.now }
{
    code.iter()
        .any(|b| *b == b'"' || *b == b'\'' || *b == b'\\')
}

fn is_plain(code: &[u8]) -> bool
    ensures { result ≡ list_all is_plain code.now }
{
    code.iter()
        .all(|b| *b == b' ' || *b == b'\t' || 0x21 <= *b && *b <= 0x7E)
}

/// Whether a line may have the byte: it is plain, and does not quote.
fn is_allowed(b: u8) -> bool
    ensures { result ≡ is_allowed b }
{
    (b == b'\t' || b' ' <= b && b <= 0x7E) && b != b'"' && b != b'\'' && b != b'\\'
}

/// Whether a line may have all of the bytes. It looks at each, so that several are compared at once.
fn are_allowed(code: &[u8]) -> bool
    ensures { result ≡ list_all is_allowed code.now }
{
    let mut all = true;
    for b in code {
        all = all & is_allowed(*b);
    }
    all
}

/// What is wrong with the bytes of a line.
fn check_bytes(code: &[u8]) -> Result<(), LineKind>
    ensures { result ≡ check_bytes code.now }
{
    if are_allowed(code) {
        return Ok(());
    }
    if has_quoting(code) {
        return Err(LineKind::Quoting);
    }
    if !is_plain(code) {
        return Err(LineKind::NotAscii);
    }
    Ok(())
}

fn read_code(alloc: Global, number: u32, code: &[u8]) -> Result<Line, Stop<LineKind>>
    ensures reads { Gives result (judged_code number code.now) }
    ensures number { IfOk result (λ _. number ≤ MOST_LINES) }
{
    let words = words(alloc, code)?;
    if words.len() > MOST_WORDS {
        return Err(Stop::Fault(LineKind::TooManyWords));
    }
    if number > MOST_LINES {
        return Err(Stop::Fault(LineKind::TooManyLines));
    }
    match check_bytes(code) {
        Ok(()) => Ok(Line { number, words }),
        Err(kind) => Err(Stop::Fault(kind)),
    }
}

fn read_line(alloc: Global, number: u32, line: &[u8]) -> Result<Line, Stop<LineKind>>
    ensures reads { Gives result (judged_line number line.now) }
    ensures number { IfOk result (λ _. number ≤ MOST_LINES) }
{
    if line.len() > MOST_BYTES_OF_LINE {
        return Err(Stop::Fault(LineKind::TooLong));
    }
    read_code(alloc, number, without_comment(line))
}

/// The lines of a text, each with its words, or the first fault of the first faulty line.
pub fn read_lines(alloc: Global, text: &str) -> Result<Seq<Line>, Stop<LineFault>>
    ensures { Gives result (lines_of text.now) }
{
    if text.len() > MOST_BYTES {
        return Err(Stop::Fault(LineFault {
            line: 0,
            kind: LineKind::TooLong,
        }));
    }
    let mut lines = Seq::new(alloc);
    let mut rest = text.as_bytes();
    let mut number = 1;
    while !rest.is_empty() {
        let (line, after) = first_line(rest);
        rest = after;
        match read_line(alloc, number, without_return(line)) {
            Ok(line) => lines.push(line)?,
            Err(Stop::Fault(kind)) => return Err(Stop::Fault(LineFault { line: number, kind })),
            Err(Stop::Memory) => return Err(Stop::Memory),
        }
        number += 1;
    }
    Ok(lines)
}
