//! The text that is written.
use crate::item::{Fate, Item};
use refusal_text::Concern;
use std::alloc::{AllocError, Global};

/// So many bytes of a line that is left out are written, so that it is no longer than a line may be.
const MOST_BYTES: usize = 1_900;

/// How many lines are left out.
#[derive(Clone, Copy, Debug, PartialEq, Eq)]
pub struct LeftOutCounts {
    pub left_out: u32,
    /// Of these, those that limit, refuse, keep or serve clients.
    pub of_clients: u32,
}

/// How many lines are left out. A line in other words may be there several times.
pub fn counts_of(items: &[Item]) -> LeftOutCounts {
    let mut counts = LeftOutCounts {
        left_out: 0,
        of_clients: 0,
    };
    let mut last = 0u32;
    for item in items {
        if item.fate == Fate::LeftOut && item.number != last {
            last = item.number;
            counts.left_out = counts.left_out.saturating_add(1);
            if item.concern == Concern::Clients {
                counts.of_clients = counts.of_clients.saturating_add(1);
            }
        }
    }
    counts
}

/// The beginning of a line, at most so long.
fn shortened(line: &str) -> &str {
    if line.len() <= MOST_BYTES {
        return line;
    }
    let mut end = 0usize;
    for (at, _character) in line.char_indices() {
        if at > MOST_BYTES {
            break;
        }
        end = at;
    }
    line.get(..end).unwrap_or("")
}

/// Writes what is said of a line, as comments.
fn write_notes(out: &mut String, item: &Item) -> Result<(), AllocError> {
    for note in item.notes.as_slice() {
        out.push_str("    # ")?;
        out.push_str(shortened(note.as_str()))?;
        out.push('\n')?;
    }
    Ok(())
}

/// Writes a line that is a comment.
fn write_comment(out: &mut String, source: &str) -> Result<(), AllocError> {
    out.push_str("#")?;
    if !source.starts_with(' ') && !source.starts_with('\t') {
        out.push(' ')?;
    }
    out.push_str(shortened(source))?;
    out.push('\n')
}

/// Whether a line is written as it is in HAProxy's text.
fn is_same(item: &Item) -> bool {
    let mut own = item.code.split_ascii_whitespace();
    let source = match item.source.as_str().split_once('#') {
        Some((code, _comment)) => code,
        None => item.source.as_str(),
    };
    source
        .split_ascii_whitespace()
        .all(|word| own.next() == Some(word))
        && own.next().is_none()
}

/// Writes the words of a line in `l4proxy`'s form.
fn write_code(out: &mut String, item: &Item) -> Result<(), AllocError> {
    if is_same(item) && item.source.len() <= MOST_BYTES {
        out.push_str(item.source.as_str())?;
    } else {
        if !matches!(item.keyword(), "frontend" | "backend" | "defaults") {
            out.push_str("    ")?;
        }
        out.push_str(item.code.as_str())?;
    }
    out.push('\n')
}

fn write_item(out: &mut String, item: &Item) -> Result<(), AllocError> {
    match item.fate {
        Fate::LeftOut | Fate::Moved => {
            if item.number > 0 {
                write_comment(out, item.source.as_str())?;
            }
            write_notes(out, item)
        }
        Fate::Kept if item.code.is_empty() => {
            if item.number > 0 {
                out.push_str(shortened(item.source.as_str()))?;
                out.push('\n')?;
            }
            write_notes(out, item)
        }
        Fate::Kept => {
            write_notes(out, item)?;
            write_code(out, item)
        }
    }
}

/// What is said at the end of the lines that are left out.
fn write_counts(alloc: Global, out: &mut String, counts: LeftOutCounts) -> Result<(), AllocError> {
    let LeftOutCounts {
        left_out,
        of_clients,
    } = counts;
    let said = format!(in alloc;
        "# Left out: {left_out} lines. {of_clients} of them limit, refuse, keep or serve clients.\n"
    )?;
    out.push_str(said.as_str())
}

/// The text of those lines, with how many are left out.
pub fn written(alloc: Global, items: &[Item], counts: LeftOutCounts) -> Result<String, AllocError> {
    let mut out = String::new(alloc);
    for item in items {
        write_item(&mut out, item)?;
    }
    write_counts(alloc, &mut out, counts)?;
    Ok(out)
}
