//! All faults of a text: each further faulty line is judged as if the ones that were found before were empty.
use crate::message::{Texts, explained, line_of};
use crate::quote::{Span, code_of, find_quote, first_word, text_of};
use crate::reason::{is_head, is_keyword};
use conf_tree::ConfKind;
use config_core::{OpenFault, read_plan};
use plan_core::PlanKind;
use std::alloc::{AllocError, Global};

/// So many faulty lines are explained after the first one.
const MOST_FURTHER: usize = 20;

/// So often a text is read again at most. Some readings find no further line that is explained.
const MOST_READINGS: usize = 64;

/// Lines that are left out: those from `from` on and before `to`.
#[derive(Clone, Copy)]
struct Gap {
    from: u32,
    to: u32,
    /// Only the words after the second one are left out.
    is_tail: bool,
}

/// Why a line is refused.
#[derive(Drop)]
struct FaultyLine {
    line: u32,
    said: String,
}

fn is_left_out(gaps: &[Gap], line: u32) -> bool {
    gaps.iter()
        .any(|gap| !gap.is_tail && gap.from <= line && line < gap.to)
}

fn has_no_tail(gaps: &[Gap], line: u32) -> bool {
    gaps.iter().any(|gap| gap.is_tail && gap.from == line)
}

/// The text with empty lines in place of those that are left out.
fn without(alloc: Global, text: &str, gaps: &[Gap]) -> Result<String, AllocError> {
    let mut out = String::with_capacity(alloc, text.len())?;
    let mut number = 0u32;
    for line in text.lines() {
        number = number.saturating_add(1);
        if has_no_tail(gaps, number) && !is_left_out(gaps, number) {
            for word in code_of(line).split_ascii_whitespace().take(2) {
                out.push_str(word)?;
                out.push(' ')?;
            }
        } else if !is_left_out(gaps, number) {
            out.push_str(line)?;
        }
        out.push('\n')?;
    }
    Ok(out)
}

/// The lines of a section, where its head is the line of that number: up to the last one that has a word.
fn section_at(alloc: Global, text: &str, head: u32) -> Result<Gap, AllocError> {
    let mut gap = Gap {
        from: head,
        to: head.saturating_add(1),
        is_tail: false,
    };
    let mut number = 0u32;
    for line in text.lines() {
        number = number.saturating_add(1);
        let word = first_word(line);
        if number > head && is_head(alloc, word)? {
            break;
        }
        if number > head && !word.is_empty() {
            gap.to = number.saturating_add(1);
        }
    }
    Ok(gap)
}

/// The line of that number, the first line being 1.
fn line_at(text: &str, number: u32) -> &str {
    let Some(before) = number.checked_sub(1) else {
        return "";
    };
    text.lines().nth(before as usize).unwrap_or("")
}

/// Whether a fault is that words are left over on a line.
fn is_of_tail(fault: &OpenFault) -> bool {
    match fault {
        OpenFault::Config(fault) => matches!(fault.kind, ConfKind::ExtraWord),
        OpenFault::Plan(_) | OpenFault::NoMemory => false,
    }
}

/// What is left out once a fault is found: its line, or the whole section if the line begins one, except that words
/// which are left over there go alone.
fn gap_of(alloc: Global, text: &str, gaps: &[Gap], fault: &OpenFault) -> Result<Gap, AllocError> {
    let line = line_of(fault);
    let is_section = is_head(alloc, first_word(line_at(text, line)))?;
    let is_tail = is_section && is_of_tail(fault) && !has_no_tail(gaps, line);
    if is_section && !is_tail {
        return section_at(alloc, text, line);
    }
    Ok(Gap {
        from: line,
        to: line.saturating_add(1),
        is_tail,
    })
}

/// Which lines are not judged, since the line that begins their section is refused for its words.
fn unjudged(alloc: Global, fault: &OpenFault, gap: &Gap) -> Result<String, AllocError> {
    let first = gap.from.saturating_add(1);
    let last = gap.to.saturating_sub(1);
    match fault {
        OpenFault::Config(_) if first < last => {
            format!(in alloc;
                "\n  lines {first} to {last} belong to this section, and are not judged"
            )
        }
        OpenFault::Config(_) if first == last => {
            format!(in alloc; "\n  line {first} belongs to this section, and is not judged")
        }
        _ => Ok(String::new(alloc)),
    }
}

/// Whether a line that is left out begins with these words.
fn leaves_out(text: &str, gaps: &[Gap], keywords: &str, name: Option<&str>) -> bool {
    let mut number = 0u32;
    for line in text.lines() {
        number = number.saturating_add(1);
        if is_left_out(gaps, number) {
            let mut words = code_of(line).split_ascii_whitespace();
            let first = words.next().unwrap_or("");
            let is_named = name.is_none() || words.next() == name;
            if is_named && keywords.split_ascii_whitespace().any(|word| word == first) {
                return true;
            }
        }
    }
    false
}

/// Whether a line of that section is left out that is, or may have been meant as, a `bind` line.
fn lacks_bind(alloc: Global, text: &str, gaps: &[Gap], head: u32) -> Result<bool, AllocError> {
    let section = section_at(alloc, text, head)?;
    let mut number = 0u32;
    for line in text.lines() {
        number = number.saturating_add(1);
        let is_inside = section.from < number && number < section.to;
        if is_inside && is_left_out(gaps, number) {
            let word = first_word(line);
            if word == "bind" || !is_keyword(word) {
                return Ok(true);
            }
        }
    }
    Ok(false)
}

/// Whether a fault only follows from a line that is left out: what is missing may be there.
fn follows(
    alloc: Global,
    texts: &Texts<'_>,
    gaps: &[Gap],
    fault: &OpenFault,
) -> Result<bool, AllocError> {
    let OpenFault::Plan(missing) = fault else {
        return Ok(false);
    };
    let Some(quoted) = find_quote(alloc, texts.read, missing.line, fault)? else {
        return Ok(false);
    };
    let word: Option<Span> = quoted.word;
    let name = match &word {
        Some(span) => Some(text_of(quoted.line, span)),
        None => None,
    };
    Ok(match missing.kind {
        PlanKind::NoBackend => leaves_out(texts.whole, gaps, "backend listen", name),
        PlanKind::NoFrontend => leaves_out(texts.whole, gaps, "frontend listen", name),
        PlanKind::NoBind => lacks_bind(alloc, texts.whole, gaps, missing.line)?,
        PlanKind::NoTable => leaves_out(
            texts.whole,
            gaps,
            "stick-table frontend backend listen peers",
            None,
        ),
        PlanKind::NotStored | PlanKind::NoMemory => false,
    })
}

/// The faulty lines after the first one, in the order in which they are found, at most one more than are explained.
fn search(
    alloc: Global,
    file: &str,
    text: &str,
    first: &OpenFault,
) -> Result<Vec<FaultyLine>, AllocError> {
    let mut found = Vec::new(alloc);
    let mut gaps = Vec::new(alloc);
    gaps.push(gap_of(alloc, text, &[], first)?)?;
    for _ in 0..MOST_READINGS {
        let draft = without(alloc, text, gaps.as_slice())?;
        let fault = match read_plan(alloc, draft.as_str()) {
            Ok(_plan) => return Ok(found),
            Err(fault) => fault,
        };
        let line = line_of(&fault);
        if found.len() > MOST_FURTHER || line == 0 || is_left_out(gaps.as_slice(), line) {
            return Ok(found);
        }
        let texts = Texts {
            whole: text,
            read: draft.as_str(),
        };
        let gap = gap_of(alloc, text, gaps.as_slice(), &fault)?;
        if !follows(alloc, &texts, gaps.as_slice(), &fault)? {
            let mut said = explained(alloc, file, &texts, &fault)?;
            said.push_str(unjudged(alloc, &fault, &gap)?.as_str())?;
            found.push(FaultyLine { line, said })?;
        }
        gaps.push(gap)?;
    }
    Ok(found)
}

/// Why a configuration is refused: its first fault, and the lines that are not judged for that.
pub fn refusal(
    alloc: Global,
    file: &str,
    text: &str,
    fault: &OpenFault,
) -> Result<String, AllocError> {
    let texts = Texts {
        whole: text,
        read: text,
    };
    let mut said = explained(alloc, file, &texts, fault)?;
    if line_of(fault) > 0 {
        let gap = gap_of(alloc, text, &[], fault)?;
        said.push_str(unjudged(alloc, fault, &gap)?.as_str())?;
    }
    Ok(said)
}

/// Why further lines of a refused configuration would be refused, in the order of the lines, and how many they are with
/// the first one; no text if there are none. Each is judged as if the refused ones were empty. At most 20 are
/// explained.
pub fn further_refusals(
    alloc: Global,
    file: &str,
    text: &str,
    first: &OpenFault,
) -> Result<String, AllocError> {
    let mut out = String::new(alloc);
    if line_of(first) == 0 {
        return Ok(out);
    }
    let mut found = search(alloc, file, text, first)?;
    let all = found.len();
    found.truncate(MOST_FURTHER);
    found.sort_by_key(|found| found.line)?;
    for refusal in &found {
        out.push_str(refusal.said.as_str())?;
        out.push('\n')?;
    }
    if all > MOST_FURTHER {
        out.push_str(format!(in alloc;
            "l4proxy: {file}: more than {all} lines are faulty"
        )?.as_str())?;
    } else if all > 0 {
        let count = all + 1;
        out.push_str(format!(in alloc; "l4proxy: {file}: {count} lines are faulty")?.as_str())?;
    }
    Ok(out)
}
