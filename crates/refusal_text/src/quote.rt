//! The line of a configuration that a fault names, and the word of it that is wrong.
use conf_text::{LineKind, MOST_WORDS};
use conf_tree::{ConfKind, read_config};
use config_core::OpenFault;
use plan_core::PlanKind;
use std::alloc::{AllocError, Global};

/// A part of a line: its bytes from `from` on and before `to`.
#[derive(Clone, Copy)]
pub struct Span {
    pub from: usize,
    pub to: usize,
}

/// A faulty line, and what is known of it.
#[derive(Clone, Copy)]
pub struct Quote<'a> {
    pub line: &'a str,
    /// The word that is wrong, where it is known.
    pub word: Option<Span>,
    /// From the first word to the last.
    pub words: Span,
    /// The line that opens its section.
    pub section: Option<&'a str>,
}

/// The line of that number, the first line being 1.
fn line_at(text: &str, number: u32) -> Option<&str> {
    let before = number.checked_sub(1)?;
    text.lines().nth(before as usize)
}

/// A line without its comment.
pub fn code_of(line: &str) -> &str {
    match line.find('#') {
        Some(at) => line.get(..at).unwrap_or(line),
        None => line,
    }
}

/// The text of a part of a line.
pub fn text_of<'a>(line: &'a str, span: &Span) -> &'a str {
    line.get(span.from..span.to).unwrap_or("")
}

/// The words of a line.
pub fn words_of(alloc: Global, line: &str) -> Result<Vec<Span>, AllocError> {
    let code = code_of(line);
    let mut words = Vec::new(alloc);
    let mut from = 0usize;
    for (at, byte) in code.bytes().enumerate() {
        if byte == b' ' || byte == b'\t' {
            if from < at {
                words.push(Span { from, to: at })?;
            }
            from = at.saturating_add(1);
        }
    }
    if from < code.len() {
        words.push(Span {
            from,
            to: code.len(),
        })?;
    }
    Ok(words)
}

/// The first word of a line, or no text.
pub fn first_word(line: &str) -> &str {
    code_of(line).split_ascii_whitespace().next().unwrap_or("")
}

/// Whether a line opens a section that is taken.
pub fn opens_section(line: &str) -> bool {
    matches!(
        first_word(line),
        "global" | "defaults" | "frontend" | "backend"
    )
}

/// The line that opens the section of the line of that number.
fn section_of(text: &str, number: u32) -> Option<&str> {
    let mut section = None;
    let before = number.saturating_sub(1) as usize;
    for line in text.lines().take(before) {
        if opens_section(line) {
            section = Some(line);
        }
    }
    section
}

/// Lines in whose light a line is read: the one that opens its section, and the `acl` lines of the section above it.
#[derive(Drop)]
struct Context {
    text: String,
    lines: u32,
}

/// The context of the line of that number.
fn context_of(alloc: Global, text: &str, number: u32) -> Result<Context, AllocError> {
    let mut context = Context {
        text: String::new(alloc),
        lines: 0,
    };
    let before = number.saturating_sub(1) as usize;
    for line in text.lines().take(before) {
        if opens_section(line) {
            context = Context {
                text: format!(in alloc; "{line}\n")?,
                lines: 1,
            };
        } else if first_word(line) == "acl" {
            context.text.push_str(line)?;
            context.text.push('\n')?;
            context.lines = context.lines.saturating_add(1);
        }
    }
    Ok(context)
}

/// What the reader finds wrong on a line in that context.
fn kind_in(alloc: Global, context: &Context, line: &str) -> Result<Option<ConfKind>, AllocError> {
    let text = format!(in alloc; "{}{line}\n", context.text)?;
    match read_config(alloc, text.as_str()) {
        Ok(_tree) => Ok(None),
        Err(fault) => {
            if fault.line == context.lines.saturating_add(1) {
                return Ok(Some(fault.kind));
            }
            Ok(None)
        }
    }
}

/// The first word from which on the reader finds that fault. It reads a line from the left, so it finds the fault on
/// each front of the line that ends with this word or a later one.
fn first_wrong_word(
    alloc: Global,
    context: &Context,
    line: &str,
    words: &[Span],
    kind: ConfKind,
) -> Result<Option<Span>, AllocError> {
    let mut found = None;
    for word in words {
        let front = line.get(..word.to).unwrap_or(line);
        let is_wrong = kind_in(alloc, context, front)? == Some(kind);
        found = match found {
            None if is_wrong => Some(*word),
            Some(first) if is_wrong => Some(first),
            _ => None,
        };
    }
    Ok(found)
}

fn is_quoting(byte: u8) -> bool {
    matches!(byte, b'"' | b'\'' | b'\\')
}

fn is_foreign(byte: u8) -> bool {
    byte != b'\t' && !matches!(byte, b' '..=b'~')
}

/// The word with the first character that is not taken.
fn word_with(line: &str, words: &[Span], is_quote: bool) -> Option<Span> {
    for word in words {
        let text = text_of(line, word);
        let is_wrong = if is_quote {
            text.bytes().any(is_quoting)
        } else {
            text.bytes().any(is_foreign)
        };
        if is_wrong {
            return Some(*word);
        }
    }
    None
}

/// The place after the last word.
fn end_of(words: &[Span]) -> Option<Span> {
    let last = words.last()?;
    Some(Span {
        from: last.to,
        to: last.to.saturating_add(1),
    })
}

/// The word that has the name or the endpoint of a line.
fn name_of(line: &str, words: &[Span]) -> Option<Span> {
    match first_word(line) {
        "frontend" | "backend" | "bind" | "server" | "default_backend" | "use_backend" => {
            words.get(1).copied()
        }
        _ => None,
    }
}

/// Whether a line opens a section of that kind and name.
fn opens(line: &str, kind: &str, name: &str) -> bool {
    let mut words = code_of(line).split_ascii_whitespace();
    words.next() == Some(kind) && words.next() == Some(name)
}

fn has_section(text: &str, kind: &str, name: &str) -> bool {
    text.lines().any(|line| opens(line, kind, name))
}

/// What is in the brackets of a word that begins so.
fn argument_of(line: &str, word: &Span, criterion: &str) -> Option<Span> {
    if !text_of(line, word).starts_with(criterion) {
        return None;
    }
    Some(Span {
        from: word.from.saturating_add(criterion.len()),
        to: word.to.saturating_sub(1),
    })
}

/// The name of a section that the text lacks, in the brackets of a criterion.
fn missing_argument(
    text: &str,
    line: &str,
    words: &[Span],
    criterion: &str,
    kind: &str,
) -> Option<Span> {
    for word in words {
        if let Some(name) = argument_of(line, word, criterion) {
            if !has_section(text, kind, text_of(line, &name)) {
                return Some(name);
            }
        }
    }
    None
}

/// The name of a backend that the text lacks.
fn missing_backend(text: &str, line: &str, words: &[Span]) -> Option<Span> {
    match name_of(line, words) {
        Some(name) if !has_section(text, "backend", text_of(line, &name)) => Some(name),
        _ => missing_argument(text, line, words, "be_conn(", "backend"),
    }
}

/// The word after its marks.
fn without_marks(line: &str, word: Span) -> Span {
    let mut from = word.from;
    for byte in text_of(line, &word).bytes() {
        if byte != b'!' {
            break;
        }
        from = from.saturating_add(1);
    }
    Span { from, to: word.to }
}

/// The word that is wrong by the words of its line alone.
fn word_of_kind(
    alloc: Global,
    context: &Context,
    line: &str,
    words: &[Span],
    kind: ConfKind,
) -> Result<Option<Span>, AllocError> {
    match kind {
        ConfKind::Text(LineKind::Quoting) => Ok(word_with(line, words, true)),
        ConfKind::Text(LineKind::NotAscii) => Ok(word_with(line, words, false)),
        ConfKind::Text(LineKind::TooManyWords) => Ok(words.get(MOST_WORDS).copied()),
        ConfKind::Text(_) | ConfKind::Limit | ConfKind::NoMemory => Ok(None),
        ConfKind::NoSection | ConfKind::UnknownKeyword => Ok(words.first().copied()),
        ConfKind::MissingWord => Ok(end_of(words)),
        ConfKind::Duplicate => Ok(name_of(line, words)),
        ConfKind::Unsupported
        | ConfKind::ExtraWord
        | ConfKind::BadNumber
        | ConfKind::BadAddress
        | ConfKind::Acl(_) => {
            let word = first_wrong_word(alloc, context, line, words, kind)?;
            Ok(word.map(|word| without_marks(line, word)))
        }
    }
}

/// The word of a line that a fault is about, where it is known.
fn wrong_word(
    alloc: Global,
    text: &str,
    context: &Context,
    line: &str,
    words: &[Span],
    fault: &OpenFault,
) -> Result<Option<Span>, AllocError> {
    match fault {
        OpenFault::Config(fault) => word_of_kind(alloc, context, line, words, fault.kind),
        OpenFault::Plan(fault) => match fault.kind {
            PlanKind::NoBackend => Ok(missing_backend(text, line, words)),
            PlanKind::NoBind => Ok(name_of(line, words)),
            PlanKind::NoFrontend => {
                Ok(missing_argument(text, line, words, "fe_conn(", "frontend"))
            }
            PlanKind::NoTable | PlanKind::NotStored | PlanKind::NoMemory => Ok(None),
        },
        OpenFault::NoMemory => Ok(None),
    }
}

/// The line of a text that a fault names, if it names one.
pub fn find_quote<'a>(
    alloc: Global,
    text: &'a str,
    number: u32,
    fault: &OpenFault,
) -> Result<Option<Quote<'a>>, AllocError> {
    let Some(line) = line_at(text, number) else {
        return Ok(None);
    };
    let section = section_of(text, number);
    let words = words_of(alloc, line)?;
    let context = context_of(alloc, text, number)?;
    let word = wrong_word(alloc, text, &context, line, words.as_slice(), fault)?;
    let whole = Span {
        from: words.first().map_or(0, |word| word.from),
        to: words.last().map_or(0, |word| word.to),
    };
    Ok(Some(Quote {
        line,
        word,
        words: whole,
        section,
    }))
}
