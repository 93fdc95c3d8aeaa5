//! The sections of a configuration of HAProxy's.
use crate::plain::plain_code;
use refusal_text::begins_section;
use std::alloc::{AllocError, Global};

/// The kind of a section of HAProxy's.
#[derive(Clone, Copy, Debug, PartialEq, Eq)]
pub enum Kind {
    /// Above all sections.
    Outside,
    Global,
    Defaults,
    Frontend,
    Backend,
    Listen,
    /// One that is not for connections, as `resolvers`.
    Other,
}

/// A line.
#[derive(Drop)]
pub struct SourceLine<'a> {
    /// From 1.
    pub number: u32,
    pub text: &'a str,
    /// Its words without quotes, where that means the same.
    pub code: String,
}

/// A section: its lines, the first of which begins it, except above all sections.
#[derive(Drop)]
pub struct SourceSection<'a> {
    pub kind: Kind,
    pub lines: Vec<SourceLine<'a>>,
    /// Whether it is of another mode than `tcp`, by its own line or that of its `defaults`.
    pub is_http: bool,
}

impl SourceLine<'_> {
    /// The word of that number, from 0, or no text.
    pub fn word(&self, number: usize) -> &str {
        self.code.split_ascii_whitespace().nth(number).unwrap_or("")
    }
}

impl SourceSection<'_> {
    /// Whether a line begins with that word.
    pub fn has(&self, keyword: &str) -> bool {
        self.lines
            .as_slice()
            .iter()
            .any(|line| line.word(0) == keyword)
    }

    /// The mode that it states for itself, or no text.
    fn mode(&self) -> &str {
        let mut mode = "";
        for line in self.lines.as_slice() {
            if line.word(0) == "mode" {
                mode = line.word(1);
            }
        }
        mode
    }
}

fn kind_of(word: &str) -> Kind {
    match word {
        "global" => Kind::Global,
        "defaults" => Kind::Defaults,
        "frontend" => Kind::Frontend,
        "backend" => Kind::Backend,
        "listen" => Kind::Listen,
        _ => Kind::Other,
    }
}

/// A line with its words. One that has no plain form stays as it is, so that it is refused where it is read.
fn read_line<'a>(alloc: Global, number: u32, text: &'a str) -> Result<SourceLine<'a>, AllocError> {
    let code = match plain_code(alloc, text)? {
        Some(code) => code,
        None => String::from_str(alloc, text)?,
    };
    Ok(SourceLine { number, text, code })
}

/// The sections in their order, without their modes.
fn split<'a>(alloc: Global, text: &'a str) -> Result<Vec<SourceSection<'a>>, AllocError> {
    let mut sections = Vec::new(alloc);
    let mut open = SourceSection {
        kind: Kind::Outside,
        lines: Vec::new(alloc),
        is_http: false,
    };
    let mut number = 0u32;
    for text in text.lines() {
        number = number.saturating_add(1);
        let line = read_line(alloc, number, text)?;
        if begins_section(line.word(0)) {
            let next = SourceSection {
                kind: kind_of(line.word(0)),
                lines: Vec::new(alloc),
                is_http: false,
            };
            sections.push(open)?;
            open = next;
        }
        open.lines.push(line)?;
    }
    sections.push(open)?;
    Ok(sections)
}

/// The sections in their order. What `defaults` says counts up to the next `defaults`.
pub fn read_sections<'a>(
    alloc: Global,
    text: &'a str,
) -> Result<Vec<SourceSection<'a>>, AllocError> {
    let mut sections = split(alloc, text)?;
    let mut inherited = false;
    for section in &mut sections {
        let stated = match section.mode() {
            "" => None,
            mode => Some(mode != "tcp"),
        };
        match section.kind {
            Kind::Defaults => inherited = stated.unwrap_or(false),
            Kind::Frontend | Kind::Backend | Kind::Listen => section.is_http = stated.unwrap_or(
                inherited,
            ),
            Kind::Outside | Kind::Global | Kind::Other => {}
        }
    }
    Ok(sections)
}
