//! What is said on standard error of a configuration that is refused.
use crate::advice::sentence;
use crate::names::{acl_names, backend_names, refused_acl};
use crate::quote::{Quote, find_quote};
use crate::reason::{Names, concern_of, reason};
use crate::words::Concern;
use conf_tree::ConfKind;
use config_core::OpenFault;
use std::alloc::{AllocError, Global};

/// How many bytes of a line are quoted at most.
const MOST_QUOTED: usize = 240;

/// The line that a fault names. 0 is no line.
pub fn line_of(fault: &OpenFault) -> u32 {
    match fault {
        OpenFault::Config(fault) => fault.line,
        OpenFault::Plan(fault) => fault.line,
        OpenFault::NoMemory => 0,
    }
}

/// The name of a fault, without its line.
fn name_of(alloc: Global, fault: &OpenFault) -> Result<String, AllocError> {
    match fault {
        OpenFault::Config(fault) => match fault.kind {
            ConfKind::Acl(kind) => format!(in alloc; "{kind}"),
            ConfKind::Text(kind) => format!(in alloc; "{kind}"),
            kind => format!(in alloc; "{kind}"),
        },
        OpenFault::Plan(fault) => format!(in alloc; "{}", fault.kind),
        OpenFault::NoMemory => format!(in alloc; "NoMemory"),
    }
}

/// Spaces up to the mark, and the mark: one sign under the first character of a word that is known to be wrong, else
/// one under each character from the first word to the last. A tab stays a tab.
fn write_mark(out: &mut String, quoted: &Quote<'_>) -> Result<(), AllocError> {
    let mark = quoted.word.unwrap_or(quoted.words);
    let to = match quoted.word {
        Some(span) => span.from.saturating_add(1),
        None => mark.to,
    };
    for (at, character) in quoted.line.char_indices() {
        if at >= mark.from {
            break;
        }
        out.push(if character == '\t' { '\t' } else { ' ' })?;
    }
    for _ in mark.from..to {
        out.push('^')?;
    }
    Ok(())
}

/// The line, with signs in place of what a terminal would obey.
fn write_line(out: &mut String, line: &str) -> Result<(), AllocError> {
    for character in line.chars() {
        let is_shown = character == '\t' || !character.is_control();
        out.push(if is_shown { character } else { '?' })?;
    }
    Ok(())
}

/// A line as a compiler quotes it, with a mark and what is wrong.
fn write_quote(
    alloc: Global,
    out: &mut String,
    number: u32,
    quoted: &Quote<'_>,
    reason: &str,
) -> Result<(), AllocError> {
    let margin = format!(in alloc; "  {number} | ")?;
    out.push_str("\n")?;
    out.push_str(margin.as_str())?;
    write_line(out, quoted.line)?;
    out.push_str("\n")?;
    for _ in 0..margin.len() {
        out.push(' ')?;
    }
    write_mark(out, quoted)?;
    out.push(' ')?;
    out.push_str(reason)
}

/// What is wrong with a quoted line, where the names around it are looked up in the texts.
fn reason_in(
    alloc: Global,
    texts: &Texts<'_>,
    fault: &OpenFault,
    quoted: &Quote<'_>,
) -> Result<String, AllocError> {
    let number = line_of(fault);
    let backends = backend_names(alloc, texts.whole)?;
    let acls = acl_names(alloc, texts.read, number)?;
    let names = Names {
        backends: backends.as_str(),
        acls: acls.as_str(),
        refused: refused_acl(texts, number, quoted),
    };
    reason(alloc, fault, quoted, &names)
}

/// Why a line is refused that is quoted.
fn quoted_refusal(
    alloc: Global,
    file: &str,
    texts: &Texts<'_>,
    fault: &OpenFault,
    quoted: &Quote<'_>,
) -> Result<String, AllocError> {
    let number = line_of(fault);
    let why = reason_in(alloc, texts, fault, quoted)?;
    let name = name_of(alloc, fault)?;
    let mut out = format!(in alloc; "{file}:{number}: {name}")?;
    if quoted.line.len() > MOST_QUOTED {
        out.push_str("\n  ")?;
        out.push_str(why.as_str())?;
    } else {
        write_quote(alloc, &mut out, number, quoted, why.as_str())?;
    }
    Ok(out)
}

/// The texts that a fault is explained by.
#[derive(Clone, Copy)]
pub struct Texts<'a> {
    /// The text as it is.
    pub whole: &'a str,
    /// The text that was read, in which refused lines are empty.
    pub read: &'a str,
}

/// Why a configuration is refused: the file, the line and the fault's name; then the line as it is, with a mark under
/// what is wrong.
pub fn explained(
    alloc: Global,
    file: &str,
    texts: &Texts<'_>,
    fault: &OpenFault,
) -> Result<String, AllocError> {
    match find_quote(alloc, texts.read, line_of(fault), fault)? {
        Some(quoted) => quoted_refusal(alloc, file, texts, fault, &quoted),
        None => {
            let name = name_of(alloc, fault)?;
            format!(in alloc; "{file}: {name}\n  {}", sentence(fault))
        }
    }
}

/// Why a line is refused, in a sentence, and what the line is about.
#[derive(Drop)]
pub struct LineVerdict {
    /// 0 is no line.
    pub line: u32,
    pub said: String,
    pub concern: Concern,
}

/// Why a text is refused, without the line itself.
pub fn verdict_on(alloc: Global, text: &str, fault: &OpenFault) -> Result<LineVerdict, AllocError> {
    let line = line_of(fault);
    let texts = Texts {
        whole: text,
        read: text,
    };
    match find_quote(alloc, text, line, fault)? {
        Some(quoted) => Ok(LineVerdict {
            line,
            said: reason_in(alloc, &texts, fault, &quoted)?,
            concern: concern_of(alloc, fault, &quoted)?,
        }),
        None => Ok(LineVerdict {
            line,
            said: String::from_str(alloc, sentence(fault))?,
            concern: Concern::Clients,
        }),
    }
}
