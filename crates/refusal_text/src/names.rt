//! The names in the text around a faulty line.
use crate::message::Texts;
use crate::quote::{Quote, code_of, first_word, opens_section, text_of};
use std::alloc::{AllocError, Global};

/// The second word of a line that begins with that keyword.
fn named_by<'a>(line: &'a str, keyword: &str) -> Option<&'a str> {
    let mut words = code_of(line).split_ascii_whitespace();
    if words.next() != Some(keyword) {
        return None;
    }
    words.next()
}

/// The names of the backends, with spaces between them.
pub fn backend_names(alloc: Global, text: &str) -> Result<String, AllocError> {
    let mut names = String::new(alloc);
    for line in text.lines() {
        if let Some(name) = named_by(line, "backend") {
            names.push_str(name)?;
            names.push(' ')?;
        }
    }
    Ok(names)
}

/// The names that `acl` lines declare above the line of that number in its section, with spaces between them.
pub fn acl_names(alloc: Global, text: &str, number: u32) -> Result<String, AllocError> {
    let mut names = String::new(alloc);
    for line in text.lines().take(number.saturating_sub(1) as usize) {
        if opens_section(line) {
            names.clear();
        } else if let Some(name) = named_by(line, "acl") {
            names.push_str(name)?;
            names.push(' ')?;
        }
    }
    Ok(names)
}

/// The line of the section above the line of that number which declares the wrong word and is refused.
pub fn refused_acl(texts: &Texts<'_>, number: u32, quoted: &Quote<'_>) -> Option<u32> {
    let span = quoted.word?;
    let name = text_of(quoted.line, &span);
    let mut found = None;
    let mut at = 0u32;
    for (line, read) in texts.whole.lines().zip(texts.read.lines()) {
        at = at.saturating_add(1);
        if at >= number {
            break;
        }
        if opens_section(read) {
            found = None;
        } else if named_by(line, "acl") == Some(name) && first_word(read).is_empty() {
            found = Some(at);
        }
    }
    found
}
