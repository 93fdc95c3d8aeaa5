//! The words of a line of HAProxy's without its quotes, where they mean the same (HAProxy manual, "Quoting and
//! escaping").
use std::alloc::{AllocError, Global};

/// What a character is inside of.
#[derive(Clone, Copy, PartialEq, Eq)]
enum Quotes {
    Outside,
    Strong,
    Weak,
}

/// Whether a character means itself in a word, quoted or not.
fn is_plain(character: char) -> bool {
    matches!(character, '!'..='~') && !matches!(character, '#' | '"' | '\'' | '\\')
}

/// What a character is inside of once it is read, and whether it belongs to a word. Nothing is said of one that has no
/// plain form: a space in quotes, a variable, a character that is escaped.
fn after(quotes: Quotes, character: char) -> Option<(Quotes, bool)> {
    match (quotes, character) {
        (Quotes::Outside, '\'') => Some((Quotes::Strong, false)),
        (Quotes::Outside, '"') => Some((Quotes::Weak, false)),
        (Quotes::Strong, '\'') | (Quotes::Weak, '"') => Some((Quotes::Outside, false)),
        (_, '\\') | (Quotes::Weak, '$') => None,
        (Quotes::Outside, _) => Some((Quotes::Outside, true)),
        (_, character) if is_plain(character) => Some((quotes, true)),
        _ => None,
    }
}

/// The line without its comment and its quotes, if it has a plain form.
pub fn plain_code(alloc: Global, line: &str) -> Result<Option<String>, AllocError> {
    let mut code = String::new(alloc);
    let mut quotes = Quotes::Outside;
    let mut length = 0usize;
    for character in line.chars() {
        if quotes == Quotes::Outside && character == '#' {
            break;
        }
        let Some((next, is_kept)) = after(quotes, character) else {
            return Ok(None);
        };
        if quotes == Quotes::Outside && next != Quotes::Outside {
            length = code.len();
        }
        let is_closed = quotes != Quotes::Outside && next == Quotes::Outside;
        if is_closed && code.len() == length {
            return Ok(None);
        }
        if is_kept {
            code.push(character)?;
        }
        quotes = next;
    }
    Ok(if quotes == Quotes::Outside {
        Some(code)
    } else {
        None
    })
}
