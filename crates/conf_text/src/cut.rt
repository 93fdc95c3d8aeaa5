//! Lines of a text, and words of a line.
ghost use Rattle.std.specs.Prelude.{◌≡◌, ◌<◌, ◌≤◌, ◌∷◌, length, IfOk};
ghost use Rattle.memchr.specs.Find.{IsFirstByte};
ghost use Rattle.text_core.specs.Parts.{parts, before, is_line_feed};
ghost use Rattle.conf_text.specs.Parts.{is_hash, is_blank, without_return, words_in};

use crate::line::MOST_WORDS;
use list_core::Seq;
use memchr::{memchr, memchr2};
use std::alloc::{AllocError, Global};
use text_core::{Word, cut_line};

/// The bytes of text for which a line has room for one word at first.
const BYTES_OF_WORD: usize = 6;

/// The first line, and the text after it. The last line may lack its LF.
pub fn first_line(text: &[u8]) -> (&[u8], &[u8])
    requires { 0 < length text.now }
    ensures parts { parts is_line_feed text.now ≡ result.0.now ∷ parts is_line_feed result.1.now }
    ensures less { length result.1.now < length text.now }
{
    match cut_line(text) {
        Some(cut) => cut,
        None => (text, &text[text.len()..]),
    }
}

fn is_blank(b: u8) -> bool
    ensures { result ≡ is_blank b }
{
    b == b' ' || b == b'\t'
}

/// The place of the first blank. The first byte is looked at first, since lines begin with several blanks.
fn blank_at(text: &[u8]) -> Option<usize>
    requires { 0 < length text.now }
    ensures { IsFirstByte is_blank text.now result }
{
    if is_blank(text[0]) {
        return Some(0);
    }
    memchr2(b' ', b'\t', text)
}

/// The part of a line before its first blank, and the line after it.
fn first_part(text: &[u8]) -> (&[u8], &[u8])
    requires { 0 < length text.now }
    ensures parts { parts is_blank text.now ≡ result.0.now ∷ parts is_blank result.1.now }
    ensures less { length result.1.now < length text.now }
{
    match blank_at(text) {
        Some(at) => (&text[..at], &text[at + 1..]),
        None => (text, &text[text.len()..]),
    }
}

/// The line before its comment.
pub fn without_comment(line: &[u8]) -> &[u8]
    ensures { result.now ≡ before is_hash line.now }
{
    match memchr(b'#', line) {
        Some(at) => &line[..at],
        None => line,
    }
}

/// The line without a carriage return at its end.
pub fn without_return(line: &[u8]) -> &[u8]
    ensures { result.now ≡ without_return line.now }
{
    if line.is_empty() || line[line.len() - 1] != b'\r' {
        return line;
    }
    &line[..line.len() - 1]
}

/// How many words there is room for at first in a text that begins with one. Few lines have a word in fewer bytes than
/// `BYTES_OF_WORD`, the blank after it counted.
fn word_room(text: &[u8]) -> usize
    ensures { result ≤ MOST_WORDS }
{
    (text.len() / BYTES_OF_WORD + 1).min(MOST_WORDS)
}

/// The words of a line without comment.
pub fn words(alloc: Global, code: &[u8]) -> Result<Seq<Word>, AllocError>
    ensures { IfOk result (λ words. words ≡ words_in code.now) }
{
    let mut words = Vec::new(alloc);
    let mut rest = code;
    while !rest.is_empty() {
        let (part, after) = first_part(rest);
        if !part.is_empty() {
            if words.is_empty() {
                words.reserve_exact(word_room(rest))?;
            }
            words.push(Word::of(part))?;
        }
        rest = after;
    }
    Ok(Seq::of(words))
}
