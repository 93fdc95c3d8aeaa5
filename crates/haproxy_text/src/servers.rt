//! `server` and `bind` lines without the options that clients notice nothing of.
use refusal_text::{Concern, WordPlace, advice_on};
use std::alloc::{AllocError, Global};

/// A line in the words of `l4proxy`, and what is said of the words that it lacks.
#[derive(Drop)]
pub struct WrittenLine {
    pub code: String,
    pub notes: Vec<String>,
}

/// How many words after an option of `l4proxy` belong to it, if it is one.
fn own_values(place: WordPlace, word: &str) -> Option<u8> {
    match (place, word) {
        (WordPlace::Server, "weight" | "maxconn" | "inter" | "fall" | "rise") => Some(1),
        (WordPlace::Server, "disabled" | "send-proxy" | "send-proxy-v2" | "check") => Some(0),
        (WordPlace::Bind, "accept-proxy") => Some(0),
        _ => None,
    }
}

/// What becomes of an option: whether it is left out, and how many words after it belong to it.
fn option_of(place: WordPlace, word: &str) -> (bool, u8) {
    match (own_values(place, word), advice_on(place, word)) {
        (Some(values), _) => (false, values),
        (None, Some(advice)) => (advice.concern != Concern::Clients, advice.values),
        (None, None) => (false, 0),
    }
}

/// Why an option is left out.
fn note_of(alloc: Global, place: WordPlace, word: &str) -> Result<String, AllocError> {
    match advice_on(place, word) {
        Some(advice) => {
            let why = advice.sentence;
            let why = why.strip_prefix("remove it: ").unwrap_or(why);
            format!(in alloc; "`{word}` is left out: {why}")
        }
        None => format!(in alloc; "`{word}` is left out"),
    }
}

/// Adds the options of a line that are taken, or that are refused where the line is read.
pub fn add_options(
    alloc: Global,
    written: &mut WrittenLine,
    place: WordPlace,
    options: &str,
) -> Result<(), AllocError> {
    let mut values = 0u8;
    let mut is_left_out = false;
    for word in options.split_ascii_whitespace() {
        if values > 0 {
            values -= 1;
        } else {
            (is_left_out, values) = option_of(place, word);
            if is_left_out {
                written.notes.push(note_of(alloc, place, word)?)?;
            }
        }
        if !is_left_out {
            written.code.push(' ')?;
            written.code.push_str(word)?;
        }
    }
    Ok(())
}

/// The words of a line after those of that number, with spaces between them.
pub fn words_after(alloc: Global, code: &str, number: usize) -> Result<String, AllocError> {
    let mut out = String::new(alloc);
    for word in code.split_ascii_whitespace().skip(number) {
        if !out.is_empty() {
            out.push(' ')?;
        }
        out.push_str(word)?;
    }
    Ok(out)
}

/// A `server` line with the options of `default-server` lines in front of its own, which replace them.
pub fn server_line(alloc: Global, code: &str, defaults: &str) -> Result<WrittenLine, AllocError> {
    let mut words = code.split_ascii_whitespace().skip(1);
    let name = words.next().unwrap_or("");
    let address = words.next().unwrap_or("");
    let mut written = WrittenLine {
        code: format!(in alloc; "server {name} {address}")?,
        notes: Vec::new(alloc),
    };
    add_options(alloc, &mut written, WordPlace::Server, defaults)?;
    let own = words_after(alloc, code, 3)?;
    add_options(alloc, &mut written, WordPlace::Server, own.as_str())?;
    Ok(written)
}

/// An address of a `bind` line. HAProxy writes every address of IPv6 without brackets.
fn bind_address(alloc: Global, address: &str) -> Result<String, AllocError> {
    match address.strip_prefix(":::") {
        Some(port) => format!(in alloc; "[::]:{port}"),
        None => String::from_str(alloc, address),
    }
}

/// The `bind` lines that a line of HAProxy's stands for: one for each of its addresses, with its options.
pub fn bind_lines(alloc: Global, code: &str) -> Result<Vec<WrittenLine>, AllocError> {
    let addresses = code.split_ascii_whitespace().nth(1).unwrap_or("");
    let options = words_after(alloc, code, 2)?;
    let mut all = Vec::new(alloc);
    for address in addresses.split(',') {
        let address = bind_address(alloc, address)?;
        let mut written = WrittenLine {
            code: format!(in alloc; "bind {address}")?,
            notes: Vec::new(alloc),
        };
        add_options(alloc, &mut written, WordPlace::Bind, options.as_str())?;
        all.push(written)?;
    }
    Ok(all)
}
