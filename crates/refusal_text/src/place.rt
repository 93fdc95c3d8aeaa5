//! Where in its line a word is.
use crate::quote::{Span, text_of};
use crate::words::WordPlace;

/// The word of that number, from 0.
fn word_at<'a>(line: &'a str, words: &[Span], number: usize) -> &'a str {
    match words.get(number) {
        Some(span) => text_of(line, span),
        None => "",
    }
}

/// The number of a word, from 0. Marks in front of it do not count.
fn number_of(words: &[Span], word: &Span) -> usize {
    for (number, other) in words.iter().enumerate() {
        if other.to == word.to {
            return number;
        }
    }
    0
}

fn place_in_rule(action: &str, before: &str, number: usize) -> WordPlace {
    match number {
        1 => WordPlace::Request,
        2 => WordPlace::Action,
        3 if action.starts_with("track-sc") => WordPlace::Key,
        3 if action == "expect-proxy" => WordPlace::Layer,
        _ if before == "table" => WordPlace::Name,
        _ => WordPlace::When,
    }
}

fn place_in_table(before: &str) -> WordPlace {
    match before {
        "type" => WordPlace::Type,
        "store" => WordPlace::Stored,
        _ => WordPlace::Table,
    }
}

/// The place of a word that is not the first one.
fn place_after(line: &str, words: &[Span], number: usize) -> WordPlace {
    let before = word_at(line, words, number.saturating_sub(1));
    match word_at(line, words, 0) {
        "mode" if number == 1 => WordPlace::Mode,
        "balance" if number == 1 => WordPlace::Balance,
        "option" if number == 1 => WordPlace::Option,
        "timeout" if number == 1 => WordPlace::Timeout,
        "log" if number == 1 => WordPlace::Log,
        "bind" => WordPlace::Bind,
        "server" if number == 1 => WordPlace::Name,
        "server" => WordPlace::Server,
        "tcp-request" => place_in_rule(word_at(line, words, 2), before, number),
        "stick-table" => place_in_table(before),
        "use_backend" if number == 2 => WordPlace::When,
        "defaults" | "frontend" | "backend" | "default_backend" | "use_backend" => WordPlace::Name,
        _ => WordPlace::Elsewhere,
    }
}

/// The word before that one, or no text.
pub fn word_before<'a>(line: &'a str, words: &[Span], word: &Span) -> &'a str {
    match number_of(words, word).checked_sub(1) {
        Some(number) => word_at(line, words, number),
        None => "",
    }
}

/// The place of a word of a line, in a section of that kind.
pub fn place_of(section: &str, line: &str, words: &[Span], word: &Span) -> WordPlace {
    match number_of(words, word) {
        0 if section == "global" => WordPlace::Global,
        0 => WordPlace::Line,
        number => place_after(line, words, number),
    }
}
