//! Words that HAProxy has and this program does not, each with what to do instead.
use crate::criteria::{CONDITIONS, CRITERIA, FLAGS};
use crate::global_words::GLOBAL;
use crate::line_words::{
    ACTIONS, BALANCE, BIND, KEYS, MODES, REQUESTS, SERVER, STORED, TABLE, TYPES,
};
use crate::section_words::{LINES, OPTIONS, SECTIONS, TIMEOUTS};

/// What a word of HAProxy's is about, which decides whether a configuration may do without it.
#[derive(Clone, Copy, Debug, PartialEq, Eq)]
pub enum Concern {
    /// It limits, refuses, keeps or serves clients: without it some connection may be treated otherwise.
    Clients,
    /// HTTP: HAProxy itself has no use for it in `mode tcp`.
    Http,
    /// Logs, statistics, speed or the process: each connection is treated the same without it.
    Process,
}

/// Words of HAProxy's, and what is said of each of them.
#[derive(Clone, Copy)]
pub struct Advice {
    /// The words, with spaces between them. `tune.*` is each word that begins with `tune.`, and `*_rate` each one that
    /// ends with `_rate`.
    pub words: &'static str,
    pub concern: Concern,
    /// How many words after it belong to it.
    pub values: u8,
    /// What to do instead.
    pub sentence: &'static str,
}

/// The place of a word in a line.
#[derive(Clone, Copy, Debug, PartialEq, Eq)]
pub enum WordPlace {
    /// The first word of a line in `global`.
    Global,
    /// The first word of a line in another section, or above all sections.
    Line,
    /// The first word of a line that begins a section of HAProxy's.
    Section,
    /// The name of a section or a server.
    Name,
    /// After `mode`, `balance`, `option` and `timeout`.
    Mode,
    Balance,
    Option,
    Timeout,
    /// After `log`, except in `global`.
    Log,
    /// An option of a `bind` line.
    Bind,
    /// An option of a `server` line.
    Server,
    /// After `tcp-request`.
    Request,
    /// The action of a `tcp-request` line.
    Action,
    /// What a rule tracks.
    Key,
    /// The layer of `expect-proxy`.
    Layer,
    /// An option of a `stick-table` line, its type, and what it stores.
    Table,
    Type,
    Stored,
    /// Where `if` or `unless` may be.
    When,
    /// The criterion of a test.
    Criterion,
    /// A value of a test.
    Value,
    /// The name of an `acl` in a condition.
    Condition,
    Elsewhere,
}

/// What is said of words at a place.
pub fn table_of(place: WordPlace) -> &'static [Advice] {
    match place {
        WordPlace::Global => &GLOBAL,
        WordPlace::Line => &LINES,
        WordPlace::Section => &SECTIONS,
        WordPlace::Mode => &MODES,
        WordPlace::Balance => &BALANCE,
        WordPlace::Option => &OPTIONS,
        WordPlace::Timeout => &TIMEOUTS,
        WordPlace::Bind => &BIND,
        WordPlace::Server => &SERVER,
        WordPlace::Request => &REQUESTS,
        WordPlace::Action => &ACTIONS,
        WordPlace::Key => &KEYS,
        WordPlace::Table => &TABLE,
        WordPlace::Type => &TYPES,
        WordPlace::Stored => &STORED,
        WordPlace::Criterion => &CRITERIA,
        WordPlace::Value => &FLAGS,
        WordPlace::Condition => &CONDITIONS,
        WordPlace::Name
        | WordPlace::Log
        | WordPlace::Layer
        | WordPlace::When
        | WordPlace::Elsewhere => &[],
    }
}

/// Whether a word is one that a table means by a pattern.
fn is_named(pattern: &str, word: &str) -> bool {
    if let Some(end) = pattern.strip_prefix('*') {
        return word.ends_with(end);
    }
    match pattern.strip_suffix('*') {
        Some(front) => word.starts_with(front),
        None => pattern == word,
    }
}

/// A word without its arguments and converters: `src_conn_rate` of `src_conn_rate(st),add(1)`.
pub fn bare_word(word: &str) -> &str {
    for (at, byte) in word.bytes().enumerate() {
        if byte == b'(' || byte == b',' {
            return word.get(..at).unwrap_or(word);
        }
    }
    word
}

/// What is said of a word at a place, if HAProxy has it there.
pub fn advice_on(place: WordPlace, word: &str) -> Option<&'static Advice> {
    let word = bare_word(word);
    for advice in table_of(place) {
        for pattern in advice.words.split_ascii_whitespace() {
            if is_named(pattern, word) {
                return Some(advice);
            }
        }
    }
    None
}

/// Whether a word begins a section of HAProxy's.
pub fn begins_section(word: &str) -> bool {
    matches!(word, "global" | "defaults" | "frontend" | "backend")
        || advice_on(WordPlace::Section, word).is_some()
}
