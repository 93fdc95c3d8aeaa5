//! The words that are taken, and the one of them that is nearest to another word.
use crate::words::{WordPlace, bare_word};
use std::alloc::{AllocError, Global};
use strsim::osa_distance;

/// The keywords, each with the sections that take it.
static KEYWORDS: [(&str, &str); 20] = [
    ("acl", "frontend"),
    ("balance", "defaults backend"),
    ("bind", "frontend"),
    ("default_backend", "defaults frontend"),
    ("maxconn", "defaults frontend"),
    ("mode", "defaults frontend backend"),
    ("option", "defaults frontend backend"),
    ("retries", "defaults frontend backend"),
    ("server", "backend"),
    ("stick-table", "frontend backend"),
    ("tcp-request", "frontend"),
    ("timeout", "defaults frontend backend"),
    ("use_backend", "frontend"),
    ("log", "global defaults frontend backend"),
    ("daemon", "global"),
    ("user", "global"),
    ("group", "global"),
    ("chroot", "global"),
    ("pidfile", "global"),
    ("nbthread", "global"),
];

/// The criteria.
const CRITERIA: &str = "src fe_conn fe_conn(frontend) be_conn(backend) src_conn_cur src_conn_cnt \
    src_conn_cur(table) src_conn_cnt(table) sc0_conn_cur sc0_conn_cnt sc1_conn_cur sc1_conn_cnt \
    sc2_conn_cur sc2_conn_cnt";

/// A longer word is not compared with others, since that would take long.
const LONGEST_WORD: usize = 64;

/// What begins a section.
pub const SECTION_WORDS: &str = "global defaults frontend backend";

fn has_word(words: &str, word: &str) -> bool {
    words.split_ascii_whitespace().any(|other| other == word)
}

/// The sections that take a keyword, if there are any.
pub fn sections_of(keyword: &str) -> Option<&'static str> {
    for (word, sections) in &KEYWORDS {
        if *word == keyword {
            return Some(*sections);
        }
    }
    None
}

/// The keywords that a section of that kind takes, with spaces between them. Outside of all sections there are those
/// that begin one.
fn keywords_in(alloc: Global, section: &str) -> Result<String, AllocError> {
    if section.is_empty() {
        return String::from_str(alloc, SECTION_WORDS);
    }
    let mut all = String::new(alloc);
    for (word, sections) in &KEYWORDS {
        if has_word(sections, section) {
            all.push_str(word)?;
            all.push(' ')?;
        }
    }
    Ok(all)
}

/// The words that are taken at a place, which is the first word of a line in a section of that kind or another place.
pub fn words_at(alloc: Global, place: WordPlace, section: &str) -> Result<String, AllocError> {
    let fixed = match place {
        WordPlace::Global | WordPlace::Line | WordPlace::Section => return keywords_in(
            alloc, section,
        ),
        WordPlace::Mode => "tcp",
        WordPlace::Balance => "roundrobin leastconn source",
        WordPlace::Option => "redispatch tcplog dontlognull",
        WordPlace::Timeout => "connect client server",
        WordPlace::Log => "global",
        WordPlace::Bind => "accept-proxy",
        WordPlace::Server =>
            "weight maxconn disabled send-proxy send-proxy-v2 check inter fall rise",
        WordPlace::Request => "connection session",
        WordPlace::Action => "accept reject track-sc0 track-sc1 track-sc2 expect-proxy",
        WordPlace::Key => "src",
        WordPlace::Layer => "layer4",
        WordPlace::Table => "type size expire store",
        WordPlace::Type => "ip ipv6",
        WordPlace::Stored => "conn_cur conn_cnt",
        WordPlace::When => "if unless",
        WordPlace::Criterion => CRITERIA,
        WordPlace::Name | WordPlace::Value | WordPlace::Condition | WordPlace::Elsewhere => "",
    };
    String::from_str(alloc, fixed)
}

/// The word that is nearest to another one, if one of them is near: a third of its letters may differ. Arguments in
/// brackets do not count.
pub fn nearest<'a>(
    alloc: Global,
    words: &'a str,
    word: &str,
) -> Result<Option<&'a str>, AllocError> {
    let mut found = None;
    let bare = bare_word(word);
    if bare.len() > LONGEST_WORD {
        return Ok(None);
    }
    let mut least = bare.len().saturating_add(1) / 3 + 1;
    for other in words.split_ascii_whitespace() {
        let distance = osa_distance(alloc, bare, bare_word(other))?;
        if distance < least {
            least = distance;
            found = Some(other);
        }
    }
    Ok(found)
}

/// Words with commas between them.
pub fn listed(alloc: Global, words: &str) -> Result<String, AllocError> {
    let mut list = String::new(alloc);
    for word in words.split_ascii_whitespace() {
        if !list.is_empty() {
            list.push_str(", ")?;
        }
        list.push_str(word)?;
    }
    Ok(list)
}
