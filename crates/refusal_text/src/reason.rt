//! What is wrong with a quoted line, and what to write instead.
use crate::advice::{of_characters, of_condition, sentence};
use crate::own_words::{SECTION_WORDS, listed, nearest, sections_of, words_at};
use crate::place::{place_of, word_before};
use crate::quote::{Quote, first_word, text_of, words_of};
use crate::words::{Advice, Concern, WordPlace, advice_on, begins_section};
use acl_core::AclFault;
use conf_text::LineKind;
use conf_tree::ConfKind;
use config_core::OpenFault;
use plan_core::PlanKind;
use std::alloc::{AllocError, Global};

const NAME: &str = "a name has letters, digits, -, _, . and : only";

const TIME: &str =
    "a time is needed here: decimal digits and a unit, us, ms, s, m, h or d, as 500ms or 30s";

const MASK: &str = "write how many of the first bits count, as 10.0.0.0/8";

const NO_HOSTS: &str = "names of hosts are not looked up: write an address";

const NO_VARIABLES: &str = "there are no variables: write what is meant";

/// What the names in the text around a line are.
#[derive(Clone, Copy)]
pub struct Names<'a> {
    /// The backends of the text, and the names that are declared above the line, with spaces between them.
    pub backends: &'a str,
    pub acls: &'a str,
    /// The refused line above it that declares the name which is not known.
    pub refused: Option<u32>,
}

/// A section by its kind and its name, as "frontend `shop`".
fn section_name(alloc: Global, section: Option<&str>) -> Result<String, AllocError> {
    let line = section.unwrap_or("");
    let words = words_of(alloc, line)?;
    match words.as_slice() {
        [kind, name, ..] => {
            format!(in alloc; "{} `{}`", text_of(line, kind), text_of(line, name))
        }
        [kind] => format!(in alloc; "{}", text_of(line, kind)),
        [] => format!(in alloc; "this file"),
    }
}

/// The word that is wrong, if it is known.
fn wrong_word<'a>(quoted: &Quote<'a>) -> &'a str {
    match &quoted.word {
        Some(span) => text_of(quoted.line, span),
        None => "",
    }
}

fn advised(alloc: Global, word: &str, advice: &Advice) -> Result<String, AllocError> {
    format!(in alloc; "`{word}`: {}", advice.sentence)
}

/// That a word is not one of those that are taken, which are listed, and which of them is near.
fn not_among(
    alloc: Global,
    word: &str,
    what: &str,
    taken: &str,
    others: &str,
) -> Result<String, AllocError> {
    let mut out = format!(in alloc; "`{word}` is {what}")?;
    let list = listed(alloc, taken)?;
    if !list.is_empty() {
        out.push_str(if list.contains(',') {
            "; taken are "
        } else {
            "; taken is "
        })?;
        out.push_str(list.as_str())?;
    }
    let near = match nearest(alloc, taken, word)? {
        Some(near) => Some(near),
        None => nearest(alloc, others, word)?,
    };
    if let Some(near) = near {
        out.push_str("; did you mean `")?;
        out.push_str(near)?;
        out.push_str("`?")?;
    }
    Ok(out)
}

/// What is said of the first word of a line that HAProxy has in this section or in another one.
fn advice_on_line(place: WordPlace, word: &str) -> Option<&'static Advice> {
    for place in [
        place,
        WordPlace::Section,
        WordPlace::Line,
        WordPlace::Global,
    ] {
        if let Some(advice) = advice_on(place, word) {
            return Some(advice);
        }
    }
    None
}

/// Whether a word is a keyword, here or in HAProxy.
pub fn is_keyword(word: &str) -> bool {
    sections_of(word).is_some() || advice_on_line(WordPlace::Line, word).is_some()
}

/// Whether a word begins a section, or is none that is known and near to one that does.
pub fn is_head(alloc: Global, word: &str) -> Result<bool, AllocError> {
    if begins_section(word) {
        return Ok(true);
    }
    Ok(!is_keyword(word) && nearest(alloc, SECTION_WORDS, word)?.is_some())
}

/// What is wrong with the first word of a line.
fn of_keyword(
    alloc: Global,
    section: &str,
    place: WordPlace,
    word: &str,
) -> Result<String, AllocError> {
    if let Some(sections) = sections_of(word) {
        if place != WordPlace::Global || advice_on(place, word).is_none() {
            let list = listed(alloc, sections)?;
            return format!(in alloc; "`{word}` is not taken here: it is a keyword of {list}");
        }
    }
    if let Some(advice) = advice_on_line(place, word) {
        return advised(alloc, word, advice);
    }
    let taken = words_at(alloc, place, section)?;
    not_among(alloc, word, "no keyword", taken.as_str(), SECTION_WORDS)
}

/// The first part of a list of stored counts that is not taken.
fn foreign_part(word: &str) -> &str {
    for part in word.split(',') {
        if part != "conn_cur" && part != "conn_cnt" {
            return part;
        }
    }
    word
}

/// What is wrong with a word that is not the first one of its line.
fn of_option(
    alloc: Global,
    section: &str,
    place: WordPlace,
    word: &str,
) -> Result<String, AllocError> {
    let word = match place {
        WordPlace::Name => return String::from_str(alloc, NAME),
        WordPlace::Log => return String::from_str(
            alloc,
            "there is no syslog: write log global, which is read without effect, or remove the line",
        ),
        WordPlace::Action if word == "expect-proxy" => return String::from_str(
            alloc,
            "a header is expected by tcp-request connection rules alone, before those of session are tried",
        ),
        WordPlace::Stored => foreign_part(word),
        _ => word,
    };
    if let Some(advice) = advice_on(place, word) {
        return advised(alloc, word, advice);
    }
    let taken = words_at(alloc, place, section)?;
    not_among(alloc, word, "not taken here", taken.as_str(), "")
}

/// What is wrong with a word that is not taken at its place.
fn of_word(alloc: Global, quoted: &Quote<'_>) -> Result<String, AllocError> {
    let Some(span) = &quoted.word else {
        return String::from_str(alloc, "this line is not taken here");
    };
    let section = first_word(quoted.section.unwrap_or(""));
    let words = words_of(alloc, quoted.line)?;
    let word = text_of(quoted.line, span);
    match place_of(section, quoted.line, words.as_slice(), span) {
        place @ (WordPlace::Global | WordPlace::Line) => of_keyword(alloc, section, place, word),
        place => of_option(alloc, section, place, word),
    }
}

/// What a refused line is about, by the word of it that is wrong: the clients, unless that word decides what the whole
/// line is about and HAProxy has it for something else.
pub fn concern_of(
    alloc: Global,
    fault: &OpenFault,
    quoted: &Quote<'_>,
) -> Result<Concern, AllocError> {
    let (OpenFault::Config(fault), Some(span)) = (fault, &quoted.word) else {
        return Ok(Concern::Clients);
    };
    if !matches!(fault.kind, ConfKind::UnknownKeyword | ConfKind::Unsupported) {
        return Ok(Concern::Clients);
    }
    let section = first_word(quoted.section.unwrap_or(""));
    let words = words_of(alloc, quoted.line)?;
    let word = text_of(quoted.line, span);
    let place = place_of(section, quoted.line, words.as_slice(), span);
    let advice = match place {
        WordPlace::Global | WordPlace::Line => advice_on_line(place, word),
        WordPlace::Option | WordPlace::Timeout | WordPlace::Mode | WordPlace::Request => advice_on(
            place, word,
        ),
        WordPlace::Log => return Ok(Concern::Process),
        _ => None,
    };
    Ok(match advice {
        Some(advice) => advice.concern,
        None => Concern::Clients,
    })
}

fn has_letters(word: &str) -> bool {
    word.bytes().any(|byte| byte.is_ascii_alphabetic())
}

/// The port of an endpoint, or what is in its place.
fn port_of(word: &str) -> &str {
    match word.rsplit_once(':') {
        Some((_front, port)) => port,
        None => "",
    }
}

/// What is wrong with a word where an address with a port is needed.
fn of_address(word: &str) -> Option<&'static str> {
    if word.contains(',') {
        return Some("one address a line: write a line for each of them");
    }
    if word.contains('@') || word.starts_with('/') {
        return Some(
            "there are no Unix sockets and no inherited ones: write an address with a port, as 192.0.2.1:80",
        );
    }
    if word.contains('$') || word.contains('%') {
        return Some(NO_VARIABLES);
    }
    if port_of(word).contains('-') {
        return Some("there are no ranges of ports: write a line for each port");
    }
    if port_of(word).starts_with('+') {
        return Some("the port is not counted from the client's one: write the port itself");
    }
    if !word.contains('[') && word.split(':').count() > 2 {
        return Some(
            "an IPv6 address with a port is in brackets, as [2001:db8::1]:80, and [::]:80 for all",
        );
    }
    if has_letters(word) && !word.contains('[') {
        return Some(
            "names of hosts are not looked up: write an address with a port, as 192.0.2.1:80 or [2001:db8::1]:80",
        );
    }
    if !word.contains(':') {
        return Some("a port is missing, as in 192.0.2.1:80; a server has always one");
    }
    None
}

/// What is wrong with a value of a test.
fn of_value(alloc: Global, word: &str) -> Result<String, AllocError> {
    if let Some(advice) = advice_on(WordPlace::Value, word) {
        return advised(alloc, word, advice);
    }
    if let Some((_network, mask)) = word.split_once('/') {
        if mask.contains('.') {
            return format!(in alloc; "`{word}`: {MASK}");
        }
    }
    if word.contains('$') || word.contains('%') {
        return format!(in alloc; "`{word}`: {NO_VARIABLES}");
    }
    if has_letters(word) && !word.contains(':') {
        return format!(in alloc;
            "`{word}`: {NO_HOSTS}; {}",
            of_condition(&AclFault::BadPattern)
        );
    }
    String::from_str(alloc, of_condition(&AclFault::BadPattern))
}

/// What is wrong with a name of an `acl` that is not known.
fn of_unknown_name(
    alloc: Global,
    quoted: &Quote<'_>,
    names: &Names<'_>,
) -> Result<String, AllocError> {
    let word = wrong_word(quoted);
    if let Some(line) = names.refused {
        return format!(in alloc; "the acl `{word}` is declared on line {line}, which is refused");
    }
    if let Some(advice) = advice_on(WordPlace::Condition, word) {
        return advised(alloc, word, advice);
    }
    if word.contains('{') || word.contains('}') {
        return String::from_str(alloc, of_condition(&AclFault::BadBraces));
    }
    let section = section_name(alloc, quoted.section)?;
    let said = format!(in alloc; "no acl named `{word}` is declared above this line in {section}")?;
    with_near(alloc, said, names.acls, word)
}

/// A sentence, and which of the names is near.
fn with_near(alloc: Global, said: String, names: &str, word: &str) -> Result<String, AllocError> {
    match nearest(alloc, names, word)? {
        Some(near) => format!(in alloc; "{said}; did you mean `{near}`?"),
        None => Ok(said),
    }
}

/// What is wrong with a word where a number or a time is needed.
fn of_number(alloc: Global, quoted: &Quote<'_>) -> Result<Option<&'static str>, AllocError> {
    let Some(span) = &quoted.word else {
        return Ok(None);
    };
    let words = words_of(alloc, quoted.line)?;
    let before = word_before(quoted.line, words.as_slice(), span);
    if first_word(quoted.line) == "timeout" || matches!(before, "inter" | "expire") {
        return Ok(Some(TIME));
    }
    if text_of(quoted.line, span).contains('$') {
        return Ok(Some(NO_VARIABLES));
    }
    Ok(None)
}

/// What is wrong with the words of a line, where there is more to say than the sentence of the kind.
fn of_line(
    alloc: Global,
    kind: &ConfKind,
    quoted: &Quote<'_>,
    names: &Names<'_>,
) -> Result<Option<String>, AllocError> {
    let word = wrong_word(quoted);
    let fixed = match kind {
        ConfKind::UnknownKeyword | ConfKind::Unsupported => {
            return Ok(Some(of_word(alloc, quoted)?));
        }
        ConfKind::Acl(AclFault::UnknownName) => {
            return Ok(Some(of_unknown_name(alloc, quoted, names)?));
        }
        ConfKind::Acl(AclFault::UnknownCriterion) => {
            return Ok(Some(of_criterion(alloc, word)?));
        }
        ConfKind::Acl(AclFault::BadPattern) => {
            return Ok(Some(of_value(alloc, word)?));
        }
        ConfKind::BadAddress => of_address(word),
        ConfKind::BadNumber => of_number(alloc, quoted)?,
        ConfKind::Text(LineKind::Quoting) => Some(of_characters(&LineKind::Quoting)),
        ConfKind::ExtraWord if first_word(quoted.line) == "bind" => match advice_on(
            WordPlace::Bind,
            word,
        ) {
            Some(advice) => Some(advice.sentence),
            None => None,
        },
        ConfKind::ExtraWord if word == "from" => Some(
            "a section takes from the last defaults above it alone: remove this, and put the section below its defaults",
        ),
        _ => None,
    };
    match fixed {
        Some(fixed) => Ok(Some(format!(in alloc; "`{word}`: {fixed}")?)),
        None => Ok(None),
    }
}

/// What is wrong with a word where a criterion is needed.
fn of_criterion(alloc: Global, word: &str) -> Result<String, AllocError> {
    if let Some(advice) = advice_on(WordPlace::Criterion, word) {
        return advised(alloc, word, advice);
    }
    let taken = words_at(alloc, WordPlace::Criterion, "")?;
    not_among(alloc, word, "no criterion", taken.as_str(), "")
}

/// What is wrong with a quoted line.
pub fn reason(
    alloc: Global,
    fault: &OpenFault,
    quoted: &Quote<'_>,
    names: &Names<'_>,
) -> Result<String, AllocError> {
    let word = wrong_word(quoted);
    match fault {
        OpenFault::Config(fault) => match of_line(alloc, &fault.kind, quoted, names)? {
            Some(said) => Ok(said),
            None => String::from_str(alloc, sentence(&OpenFault::Config(*fault))),
        },
        OpenFault::Plan(fault) => match fault.kind {
            PlanKind::NoBackend => {
                let said = format!(in alloc; "no backend is named `{word}`")?;
                with_near(alloc, said, names.backends, word)
            }
            PlanKind::NoFrontend => format!(in alloc; "no frontend is named `{word}`"),
            _ => String::from_str(alloc, sentence(&OpenFault::Plan(*fault))),
        },
        OpenFault::NoMemory => String::from_str(alloc, sentence(fault)),
    }
}
