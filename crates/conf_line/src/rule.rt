//! Rules of a frontend.
ghost use Rattle.std.specs.Prelude.{◌≡◌, ◌<◌, IfOk};
ghost use Rattle.list_core.specs.Each.{Gives};
ghost use Rattle.acl_core.specs.Reading as reading;
ghost use Rattle.conf_line.specs.Acls.{acl_result};
ghost use Rattle.conf_line.specs.Words.{Sees};
ghost use Rattle.conf_line.specs.Sound.{IsSoundAction, IsSoundStatement};
ghost use Rattle.conf_line.specs.Rules.{when_of, table_at, track_at, header_at, action_at, ruleset_at, head_at, rule_of, choice_of};

use crate::fault::ConfKind;
use crate::statement::{ActionWords, Ruleset, Statement, TrackWords};
use crate::words::{name_at, word_at};
use acl_core::{AclFault, Cond, When, read_cond};
use list_core::Stop;
use proxy_types::COUNTERS;
use std::alloc::Global;
use text_core::Word;

fn condition(alloc: Global, known: &[Word], words: &[Word]) -> Result<Cond, Stop<ConfKind>>
    ensures { Gives result (acl_result (reading.condition_of known.now words.now)) }
{
    match read_cond(alloc, words, known) {
        Ok(condition) => Ok(condition),
        Err(fault) => {
            if matches!(fault, AclFault::NoMemory) {
                return Err(Stop::Memory);
            }
            Err(Stop::Fault(ConfKind::Acl(fault)))
        }
    }
}

/// When a line applies, by the words after its action, where those names are known.
fn when(alloc: Global, known: &[Word], words: &[Word]) -> Result<When, Stop<ConfKind>>
    ensures { Gives result (when_of known.now words.now) }
{
    match words {
        [] => Ok(When::Always),
        [word, rest @ ..] => {
            if word.is(b"if") {
                Ok(When::If(condition(alloc, known, rest)?))
            } else if word.is(b"unless") {
                Ok(When::Unless(condition(alloc, known, rest)?))
            } else {
                Err(Stop::Fault(ConfKind::Unsupported))
            }
        }
    }
}

/// The table that a track names, and the words after it.
fn table_at<'a, 'w>(
    counter: u8,
    words: &'w [Word<'a>],
) -> Result<(ActionWords<'a>, &'w [Word<'a>]), ConfKind>
    requires { counter < COUNTERS }
    ensures value { Sees (λ x. (x.0, x.1.now)) result (table_at counter words.now) }
    ensures sound { IfOk result (λ x. IsSoundAction x.0) }
{
    match words {
        [word, rest @ ..] if word.is(b"table") => {
            let (name, rest) = name_at(rest)?;
            Ok((
                ActionWords::Track(TrackWords {
                    counter,
                    table: Some(name),
                }),
                rest,
            ))
        }
        _ => Ok((
            ActionWords::Track(TrackWords {
                counter,
                table: None,
            }),
            words,
        )),
    }
}

/// What is tracked, and the words after it.
fn track_at<'a, 'w>(
    counter: u8,
    words: &'w [Word<'a>],
) -> Result<(ActionWords<'a>, &'w [Word<'a>]), ConfKind>
    requires { counter < COUNTERS }
    ensures value { Sees (λ x. (x.0, x.1.now)) result (track_at counter words.now) }
    ensures sound { IfOk result (λ x. IsSoundAction x.0) }
{
    let (key, rest) = word_at(words)?;
    if !key.is(b"src") {
        return Err(ConfKind::Unsupported);
    }
    table_at(counter, rest)
}

/// The layer whose header a rule of connections expects, and the words after it.
fn header_at<'a, 'w>(
    list: Ruleset,
    words: &'w [Word<'a>],
) -> Result<(ActionWords<'a>, &'w [Word<'a>]), ConfKind>
    ensures value { Sees (λ x. (x.0, x.1.now)) result (header_at list words.now) }
    ensures sound { IfOk result (λ x. IsSoundAction x.0) }
{
    match list {
        Ruleset::Session => Err(ConfKind::Unsupported),
        Ruleset::Connection => {
            let (layer, rest) = word_at(words)?;
            if layer.is(b"layer4") {
                Ok((ActionWords::ExpectProxy, rest))
            } else {
                Err(ConfKind::Unsupported)
            }
        }
    }
}

/// An action of a list, and the words after it.
fn action_at<'a, 'w>(
    list: Ruleset,
    words: &'w [Word<'a>],
) -> Result<(ActionWords<'a>, &'w [Word<'a>]), ConfKind>
    ensures value { Sees (λ x. (x.0, x.1.now)) result (action_at list words.now) }
    ensures sound { IfOk result (λ x. IsSoundAction x.0) }
{
    let (word, rest) = word_at(words)?;
    if word.is(b"accept") {
        Ok((ActionWords::Accept, rest))
    } else if word.is(b"reject") {
        Ok((ActionWords::Reject, rest))
    } else if word.is(b"track-sc0") {
        track_at(0, rest)
    } else if word.is(b"track-sc1") {
        track_at(1, rest)
    } else if word.is(b"track-sc2") {
        track_at(2, rest)
    } else if word.is(b"expect-proxy") {
        header_at(list, rest)
    } else {
        Err(ConfKind::Unsupported)
    }
}

/// The list that a rule belongs to, and the words after it.
fn ruleset_at<'a, 'w>(words: &'w [Word<'a>]) -> Result<(Ruleset, &'w [Word<'a>]), ConfKind>
    ensures { Sees (λ x. (x.0, x.1.now)) result (ruleset_at words.now) }
{
    let (word, rest) = word_at(words)?;
    if word.is(b"connection") {
        Ok((Ruleset::Connection, rest))
    } else if word.is(b"session") {
        Ok((Ruleset::Session, rest))
    } else {
        Err(ConfKind::Unsupported)
    }
}

/// The list and the action of a rule, and the words after them.
fn head_at<'a, 'w>(
    words: &'w [Word<'a>],
) -> Result<(Ruleset, ActionWords<'a>, &'w [Word<'a>]), ConfKind>
    ensures value { Sees (λ x. (x.0, (x.1, x.2.now))) result (head_at words.now) }
    ensures sound { IfOk result (λ x. IsSoundAction x.1) }
{
    let (ruleset, rest) = ruleset_at(words)?;
    let (action, rest) = action_at(ruleset, rest)?;
    Ok((ruleset, action, rest))
}

/// A rule, where those names are known.
pub fn rule<'a>(
    alloc: Global,
    known: &[Word],
    words: &[Word<'a>],
) -> Result<Statement<'a>, Stop<ConfKind>>
    ensures value { Gives result (rule_of known.now words.now) }
    ensures sound { IfOk result IsSoundStatement }
{
    match head_at(words) {
        Ok((ruleset, action, rest)) => Ok(Statement::Rule(
            ruleset,
            action,
            when(alloc, known, rest)?,
        )),
        Err(kind) => Err(Stop::Fault(kind)),
    }
}

/// The backend that is used, where those names are known.
pub fn choice<'a>(
    alloc: Global,
    known: &[Word],
    words: &[Word<'a>],
) -> Result<Statement<'a>, Stop<ConfKind>>
    ensures value { Gives result (choice_of known.now words.now) }
    ensures sound { IfOk result IsSoundStatement }
{
    match name_at(words) {
        Ok((name, rest)) => Ok(Statement::UseBackend(name, when(alloc, known, rest)?)),
        Err(kind) => Err(Stop::Fault(kind)),
    }
}
