//! What a line says by its words alone.
ghost use Rattle.std.specs.Prelude.{◌≡◌, IfOk, Result, Ok};
ghost use Rattle.list_core.specs.Each.{Gives};
ghost use Rattle.conf_line.specs.Keywords.{keyword_of, check_keyword};
ghost use Rattle.conf_line.specs.Statements.{only_name, global_of, defaults_of, frontend_of, backend_of, mode_of, default_backend_of, method_of, balance_of, accepts_proxy, bind_of, max_conn_of, retries_of, every_at, redispatch_of, option_of, without_effect_if, is_global, timeout_kind, timeout_of, log_of, plain_reading, keyword_reading, line_reading};
ghost use Rattle.conf_line.specs.Sound.{IsSoundStatement, IsSoundReading};
ghost use Rattle.conf_line.specs.Acls.{acl_of};
ghost use Rattle.conf_line.specs.Rules.{rule_of, choice_of};

use crate::acl::acl;
use crate::fault::ConfKind;
use crate::keyword::{Keyword, check_keyword, keyword_of};
use crate::rule::{choice, rule};
use crate::server::server;
use crate::statement::{LineReading, MOST_RETRIES, SectionKind, Statement, TimeoutKind};
use crate::table::table;
use crate::times::time_at;
use crate::words::{bind_at, end_at, name_at, number_at, word_at};
use list_core::Stop;
use proxy_types::{MOST_CONNECTIONS, Method};
use std::alloc::Global;
use text_core::Word;

fn global<'a>(words: &[Word<'a>]) -> Result<Statement<'a>, ConfKind>
    ensures value { result ≡ global_of words.now }
    ensures sound { IfOk result IsSoundStatement }
{
    end_at(words)?;
    Ok(Statement::Global)
}

fn defaults<'a>(words: &[Word<'a>]) -> Result<Statement<'a>, ConfKind>
    ensures value { result ≡ defaults_of words.now }
    ensures sound { IfOk result IsSoundStatement }
{
    if words.is_empty() {
        return Ok(Statement::Defaults);
    }
    let (_name, rest) = name_at(words)?;
    end_at(rest)?;
    Ok(Statement::Defaults)
}

/// A name, and no further word.
fn only_name<'a>(words: &[Word<'a>]) -> Result<Word<'a>, ConfKind>
    ensures { result ≡ only_name words.now }
{
    let (name, rest) = name_at(words)?;
    end_at(rest)?;
    Ok(name)
}

fn frontend<'a>(words: &[Word<'a>]) -> Result<Statement<'a>, ConfKind>
    ensures value { result ≡ frontend_of words.now }
    ensures sound { IfOk result IsSoundStatement }
{
    let name = only_name(words)?;
    Ok(Statement::Frontend(name))
}

fn backend<'a>(words: &[Word<'a>]) -> Result<Statement<'a>, ConfKind>
    ensures value { result ≡ backend_of words.now }
    ensures sound { IfOk result IsSoundStatement }
{
    let name = only_name(words)?;
    Ok(Statement::Backend(name))
}

fn mode<'a>(words: &[Word<'a>]) -> Result<Statement<'a>, ConfKind>
    ensures value { result ≡ mode_of words.now }
    ensures sound { IfOk result IsSoundStatement }
{
    let (word, rest) = word_at(words)?;
    if !word.is(b"tcp") {
        return Err(ConfKind::Unsupported);
    }
    end_at(rest)?;
    Ok(Statement::Nothing)
}

fn default_backend<'a>(words: &[Word<'a>]) -> Result<Statement<'a>, ConfKind>
    ensures value { result ≡ default_backend_of words.now }
    ensures sound { IfOk result IsSoundStatement }
{
    let name = only_name(words)?;
    Ok(Statement::DefaultBackend(name))
}

fn method_of<'a>(word: &Word<'a>) -> Result<Statement<'a>, ConfKind>
    ensures value { result ≡ method_of word.now }
    ensures sound { IfOk result IsSoundStatement }
{
    if word.is(b"roundrobin") {
        Ok(Statement::Balance(Method::RoundRobin))
    } else if word.is(b"leastconn") {
        Ok(Statement::Balance(Method::LeastConn))
    } else if word.is(b"source") {
        Ok(Statement::Balance(Method::Source))
    } else {
        Err(ConfKind::Unsupported)
    }
}

fn balance<'a>(words: &[Word<'a>]) -> Result<Statement<'a>, ConfKind>
    ensures value { result ≡ balance_of words.now }
    ensures sound { IfOk result IsSoundStatement }
{
    let (word, rest) = word_at(words)?;
    let method = method_of(word)?;
    end_at(rest)?;
    Ok(method)
}

/// Whether connections begin with a PROXY header, by the words after an endpoint.
fn accepts_proxy(words: &[Word]) -> Result<bool, ConfKind>
    ensures { result ≡ accepts_proxy words.now }
{
    match words {
        [] => Ok(false),
        [word, rest @ ..] => {
            if !word.is(b"accept-proxy") {
                return Err(ConfKind::Unsupported);
            }
            end_at(rest)?;
            Ok(true)
        }
    }
}

fn bind<'a>(words: &[Word<'a>]) -> Result<Statement<'a>, ConfKind>
    ensures value { result ≡ bind_of words.now }
    ensures sound { IfOk result IsSoundStatement }
{
    let (word, rest) = word_at(words)?;
    let at = bind_at(word)?;
    let proxy = accepts_proxy(rest)?;
    Ok(Statement::Bind(at, proxy))
}

fn max_conn<'a>(words: &[Word<'a>]) -> Result<LineReading<'a>, ConfKind>
    ensures value { result ≡ max_conn_of words.now }
    ensures sound { IfOk result IsSoundReading }
{
    let (word, rest) = word_at(words)?;
    let limit = number_at(word.bytes())?;
    if limit == 0 {
        return Err(ConfKind::BadNumber);
    }
    end_at(rest)?;
    Ok(LineReading {
        statement: Statement::MaxConn(limit),
        repeats: false,
        exceeds: limit > MOST_CONNECTIONS,
    })
}

/// How often a server may be dialled again.
fn retries<'a>(words: &[Word<'a>]) -> Result<LineReading<'a>, ConfKind>
    ensures value { result ≡ retries_of words.now }
    ensures sound { IfOk result IsSoundReading }
{
    let (word, rest) = word_at(words)?;
    let count = number_at(word.bytes())?;
    end_at(rest)?;
    Ok(LineReading {
        statement: Statement::Retries(count),
        repeats: false,
        exceeds: count > MOST_RETRIES,
    })
}

/// `log global`.
fn global_log<'a>(words: &[Word<'a>]) -> Result<Statement<'a>, ConfKind>
    ensures value { result ≡ without_effect_if is_global words.now }
    ensures sound { IfOk result IsSoundStatement }
{
    let (word, _rest) = word_at(words)?;
    if word.is(b"global") {
        return Ok(Statement::Nothing);
    }
    Err(ConfKind::Unsupported)
}

/// A number from 0 on. A negative one is not taken.
fn every_at(word: &[u8]) -> Result<u64, ConfKind>
    ensures { result ≡ every_at word.now }
{
    match word {
        [b'-', digits @ ..] => {
            number_at(digits)?;
            Err(ConfKind::Unsupported)
        }
        _ => number_at(word),
    }
}

/// Which of the times that a server is dialled again go to another server. A number need not be given.
fn redispatch<'a>(words: &[Word<'a>]) -> Result<LineReading<'a>, ConfKind>
    ensures value { result ≡ redispatch_of words.now }
    ensures sound { IfOk result IsSoundReading }
{
    match words {
        [] => Ok(LineReading {
            statement: Statement::Redispatch(None),
            repeats: false,
            exceeds: false,
        }),
        [word, rest @ ..] => {
            let every = every_at(word.bytes())?;
            end_at(rest)?;
            Ok(LineReading {
                statement: Statement::Redispatch(Some(every)),
                repeats: false,
                exceeds: every > MOST_RETRIES,
            })
        }
    }
}

/// `option redispatch`, or an option without effect.
fn option<'a>(words: &[Word<'a>]) -> Result<LineReading<'a>, ConfKind>
    ensures value { result ≡ option_of words.now }
    ensures sound { IfOk result IsSoundReading }
{
    let (word, rest) = word_at(words)?;
    if word.is(b"redispatch") {
        return redispatch(rest);
    }
    if word.is(b"tcplog") || word.is(b"dontlognull") {
        return Ok(LineReading {
            statement: Statement::Nothing,
            repeats: false,
            exceeds: false,
        });
    }
    Err(ConfKind::Unsupported)
}

fn timeout_kind(word: &Word) -> Result<TimeoutKind, ConfKind>
    ensures { result ≡ timeout_kind word.now }
{
    if word.is(b"connect") {
        Ok(TimeoutKind::Connect)
    } else if word.is(b"client") {
        Ok(TimeoutKind::Client)
    } else if word.is(b"server") {
        Ok(TimeoutKind::Server)
    } else {
        Err(ConfKind::Unsupported)
    }
}

/// Whose time it is, and the time.
fn timeout<'a>(words: &[Word<'a>]) -> Result<Statement<'a>, ConfKind>
    ensures value { result ≡ timeout_of words.now }
    ensures sound { IfOk result IsSoundStatement }
{
    let (word, rest) = word_at(words)?;
    let kind = timeout_kind(word)?;
    let (time, rest) = word_at(rest)?;
    let ms = time_at(time.bytes())?;
    end_at(rest)?;
    Ok(Statement::Timeout(kind, ms))
}

fn log<'a>(kind: SectionKind, words: &[Word<'a>]) -> Result<Statement<'a>, ConfKind>
    ensures value { result ≡ log_of kind words.now }
    ensures sound { IfOk result IsSoundStatement }
{
    match kind {
        SectionKind::Global => Ok(Statement::Nothing),
        SectionKind::Outside
        | SectionKind::Defaults
        | SectionKind::Frontend
        | SectionKind::Backend => global_log(words),
    }
}

/// A line in which nothing is given twice, and no number is greater than its limit.
fn plain_reading<'a>(
    statement: Result<Statement<'a>, ConfKind>,
) -> Result<LineReading<'a>, Stop<ConfKind>>
    requires { IfOk statement IsSoundStatement }
    ensures value { Gives result (plain_reading statement.entry) }
    ensures sound { IfOk result IsSoundReading }
{
    match statement {
        Ok(statement) => Ok(LineReading {
            statement,
            repeats: false,
            exceeds: false,
        }),
        Err(kind) => Err(Stop::Fault(kind)),
    }
}

/// A line in which nothing is given twice and no number is greater than its limit, and for which
/// memory may be taken.
fn taken_reading<'a>(
    statement: Result<Statement<'a>, Stop<ConfKind>>,
) -> Result<LineReading<'a>, Stop<ConfKind>>
    requires { IfOk statement IsSoundStatement }
    ensures value { (read : Result Statement ConfKind) → Gives statement.entry read → Gives result (plain_reading read) }
    ensures sound { IfOk result IsSoundReading }
{
    Ok(LineReading {
        statement: statement?,
        repeats: false,
        exceeds: false,
    })
}

/// A line that took no memory to read.
fn without_memory<'a>(
    reading: Result<LineReading<'a>, ConfKind>,
) -> Result<LineReading<'a>, Stop<ConfKind>>
    requires { IfOk reading IsSoundReading }
    ensures value { Gives result reading.entry }
    ensures sound { IfOk result IsSoundReading }
{
    match reading {
        Ok(reading) => Ok(reading),
        Err(kind) => Err(Stop::Fault(kind)),
    }
}

/// What a line says after its keyword.
fn keyword_reading<'a>(
    alloc: Global,
    kind: SectionKind,
    known: &[Word],
    keyword: Keyword,
    words: &[Word<'a>],
) -> Result<LineReading<'a>, Stop<ConfKind>>
    ensures value { Gives result (keyword_reading kind known.now keyword words.now) }
    ensures sound { IfOk result IsSoundReading }
{
    match keyword {
        Keyword::Global => plain_reading(global(words)),
        Keyword::Defaults => plain_reading(defaults(words)),
        Keyword::Frontend => plain_reading(frontend(words)),
        Keyword::Backend => plain_reading(backend(words)),
        Keyword::Mode => plain_reading(mode(words)),
        Keyword::MaxConn => without_memory(max_conn(words)),
        Keyword::DefaultBackend => plain_reading(default_backend(words)),
        Keyword::Balance => plain_reading(balance(words)),
        Keyword::Bind => plain_reading(bind(words)),
        Keyword::Acl => taken_reading(acl(alloc, words)),
        Keyword::TcpRequest => taken_reading(rule(alloc, known, words)),
        Keyword::UseBackend => taken_reading(choice(alloc, known, words)),
        Keyword::StickTable => without_memory(table(words)),
        Keyword::Server => without_memory(server(words)),
        Keyword::Log => plain_reading(log(kind, words)),
        Keyword::Option => without_memory(option(words)),
        Keyword::Timeout => plain_reading(timeout(words)),
        Keyword::Retries => without_memory(retries(words)),
        Keyword::Daemon
        | Keyword::User
        | Keyword::Group
        | Keyword::Chroot
        | Keyword::Pidfile
        | Keyword::Nbthread => plain_reading(Ok(Statement::Nothing)),
        Keyword::Listen | Keyword::Unknown => Err(Stop::Fault(ConfKind::Unsupported)),
    }
}

/// What a line says in a section of that kind, where the earlier lines of the section declare those
/// names.
pub fn read_line<'a>(
    alloc: Global,
    kind: SectionKind,
    known: &[Word],
    words: &[Word<'a>],
) -> Result<LineReading<'a>, Stop<ConfKind>>
    ensures value { Gives result (line_reading kind known.now words.now) }
    ensures sound { IfOk result IsSoundReading }
{
    match words {
        [] => plain_reading(Ok(Statement::Nothing)),
        [word, rest @ ..] => {
            let keyword = keyword_of(word);
            match check_keyword(kind, keyword) {
                Ok(()) => keyword_reading(alloc, kind, known, keyword, rest),
                Err(kind) => Err(Stop::Fault(kind)),
            }
        }
    }
}
