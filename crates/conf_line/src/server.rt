//! Servers.
ghost use Rattle.std.specs.Prelude.{◌≡◌, ◌≤◌, ◌∷◌, false, length, IfOk, IfErr, Err};
ghost use Rattle.conf_line.specs.Sound.{AreSoundOptions, IsSoundOption, IsSoundReading};
ghost use Rattle.conf_line.specs.Words.{onto};
ghost use Rattle.conf_line.specs.Servers.{has_value, words_after, server_flag, check_number, server_number, value_at, server_value, server_options, with_option, IsServer, server_of};

use crate::fault::ConfKind;
use crate::statement::{
    LineReading, MOST_CHECKS, MOST_INTERVAL, ServerOption, ServerWords, Statement,
};
use crate::times::time_at;
use crate::words::{address_at, after_first, name_at, number_at, word_at};
use proxy_types::{GREATEST_WEIGHT, MOST_CONNECTIONS};
use text_core::Word;

/// Whether a value comes after the word.
fn has_value(word: &Word) -> bool
    ensures { result ≡ has_value word.now }
{
    word.is(b"weight")
        || word.is(b"maxconn")
        || word.is(b"inter")
        || word.is(b"fall")
        || word.is(b"rise")
}

fn flag(word: &Word) -> Result<ServerOption, ConfKind>
    ensures value { result ≡ server_flag word.now }
    ensures sound { IfOk result IsSoundOption }
{
    if word.is(b"disabled") {
        Ok(ServerOption::Disabled)
    } else if word.is(b"send-proxy") {
        Ok(ServerOption::SendProxy)
    } else if word.is(b"send-proxy-v2") {
        Ok(ServerOption::SendProxyV2)
    } else if word.is(b"check") {
        Ok(ServerOption::Check)
    } else {
        Err(ConfKind::Unsupported)
    }
}

/// The time between two checks, or how many of them fail or succeed.
fn of_checks(name: &Word, number: u64) -> Result<ServerOption, ConfKind>
    ensures value { result ≡ check_number name.now number }
    ensures sound { IfOk result IsSoundOption }
{
    if number == 0 {
        return Err(ConfKind::BadNumber);
    }
    if name.is(b"inter") {
        Ok(ServerOption::Inter(number))
    } else if name.is(b"fall") {
        Ok(ServerOption::Fall(number))
    } else {
        Ok(ServerOption::Rise(number))
    }
}

fn numeric(name: &Word, number: u64) -> Result<ServerOption, ConfKind>
    ensures value { result ≡ server_number name.now number }
    ensures sound { IfOk result IsSoundOption }
{
    if name.is(b"maxconn") {
        return Ok(ServerOption::MaxConn(number));
    }
    if !name.is(b"weight") {
        return of_checks(name, number);
    }
    if number > GREATEST_WEIGHT {
        return Err(ConfKind::BadNumber);
    }
    Ok(ServerOption::Weight(number as u16))
}

/// The value of an option: a time or a number.
fn value_at(name: &Word, value: &Word) -> Result<u64, ConfKind>
    ensures { result ≡ value_at name.now value.now }
{
    if name.is(b"inter") {
        return time_at(value.bytes());
    }
    number_at(value.bytes())
}

fn numeric_option(name: &Word, value: &Word) -> Result<ServerOption, ConfKind>
    ensures value { result ≡ server_value name.now value.now }
    ensures sound { IfOk result IsSoundOption }
{
    let number = value_at(name, value)?;
    numeric(name, number)
}

/// The option that begins with a word.
fn option_at(name: &Word, after: &[Word]) -> Result<ServerOption, ConfKind>
    ensures ok { IfOk result (λ option. server_options (name.now ∷ after.now) ≡ onto option (server_options (words_after name.now after.now))) }
    ensures err { IfErr result (λ kind. server_options (name.now ∷ after.now) ≡ Err kind) }
    ensures sound { IfOk result IsSoundOption }
{
    if !has_value(name) {
        return flag(name);
    }
    match after {
        [] => Err(ConfKind::MissingWord),
        [value, ..] => numeric_option(name, value),
    }
}

/// The words after the option that begins with a word.
fn words_after<'a, 'w>(name: &Word<'a>, after: &'w [Word<'a>]) -> &'w [Word<'a>]
    ensures words { result.now ≡ words_after name.now after.now }
    ensures shorter { length result.now ≤ length after.now }
{
    if has_value(name) {
        return after_first(after);
    }
    after
}

/// What the options say together.
#[derive(Clone, Copy)]
pub struct Options {
    weight: Option<u16>,
    limit: Option<u64>,
    disabled: bool,
    send_proxy: bool,
    send_proxy_v2: bool,
    check: bool,
    inter: Option<u64>,
    fall: Option<u64>,
    rise: Option<u64>,
    /// A number is greater than any that is taken.
    exceeds: bool,
}

/// The same with one option more, which counts before those.
fn with_option(mut options: Options, option: &ServerOption) -> Options
    ensures { result ≡ with_option options option.now }
{
    match option {
        ServerOption::Weight(weight) => options.weight = Some(*weight),
        ServerOption::MaxConn(limit) => {
            options.limit = Some(*limit);
            options.exceeds = options.exceeds || *limit > MOST_CONNECTIONS;
        }
        ServerOption::Disabled => options.disabled = true,
        ServerOption::SendProxy => options.send_proxy = true,
        ServerOption::SendProxyV2 => options.send_proxy_v2 = true,
        ServerOption::Check => options.check = true,
        ServerOption::Inter(ms) => {
            options.inter = Some(*ms);
            options.exceeds = options.exceeds || *ms > MOST_INTERVAL;
        }
        ServerOption::Fall(count) => {
            options.fall = Some(*count);
            options.exceeds = options.exceeds || *count > MOST_CHECKS;
        }
        ServerOption::Rise(count) => {
            options.rise = Some(*count);
            options.exceeds = options.exceeds || *count > MOST_CHECKS;
        }
    }
    options
}

/// What all options of the words say together.
fn all_options<'a, 'w>(words: &'w [Word<'a>]) -> Result<Options, ConfKind>
    ensures ok { IfOk result (IsServer words.now) }
    ensures err { IfErr result (λ kind. server_options words.now ≡ Err kind) }
    ensures sound { IfOk result (λ options. options.exceeds ≡ false → AreSoundOptions options) }
{
    let mut options = Options {
        weight: None,
        limit: None,
        disabled: false,
        send_proxy: false,
        send_proxy_v2: false,
        check: false,
        inter: None,
        fall: None,
        rise: None,
        exceeds: false,
    };
    let mut rest: &'w [Word<'a>] = words;
    while let [name, after @ ..] = rest {
        let option = option_at(name, after)?;
        options = with_option(options, &option);
        rest = words_after(name, after);
    }
    Ok(options)
}

/// A server.
pub fn server<'a>(words: &[Word<'a>]) -> Result<LineReading<'a>, ConfKind>
    ensures value { result ≡ server_of words.now }
    ensures sound { IfOk result IsSoundReading }
{
    let (name, rest) = name_at(words)?;
    let (word, rest) = word_at(rest)?;
    let to = address_at(word)?;
    let options = all_options(rest)?;
    Ok(LineReading {
        statement: Statement::Server(ServerWords {
            name,
            to,
            weight: options.weight,
            limit: options.limit,
            disabled: options.disabled,
            send_proxy: options.send_proxy,
            send_proxy_v2: options.send_proxy_v2,
            check: options.check,
            inter: options.inter,
            fall: options.fall,
            rise: options.rise,
        }),
        repeats: false,
        exceeds: options.exceeds,
    })
}
