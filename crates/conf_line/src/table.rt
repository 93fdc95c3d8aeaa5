//! Stick tables.
ghost use Rattle.std.specs.Prelude.{◌≡◌, ◌==◌, ◌≤◌, ◌∷◌, ◌||◌, ◌&&◌, is_some, drop, IfOk, IfErr, Err};
ghost use Rattle.std.specs.List.{slice_split};
ghost use Rattle.std.specs.Option.{option_or};
ghost use Rattle.list_core.specs.Each.{run};
ghost use Rattle.conf_line.specs.Sound.{IsSoundSize, IsSoundReading};
ghost use Rattle.conf_line.specs.Words.{onto};
ghost use Rattle.conf_line.specs.Tables.{unit_of, digits_of, size_at, keys_of, stores_with, stores_of, expire_at, without_value, table_option, table_options, option_keys, option_size, option_expire, is_keys, is_size, is_expire, stores_cur, stores_cnt, IsTable, table_of};

use crate::fault::ConfKind;
use crate::statement::{LineReading, Statement, TableOption, TableWords};
use crate::times::time_at;
use crate::words::{after_first, number_at};
use list_core::newest;
use proxy_types::{KeyType, MOST_ENTRIES, Stores};
use text_core::{Word, cut_at};

/// How much the word's unit is.
fn unit_of(word: &[u8]) -> u64
    ensures value { result ≡ unit_of word.now }
    ensures one { 1 ≤ result }
{
    match newest(word) {
        None => 1,
        Some(byte) => {
            if *byte == b'k' {
                1024
            } else if *byte == b'm' {
                1_048_576
            } else {
                1
            }
        }
    }
}

/// The word without its unit.
fn digits_of(word: &[u8]) -> &[u8]
    ensures { result.now ≡ digits_of word.now }
{
    if unit_of(word) == 1 {
        return word;
    }
    &word[..word.len().saturating_sub(1)]
}

fn size_at(word: &[u8]) -> Result<u64, ConfKind>
    ensures value { result ≡ size_at word.now }
    ensures one { IfOk result (λ size. 1 ≤ size) }
{
    let number = number_at(digits_of(word))?;
    if number == 0 {
        return Err(ConfKind::BadNumber);
    }
    Ok(number.saturating_mul(unit_of(word)))
}

fn keys_of(word: &Word) -> Result<KeyType, ConfKind>
    ensures { result ≡ keys_of word.now }
{
    if word.is(b"ip") {
        Ok(KeyType::Ip)
    } else if word.is(b"ipv6") {
        Ok(KeyType::Ipv6)
    } else {
        Err(ConfKind::Unsupported)
    }
}

/// One more kind that is stored.
fn stores_with(stores: Stores, kind: &[u8]) -> Result<Stores, ConfKind>
    ensures { result ≡ stores_with stores kind.now }
{
    if kind == b"conn_cur".as_slice() {
        Ok(Stores {
            cur: true,
            ..stores
        })
    } else if kind == b"conn_cnt".as_slice() {
        Ok(Stores {
            cnt: true,
            ..stores
        })
    } else {
        Err(ConfKind::Unsupported)
    }
}

/// Kinds between commas.
fn stores_of(word: &[u8]) -> Result<Stores, ConfKind>
    ensures { result ≡ stores_of word.now }
{
    let mut stores = Stores {
        cur: false,
        cnt: false,
    };
    let mut rest = word;
    while let Some((kind, more)) = cut_at(rest, b',') {
        stores = stores_with(stores, kind)?;
        rest = more;
    }
    stores_with(stores, rest)
}

/// How long an entry is kept that nobody uses.
fn expire_at(word: &[u8]) -> Result<u64, ConfKind>
    ensures { result ≡ expire_at word.now }
{
    let ms = time_at(word)?;
    if ms == 0 {
        return Err(ConfKind::BadNumber);
    }
    Ok(ms)
}

fn without_value(name: &Word) -> ConfKind
    ensures { result ≡ without_value name.now }
{
    if name.is(b"type") || name.is(b"size") || name.is(b"store") || name.is(b"expire") {
        ConfKind::MissingWord
    } else {
        ConfKind::Unsupported
    }
}

/// An option, by its name and its value.
fn option(name: &Word, value: &Word) -> Result<TableOption, ConfKind>
    ensures value { result ≡ table_option name.now value.now }
    ensures sound { IfOk result (λ option. IsSoundSize (option_size option)) }
{
    if name.is(b"type") {
        Ok(TableOption::Keys(keys_of(value)?))
    } else if name.is(b"size") {
        Ok(TableOption::Size(size_at(value.bytes())?))
    } else if name.is(b"store") {
        Ok(TableOption::Store(stores_of(value.bytes())?))
    } else if name.is(b"expire") {
        Ok(TableOption::Expire(expire_at(value.bytes())?))
    } else {
        Err(ConfKind::Unsupported)
    }
}

/// The option that begins with a word.
fn option_at(name: &Word, after: &[Word]) -> Result<TableOption, ConfKind>
    ensures ok { IfOk result (λ option. table_options (name.now ∷ after.now) ≡ onto option (table_options (drop 1 after.now))) }
    ensures err { IfErr result (λ kind. table_options (name.now ∷ after.now) ≡ Err kind) }
    ensures sound { IfOk result (λ option. IsSoundSize (option_size option)) }
{
    match after {
        [] => Err(without_value(name)),
        [value, ..] => option(name, value),
    }
}

/// What the options say together.
#[derive(Clone, Copy)]
struct Options {
    keys: Option<KeyType>,
    size: Option<u64>,
    stores: Stores,
    expire: Option<u64>,
    /// `type`, `size` or `expire` is given twice.
    repeats: bool,
}

/// The same with one option more, which counts before those.
fn with_option(options: Options, option: &TableOption) -> Options
    ensures keys { result.keys ≡ option_or (option_keys option.now) options.keys }
    ensures size { result.size ≡ option_or (option_size option.now) options.size }
    ensures cur { result.stores.cur ≡ (options.stores.cur || stores_cur option.now) }
    ensures cnt { result.stores.cnt ≡ (options.stores.cnt || stores_cnt option.now) }
    ensures expire { result.expire ≡ option_or (option_expire option.now) options.expire }
    ensures repeats { result.repeats ≡ (options.repeats || ((is_keys option.now && is_some options.keys) || (is_size option.now && is_some options.size) || (is_expire option.now && is_some options.expire))) }
{
    match option {
        TableOption::Keys(keys) => Options {
            keys: Some(*keys),
            repeats: options.repeats || options.keys.is_some(),
            ..options
        },
        TableOption::Size(size) => Options {
            size: Some(*size),
            repeats: options.repeats || options.size.is_some(),
            ..options
        },
        TableOption::Store(stores) => Options {
            stores: Stores {
                cur: options.stores.cur || stores.cur,
                cnt: options.stores.cnt || stores.cnt,
            },
            ..options
        },
        TableOption::Expire(ms) => Options {
            expire: Some(*ms),
            repeats: options.repeats || options.expire.is_some(),
            ..options
        },
    }
}

/// What all options of the words say together.
fn all_options<'a, 'w>(words: &'w [Word<'a>]) -> Result<Options, ConfKind>
    ensures ok { IfOk result (λ o. IsTable words.now o.keys o.size o.stores o.expire o.repeats) }
    ensures err { IfErr result (λ kind. table_options words.now ≡ Err kind) }
    ensures sound { IfOk result (λ o. IsSoundSize o.size) }
{
    let mut options = Options {
        keys: None,
        size: None,
        stores: Stores {
            cur: false,
            cnt: false,
        },
        expire: None,
        repeats: false,
    };
    let mut rest: &'w [Word<'a>] = words;
    while let [name, after @ ..] = rest {
        let option = option_at(name, after)?;
        options = with_option(options, &option);
        rest = after_first(after);
    }
    Ok(options)
}

/// A table.
pub fn table<'a>(words: &[Word<'a>]) -> Result<LineReading<'a>, ConfKind>
    ensures value { result ≡ table_of words.now }
    ensures sound { IfOk result IsSoundReading }
{
    let options = all_options(words)?;
    let (Some(keys), Some(size)) = (options.keys, options.size) else {
        return Err(ConfKind::MissingWord);
    };
    Ok(LineReading {
        statement: Statement::StickTable(TableWords {
            keys,
            size,
            stores: options.stores,
            expire: options.expire.unwrap_or(0),
        }),
        repeats: options.repeats,
        exceeds: size > MOST_ENTRIES,
    })
}
