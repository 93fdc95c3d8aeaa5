//! The words of a line, read from the left.
ghost use Rattle.std.specs.Prelude.{◌≡◌, ◌≤◌, drop, length};
ghost use Rattle.conf_line.specs.Words.{Sees, word_at, end_at, name_at, number_at, address_at, wildcard_at, star_at, bind_at};
ghost use Rattle.addr_core.specs.Text.{endpoint_of};
ghost use Rattle.text_core.specs.Decimal.{decimal_of};

use crate::fault::ConfKind;
use addr_core::{Addr, Endpoint, read_endpoint};
use text_core::decimal::{read_decimal, read_number};
use text_core::{Word, is_name};

/// A word, and the words after it.
pub fn word_at<'a, 'w>(words: &'w [Word<'a>]) -> Result<(&'w Word<'a>, &'w [Word<'a>]), ConfKind>
    ensures { Sees (λ x. (x.0.now, x.1.now)) result (word_at words.now) }
{
    match words {
        [] => Err(ConfKind::MissingWord),
        [word, rest @ ..] => Ok((word, rest)),
    }
}

/// The words after the first, if there is one.
pub fn after_first<'a, 'w>(words: &'w [Word<'a>]) -> &'w [Word<'a>]
    ensures after { result.now ≡ drop 1 words.now }
    ensures shorter { length result.now ≤ length words.now }
{
    match words {
        [] => words,
        [_, rest @ ..] => rest,
    }
}

/// No word is left.
pub fn end_at(words: &[Word]) -> Result<(), ConfKind>
    ensures { result ≡ end_at words.now }
{
    match words {
        [] => Ok(()),
        [_, ..] => Err(ConfKind::ExtraWord),
    }
}

/// The name of a section or a server.
pub fn name_at<'a, 'w>(words: &'w [Word<'a>]) -> Result<(Word<'a>, &'w [Word<'a>]), ConfKind>
    ensures { Sees (λ x. (x.0, x.1.now)) result (name_at words.now) }
{
    let (word, rest) = word_at(words)?;
    if !is_name(word.bytes()) {
        return Err(ConfKind::Unsupported);
    }
    Ok((word.again(), rest))
}

/// A number of 64 bits.
pub fn number_at(word: &[u8]) -> Result<u64, ConfKind>
    ensures { result ≡ number_at word.now }
{
    match read_number(word, u64::MAX) {
        None => Err(ConfKind::BadNumber),
        Some(number) => Ok(number),
    }
}

/// An endpoint with a port from 1 on.
pub fn address_at(word: &Word) -> Result<Endpoint, ConfKind>
    ensures { result ≡ address_at (endpoint_of word.now) }
{
    match read_endpoint(word.bytes()) {
        Ok(endpoint) => {
            if endpoint.port == 0 {
                return Err(ConfKind::BadAddress);
            }
            Ok(endpoint)
        }
        Err(_) => Err(ConfKind::BadAddress),
    }
}

/// Every address of IPv4, and a port.
fn wildcard_at(port: &[u8]) -> Result<Endpoint, ConfKind>
    ensures { result ≡ wildcard_at (decimal_of port.now 65535) }
{
    match read_decimal(port, 65535) {
        Some(port) => {
            if port == 0 {
                return Err(ConfKind::BadAddress);
            }
            Ok(Endpoint {
                addr: Addr::V4(0),
                port: port as u16,
            })
        }
        None => Err(ConfKind::BadAddress),
    }
}

fn star_at(bytes: &[u8]) -> Result<Endpoint, ConfKind>
    ensures { result ≡ star_at bytes.now }
{
    match bytes {
        [b':', port @ ..] => wildcard_at(port),
        _ => Err(ConfKind::BadAddress),
    }
}

/// Where a `bind` line listens.
pub fn bind_at(word: &Word) -> Result<Endpoint, ConfKind>
    ensures { result ≡ bind_at word.now }
{
    match word.bytes() {
        [] => Err(ConfKind::BadAddress),
        [b':', port @ ..] => wildcard_at(port),
        [b'*', rest @ ..] => star_at(rest),
        [_, ..] => address_at(word),
    }
}
