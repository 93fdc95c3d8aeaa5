//! Times (HAProxy manual, "Time format").
ghost use Rattle.std.specs.Prelude.{◌≡◌, ◌<◌, length, take, drop, IfSome};
ghost use Rattle.conf_line.specs.Times.{times, in_ms, unit_at, digits_end, time_at};

use crate::fault::ConfKind;
use crate::words::number_at;
use text_core::Word;

/// So many times so many ms, if that has 64 bits.
fn times(number: u64, ms: u64) -> Option<u64>
    ensures { result ≡ times number ms }
{
    number.checked_mul(ms)
}

/// The ms of so many of a unit. Microseconds are rounded up.
fn in_ms(unit: &[u8], number: u64) -> Option<u64>
    ensures { result ≡ in_ms unit.now number }
{
    let unit = Word::of(unit);
    if unit.is(b"") {
        Some(number)
    } else if unit.is(b"us") {
        Some(number.div_ceil(1_000))
    } else if unit.is(b"ms") {
        Some(number)
    } else if unit.is(b"s") {
        times(number, 1_000)
    } else if unit.is(b"m") {
        times(number, 60_000)
    } else if unit.is(b"h") {
        times(number, 3_600_000)
    } else if unit.is(b"d") {
        times(number, 86_400_000)
    } else {
        None
    }
}

/// Where the unit of a word begins, if it has one.
fn unit_at(word: &[u8]) -> Option<usize>
    ensures value { result ≡ unit_at word.now }
    ensures within { IfSome result (λ end. end < length word.now) }
{
    word.iter().position(|byte| !byte.is_ascii_digit())
}

/// The digits of a word, and what is after them.
fn cut_unit(word: &[u8]) -> (&[u8], &[u8])
    ensures digits { result.0.now ≡ take (digits_end word.now) word.now }
    ensures unit { result.1.now ≡ drop (digits_end word.now) word.now }
{
    match unit_at(word) {
        Some(end) => word.split_at(end),
        None => (word, &[]),
    }
}

/// A time in ms: digits, and a unit or none for ms.
pub fn time_at(word: &[u8]) -> Result<u64, ConfKind>
    ensures { result ≡ time_at word.now }
{
    let (digits, unit) = cut_unit(word);
    let number = number_at(digits)?;
    match in_ms(unit, number) {
        Some(ms) => Ok(ms),
        None => Err(ConfKind::BadNumber),
    }
}
