//! Decimal numbers as text.
ghost use Rattle.std.specs.Prelude.{◌≡◌, ◌+◌, ◌-◌, ◌*◌, ◌/◌, ◌%◌, ◌<◌, ◌≤◌, ◌↔◌, ◌++◌, ◌∷◌, [], ℕ, drop, if◌then◌else◌, length, None, Some, IfSome, OnOk};
ghost use Rattle.std.specs.List.{list_all};
ghost use Rattle.std.specs.Char.{is_ascii_digit};
ghost use Rattle.text_core.specs.Decimal.{decimal, decimal_of, has_leading_zero, number_of, up_to, value_of};

use arrayvec::{ArrayString, ArrayVec};
use std::alloc::AllocError;

/// As many digits as `u64::MAX` has.
pub const MOST_DIGITS: usize = 20;

/// Whether each byte is a decimal digit.
pub fn are_digits(text: &[u8]) -> bool
    ensures { result ≡ list_all is_ascii_digit text.now }
{
    text.iter().all(|byte| byte.is_ascii_digit())
}

/// Whether it begins with a 0 before another digit.
pub fn has_leading_zero(text: &[u8]) -> bool
    ensures { result ≡ has_leading_zero text.now }
{
    text.len() > 1 && text[0] == b'0'
}

/// The number with one more digit.
fn with_digit(number: u64, digit: u8, most: u64) -> Option<u64>
    ensures { result ≡ up_to most (number * 10 + (digit - 48)) }
{
    let next = number
        .checked_mul(10)?
        .checked_add(u64::from(digit.saturating_sub(b'0')))?;
    if next > most {
        return None;
    }
    Some(next)
}

/// The number of these digits, leading zeros or not. There is none above `most`.
pub fn number_up_to(digits: &[u8], most: u64) -> Option<u64>
    ensures { result ≡ up_to most (value_of digits.now) }
{
    let mut number = 0;
    for digit in digits {
        number = with_digit(number, *digit, most)?;
    }
    Some(number)
}

/// The number with one more digit. There is none where the byte is no digit, and above `most`.
fn with_digit_of(number: u64, byte: u8, most: u64) -> Option<u64>
    ensures { result ≡ (if is_ascii_digit byte then up_to most (number * 10 + (byte - 48)) else None) }
{
    if !byte.is_ascii_digit() {
        return None;
    }
    with_digit(number, byte, most)
}

/// The number of a text of digits, leading zeros or not, in one pass. There is none where the text has another
/// character, and above `most`.
fn digits_up_to(text: &[u8], most: u64) -> Option<u64>
    ensures { result ≡ (if list_all is_ascii_digit text.now then up_to most (value_of text.now) else None) }
{
    let mut number = 0;
    for byte in text {
        number = with_digit_of(number, *byte, most)?;
    }
    Some(number)
}

/// The number of a text of decimal digits, leading zeros or not. There is none where the text is empty
/// or has another character, and above `most`.
pub fn read_number(text: &[u8], most: u64) -> Option<u64>
    ensures { result ≡ number_of text.now most }
{
    if text.is_empty() {
        return None;
    }
    digits_up_to(text, most)
}

fn number_of(text: &[u8], most: u64) -> Option<u64>
    ensures { result ≡ decimal_of text.now most }
{
    if text.is_empty() || has_leading_zero(text) {
        return None;
    }
    digits_up_to(text, most)
}

/// The number of a text of decimal digits. There is none where the text is empty or has another
/// character, at a 0 before another digit, and above `most`.
pub fn read_decimal(text: &[u8], most: u64) -> Option<u64>
    ensures exact { result ≡ decimal_of text.now most }

    // A number is read of its own text, and of no other.
    ensures own_text { (number : ℕ) → number ≤ most → (result ≡ Some number) ↔ (text.now ≡ decimal number) }
    ensures small { IfSome result (λ number. number ≤ most) }
{
    number_of(text, most)
}

fn push_digit(text: &mut ArrayString<MOST_DIGITS>, digit: u8)
    requires digit { digit < 10 }
    requires room { length text.old.bytes < MOST_DIGITS }
    ensures { text.new.bytes ≡ text.old.bytes ++ (48 + digit) ∷ [] }
{
    text.push(char::from(b'0' + digit));
}

fn push_digits(text: &mut ArrayString<MOST_DIGITS>, number: u64)
    requires { length text.old.bytes + length (decimal number) ≤ MOST_DIGITS }
    ensures { text.new.bytes ≡ text.old.bytes ++ decimal number }
{
    if number < 10 {
        push_digit(text, number as u8);
        return;
    }
    push_digits(text, number / 10);
    push_digit(text, (number % 10) as u8);
}

/// The number in decimal, with no leading zero.
pub fn write_decimal(number: u64) -> ArrayString<MOST_DIGITS>
    ensures text { result.bytes ≡ decimal number }

    // What is written is read again.
    ensures read_again { (most : ℕ) → number ≤ most → decimal_of result.bytes most ≡ Some number }
{
    let mut text = ArrayString::new();
    push_digits(&mut text, number);
    text
}

/// Appends the number in decimal. There must be room.
pub fn push_decimal<const CAP: usize>(text: &mut ArrayString<CAP>, number: u64)
    requires { length text.old.bytes + length (decimal number) ≤ CAP }
    ensures { text.new.bytes ≡ text.old.bytes ++ decimal number }
{
    let digits = write_decimal(number);
    text.push_str(digits.as_str());
}

/// Appends the two last digits of a number.
fn append_pair(out: &mut Vec<u8>, pair: u8) -> Result<(), AllocError>
    requires { pair < 100 }
    ensures { OnOk result (out.new.items ≡ out.old.items ++ (48 + pair / 10) ∷ (48 + pair % 10) ∷ []) }
{
    out.extend_from_slice(&[b'0' + pair / 10, b'0' + pair % 10])
}

/// Appends the two last digits of a number. There must be room.
fn push_pair<const CAP: usize>(text: &mut ArrayVec<u8, CAP>, pair: u8)
    requires pair { pair < 100 }
    requires room { length text.old.items + 2 ≤ CAP }
    ensures { text.new.items ≡ text.old.items ++ (48 + pair / 10) ∷ (48 + pair % 10) ∷ [] }
{
    text.push(b'0' + pair / 10);
    text.push(b'0' + pair % 10);
}

/// Appends the one or two first digits of a number. There must be room.
fn push_first<const CAP: usize>(text: &mut ArrayVec<u8, CAP>, first: u8)
    requires first { first < 100 }
    requires room { length text.old.items + 2 ≤ CAP }
    ensures text { text.new.items ≡ text.old.items ++ decimal first }
    ensures fits { length text.new.items ≤ length text.old.items + 2 }
{
    if first < 10 {
        text.push(b'0' + first);
        return;
    }
    push_pair(text, first);
}

/// Appends a number of at most five digits in decimal. There must be room for five.
pub fn push_short<const CAP: usize>(text: &mut ArrayVec<u8, CAP>, number: u16)
    requires { length text.old.items + 5 ≤ CAP }
    ensures text { text.new.items ≡ text.old.items ++ decimal number }
    ensures fits { length text.new.items ≤ length text.old.items + 5 }
{
    if number < 100 {
        push_first(text, number as u8);
        return;
    }
    if number < 10_000 {
        push_first(text, (number / 100) as u8);
        push_pair(text, (number % 100) as u8);
        return;
    }
    text.push(b'0' + (number / 10_000) as u8);
    push_pair(text, (number / 100 % 100) as u8);
    push_pair(text, (number % 100) as u8);
}

/// Writes the two last digits of a number at a place.
fn put_pair(digits: &mut [u8; MOST_DIGITS], at: usize, pair: u8)
    requires pair { pair < 100 }
    requires room { at + 2 ≤ MOST_DIGITS }
    ensures { drop at digits.new ≡ (48 + pair / 10) ∷ (48 + pair % 10) ∷ drop (at + 2) digits.old }
{
    digits[at] = b'0' + pair / 10;
    digits[at + 1] = b'0' + pair % 10;
}

/// Writes the one or two first digits of a number so that they end at a place, and says where they begin.
fn put_first(digits: &mut [u8; MOST_DIGITS], end: usize, first: u8) -> usize
    requires first { first < 100 }
    requires room { length (decimal first) ≤ end }
    requires end { end ≤ MOST_DIGITS }
    ensures within { result ≤ end }
    ensures written { drop result digits.new ≡ decimal first ++ drop end digits.old }
{
    if first < 10 {
        digits[end - 1] = b'0' + first;
        return end - 1;
    }
    put_pair(digits, end - 2, first);
    end - 2
}

/// Writes the digits of a number at the end, and says where they begin.
fn put_digits(digits: &mut [u8; MOST_DIGITS], number: u64) -> usize
    ensures within { result ≤ MOST_DIGITS }
    ensures written { drop result digits.new ≡ decimal number }
{
    let mut at = MOST_DIGITS;
    let mut rest = number;
    while rest >= 100 {
        at -= 2;
        put_pair(digits, at, (rest % 100) as u8);
        rest /= 100;
    }
    put_first(digits, at, rest as u8)
}

/// Appends the number in decimal. Where memory is short, some of its digits may have been appended.
pub fn append_decimal(out: &mut Vec<u8>, number: u64) -> Result<(), AllocError>
    ensures { OnOk result (out.new.items ≡ out.old.items ++ decimal number) }
{
    if number < 10 {
        out.push(b'0' + number as u8)?;
        return Ok(());
    }
    if number < 100 {
        return append_pair(out, number as u8);
    }
    let mut digits = [0u8; MOST_DIGITS];
    let first = put_digits(&mut digits, number);
    out.extend_from_slice(&digits[first..])
}
