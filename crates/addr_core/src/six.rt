//! Reading IPv6 addresses.
ghost use Rattle.std.specs.Prelude.{◌≡◌, ◌+◌, ◌*◌, ◌^◌, ◌<◌, ◌≤◌, ◌||◌, ◌∷◌, ◌++◌, [], false, true, length, replicate, Err, IfErr, OnOk, if◌then◌else◌};
ghost use Rattle.std.specs.List.{list_all, slice_split};
ghost use Rattle.addr_core.specs.Dotted.{dotted_of, is_dot, is_empty};
ghost use Rattle.addr_core.specs.Six.{gap_of, group_count, group_of, groups_in, has_dot, is_eight, is_six_byte, nibble, number_of, short_of, six_of, whole_of, word_groups, words_of, HasRoom, ReadsOnto};

use crate::reading::{AddrFault, dotted};
use arrayvec::ArrayVec;
use text_core::{cut, cut_at};

fn is_six_byte(byte: u8) -> bool
    ensures { result ≡ is_six_byte byte }
{
    byte.is_ascii_hexdigit() || (byte == b':' || byte == b'.')
}

fn are_six_bytes(text: &[u8]) -> bool
    ensures { result ≡ list_all is_six_byte text.now }
{
    text.iter().all(|byte| is_six_byte(*byte))
}

fn has_dot(word: &[u8]) -> bool
    ensures { result ≡ has_dot word.now }
{
    word.contains(&b'.')
}

/// Whether no other word may follow: it is empty or has a dot.
fn is_no_group(word: &[u8]) -> bool
    ensures { result ≡ (is_empty word.now || has_dot word.now) }
{
    word.is_empty() || has_dot(word)
}

/// How many groups the last of several words has.
fn last_count(word: &[u8], may_be_dotted: bool) -> Option<usize>
    ensures { result ≡ group_count may_be_dotted (word.now ∷ []) }
{
    if word.is_empty() {
        return None;
    }
    if !has_dot(word) {
        return Some(1);
    }
    if may_be_dotted {
        return Some(2);
    }
    None
}

/// How many groups a text has.
fn count(text: &[u8], may_be_dotted: bool) -> Option<usize>
    ensures { result ≡ group_count may_be_dotted (words_of text.now) }
{
    if text.is_empty() {
        return Some(0);
    }
    let mut rest = text;
    let mut count = 0;
    while let Some((word, more)) = cut_at(rest, b':') {
        if is_no_group(word) {
            return None;
        }
        count += 1;
        rest = more;
    }
    Some(count + last_count(rest, may_be_dotted)?)
}

/// The value of a hexadecimal digit.
fn nibble(byte: u8) -> u16
    ensures value { result ≡ nibble byte }
    ensures small { result < 16 }
{
    match char::from(byte).to_digit(16) {
        Some(value) => value as u16,
        None => 0,
    }
}

/// The group of a word.
fn group(word: &[u8]) -> Result<u16, AddrFault>
    ensures { result ≡ group_of word.now }
{
    if word.len() > 4 {
        return Err(AddrFault::OutOfRange);
    }
    let mut group = 0;
    for byte in word {
        group = group * 16 + nibble(*byte);
    }
    Ok(group)
}

/// Appends the groups of a word.
fn push_word(groups: &mut ArrayVec<u16, 8>, word: &[u8]) -> Result<(), AddrFault>
    requires { length groups.old.items + (if has_dot word.now then 2 else 1) ≤ 8 }
    ensures ok { OnOk result (ReadsOnto groups.old.items (word_groups word.now) groups.new.items) }
    ensures err { IfErr result (λ fault. word_groups word.now ≡ Err fault) }
{
    if !has_dot(word) {
        groups.push(group(word)?);
        return Ok(());
    }
    let number = dotted(word)?;
    groups.push((number >> 16) as u16);
    groups.push((number % 0x1_0000) as u16);
    Ok(())
}

/// Appends the groups of a text.
fn push_text(groups: &mut ArrayVec<u16, 8>, text: &[u8]) -> Result<(), AddrFault>
    requires { HasRoom (length groups.old.items) (words_of text.now) }
    ensures ok { OnOk result (ReadsOnto groups.old.items (groups_in (words_of text.now)) groups.new.items) }
    ensures err { IfErr result (λ fault. groups_in (words_of text.now) ≡ Err fault) }
{
    if text.is_empty() {
        return Ok(());
    }
    let mut rest = text;
    while let Some((word, more)) = cut_at(rest, b':') {
        push_word(groups, word)?;
        rest = more;
    }
    push_word(groups, rest)
}

fn push_zeros(groups: &mut ArrayVec<u16, 8>, count: usize)
    requires { length groups.old.items + count ≤ 8 }
    ensures { groups.new.items ≡ groups.old.items ++ replicate count 0 }
{
    for _ in 0..count {
        groups.push(0);
    }
}

/// The number of eight groups.
fn number_of(groups: &[u16]) -> u128
    requires { length groups.now ≡ 8 }
    ensures { result ≡ number_of groups.now }
{
    let mut number: u128 = 0;
    for group in groups {
        number = number * 0x1_0000 + u128::from(*group);
    }
    number
}

/// The number of a text without two colons side by side.
fn whole(text: &[u8]) -> Result<u128, AddrFault>
    ensures { result ≡ whole_of (words_of text.now) }
{
    if count(text, true).unwrap_or(0) != 8 {
        return Err(AddrFault::BadGroups);
    }
    let mut groups = ArrayVec::new();
    push_text(&mut groups, text)?;
    Ok(number_of(groups.as_slice()))
}

/// How many zero groups two colons between two texts are.
fn gap(front: &[u8], back: &[u8]) -> Option<usize>
    ensures { result ≡ gap_of (group_count false (words_of front.now)) (group_count true (words_of back.now)) }
{
    let before = count(front, false)?;
    let after = count(back, true)?;
    if before >= 8 || after >= 8 - before {
        return None;
    }
    Some(8 - before - after)
}

/// The number of the texts before and after two colons.
fn short(front: &[u8], back: &[u8]) -> Result<u128, AddrFault>
    ensures { result ≡ short_of (words_of front.now) (words_of back.now) }
{
    let Some(gap) = gap(front, back) else {
        return Err(AddrFault::BadGroups);
    };
    let mut groups = ArrayVec::new();
    push_text(&mut groups, front)?;
    push_zeros(&mut groups, gap);
    push_text(&mut groups, back)?;
    Ok(number_of(groups.as_slice()))
}

/// The number of the address of a text with a colon.
pub(crate) fn six(text: &[u8]) -> Result<u128, AddrFault>
    ensures { result ≡ six_of text.now }
{
    if !are_six_bytes(text) {
        return Err(AddrFault::BadDigit);
    }
    match cut(text, b"::") {
        Some((front, back)) => short(front, back),
        None => whole(text),
    }
}
