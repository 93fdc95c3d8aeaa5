//! Writing the groups of an IPv6 address.
ghost use Rattle.std.specs.Prelude.{◌≡◌, ◌+◌, ◌-◌, ◌*◌, ◌^◌, ◌<◌, ◌≤◌, ◌∷◌, ◌++◌, [], length};
ghost use Rattle.std.specs.Char.{digit_char};
ghost use Rattle.std.specs.List.{flat_map};
ghost use Rattle.addr_core.specs.Groups.{colon_text, groups_of, groups_text, hexadecimal, longest, without_run, zeros, IsLongest};

use crate::addr::MOST_ADDR_BYTES;
use arrayvec::ArrayString;

/// The eight groups of an address.
pub(crate) fn groups_of(number: u128) -> [u16; 8]
    ensures { result ≡ groups_of number }
{
    [
        (number >> 112) as u16,
        ((number >> 96) % 0x1_0000) as u16,
        ((number >> 80) % 0x1_0000) as u16,
        ((number >> 64) % 0x1_0000) as u16,
        ((number >> 48) % 0x1_0000) as u16,
        ((number >> 32) % 0x1_0000) as u16,
        ((number >> 16) % 0x1_0000) as u16,
        (number % 0x1_0000) as u16,
    ]
}

/// The hexadecimal digit of a value below 16, in lower case.
fn hex_digit(value: u16) -> u8
    requires { value < 16 }
    ensures digit { result ≡ digit_char value }
    ensures ascii { result < 128 }
{
    if value < 10 {
        return b'0' + value as u8;
    }
    b'a' + (value as u8 - 10)
}

fn push_digit(text: &mut ArrayString<MOST_ADDR_BYTES>, value: u16)
    requires value { value < 16 }
    requires room { length text.old.bytes < MOST_ADDR_BYTES }
    ensures { text.new.bytes ≡ text.old.bytes ++ digit_char value ∷ [] }
{
    text.push(char::from(hex_digit(value)));
}

fn push_group(text: &mut ArrayString<MOST_ADDR_BYTES>, group: u16)
    requires { length text.old.bytes + length (hexadecimal group) ≤ MOST_ADDR_BYTES }
    ensures { text.new.bytes ≡ text.old.bytes ++ hexadecimal group }
{
    if group < 16 {
        push_digit(text, group);
        return;
    }
    push_group(text, group / 16);
    push_digit(text, group % 16);
}

/// Appends the group, which has at most four digits.
fn push_short(text: &mut ArrayString<MOST_ADDR_BYTES>, group: u16)
    requires { length text.old.bytes + 4 ≤ MOST_ADDR_BYTES }
    ensures bytes { text.new.bytes ≡ text.old.bytes ++ hexadecimal group }
    ensures room { length text.new.bytes ≤ length text.old.bytes + 4 }
{
    push_group(text, group);
}

fn push_colon(text: &mut ArrayString<MOST_ADDR_BYTES>)
    requires { length text.old.bytes < MOST_ADDR_BYTES }
    ensures bytes { text.new.bytes ≡ text.old.bytes ++ 58 ∷ [] }
    ensures room { length text.new.bytes ≡ length text.old.bytes + 1 }
{
    text.push(':');
}

/// Appends the groups, each after a colon.
fn push_more(text: &mut ArrayString<MOST_ADDR_BYTES>, groups: &[u16])
    requires { length text.old.bytes + 5 * length groups.now ≤ MOST_ADDR_BYTES }
    ensures bytes { text.new.bytes ≡ text.old.bytes ++ flat_map (λ group. 58 ∷ hexadecimal group) groups.now }
    ensures room { length text.new.bytes ≤ length text.old.bytes + 5 * length groups.now }
{
    for group in groups {
        push_colon(text);
        push_short(text, *group);
    }
}

/// Appends the groups with single colons.
fn push_groups(text: &mut ArrayString<MOST_ADDR_BYTES>, groups: &[u16])
    requires { length text.old.bytes + 5 * length groups.now ≤ 40 }
    ensures bytes { text.new.bytes ≡ text.old.bytes ++ colon_text groups.now }
    ensures room { length text.new.bytes ≤ length text.old.bytes + (5 * length groups.now - 1) }
{
    let [first, rest @ ..] = groups else {
        return;
    };
    push_short(text, *first);
    push_more(text, rest);
}

/// How many zero groups come before the first that is not zero.
fn zeros(groups: &[u16]) -> usize
    ensures count { result ≡ zeros groups.now }
    ensures bound { result ≤ length groups.now }
{
    groups.iter().take_while(|group| **group == 0).count()
}

/// A run of one zero group is written out.
const SHORTEST_RUN: usize = 2;

/// A run of zero groups: where it begins, and how many there are.
#[derive(Clone, Copy)]
struct Run {
    place: usize,
    count: usize,
}

/// The longest run of zero groups, the first of equal ones.
fn longest(groups: &[u16]) -> Run
    ensures place { result.place ≡ (longest groups.now).place }
    ensures count { result.count ≡ (longest groups.now).count }
    ensures bound { result.place + result.count ≤ length groups.now }
    ensures longest { IsLongest result.place result.count groups.now }
{
    longest_run(groups)
}

fn longest_run(groups: &[u16]) -> Run
    ensures place { result.place ≡ (longest groups.now).place }
    ensures count { result.count ≡ (longest groups.now).count }
    ensures bound { result.place + result.count ≤ length groups.now }
{
    let [_, rest @ ..] = groups else {
        return Run { place: 0, count: 0 };
    };
    let here = zeros(groups);
    let later = longest_run(rest);
    if here >= later.count {
        return Run {
            place: 0,
            count: here,
        };
    }
    Run {
        place: later.place + 1,
        count: later.count,
    }
}

/// The groups as text, with `::` for the longest run of two zero groups or more, the first of equal
/// ones (RFC 5952, section 4.2).
pub(crate) fn write_groups(groups: &[u16]) -> ArrayString<MOST_ADDR_BYTES>
    requires { length groups.now ≤ 8 }
    ensures text { result.bytes ≡ groups_text groups.now }
    ensures length { length result.bytes ≤ MOST_ADDR_BYTES }
{
    let run = longest(groups);
    let mut text = ArrayString::new();
    if run.count < SHORTEST_RUN {
        push_groups(&mut text, groups);
        return text;
    }
    push_groups(&mut text, &groups[..run.place]);
    push_colon(&mut text);
    push_colon(&mut text);
    push_groups(&mut text, &groups[run.place + run.count..]);
    text
}
