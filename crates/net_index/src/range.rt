//! The addresses of a network as a range of numbers.
ghost use Rattle.std.specs.Prelude.{◌≡◌, ◌≤◌, ◌+◌, ◌*◌, ◌/◌, ◌^◌, ℕ, true, false};
ghost use Rattle.addr_core.specs.Prefix.{holds};
ghost use Rattle.std.specs.Option.{option_map};
ghost use Rattle.net_index.specs.Ranges.{is_in, wide};
ghost use Rattle.net_index.specs.Index.{numbered};

use addr_core::{Addr, Net};

/// Numbers from the first to the last, both included.
#[derive(Clone, Copy, Debug, PartialEq, Eq)]
pub(crate) struct Range {
    pub(crate) first: u128,
    pub(crate) last: u128,
}

/// Numbers of 32 bits from the first to the last, both included: many of them are sorted.
#[derive(Clone, Copy, Debug, PartialEq, Eq)]
pub(crate) struct Short {
    pub(crate) first: u32,
    pub(crate) last: u32,
}

/// The numbers that agree with one in all bits except so many last ones.
fn block(number: u128, rest: u8) -> Range
    requires { rest ≤ 128 }
    ensures first { result.first ≡ number / 2 ^ rest * 2 ^ rest }
    ensures last { result.last + 1 ≡ result.first + 2 ^ rest }
{
    if rest == 128 {
        return Range {
            first: 0,
            last: u128::MAX,
        };
    }
    let size = 1u128 << rest;
    let first = number - number % size;
    Range {
        first,
        last: first + (size - 1),
    }
}

/// The same of numbers of 32 bits.
fn short_block(number: u32, rest: u8) -> Short
    requires { rest ≤ 32 }
    ensures first { result.first ≡ number / 2 ^ rest * 2 ^ rest }
    ensures last { result.last + 1 ≡ result.first + 2 ^ rest }
{
    if rest == 32 {
        return Short {
            first: 0,
            last: u32::MAX,
        };
    }
    let count = 1u32 << rest;
    let first = number - number % count;
    Short {
        first,
        last: first + (count - 1),
    }
}

/// The addresses of IPv4 that a network has, as numbers.
pub(crate) fn short_of(net: &Net) -> Option<Short>
    ensures { (n : ℕ) → is_in (option_map wide result) n ≡ holds net.now (numbered false n) }
{
    match net.addr() {
        Addr::V4(number) => Some(short_block(number, 32 - net.bits())),
        Addr::V6(_) => None,
    }
}

/// The addresses of IPv6 that a network has, as numbers.
pub(crate) fn range_of(net: &Net) -> Option<Range>
    ensures { (n : ℕ) → is_in result n ≡ holds net.now (numbered true n) }
{
    match net.addr() {
        Addr::V4(_) => None,
        Addr::V6(number) => Some(block(number, 128 - net.bits())),
    }
}

/// The same numbers.
pub(crate) fn wide(short: Short) -> Range
    ensures { result ≡ wide short }
{
    Range {
        first: u128::from(short.first),
        last: u128::from(short.last),
    }
}
