//! Numbers, addresses, endpoints and pairs in fewer bytes, for what keeps many of them.
ghost use Rattle.std.specs.Prelude.{◌≡◌, ◌/◌, ◌%◌, ◌^◌, true};
ghost use Rattle.addr_core.specs.Family.{same_family};
ghost use Rattle.addr_core.specs.Packed.{IsPacked, addr_of, joined};

use crate::addr::{Addr, Endpoint};
use crate::pair::Pair;
use std::marker::Model;

/// A number of 64 bits as bytes, which need no alignment: no room is lost before it.
#[derive(Debug, Drop)]
pub struct PackedNumber {
    /// The lowest comes first.
    bytes: [u8; 8],
}

impl Model for PackedNumber {
    ghost use Rattle.std.specs.Prelude.{ℕ};
    ghost use Rattle.std.specs.Int.{from_le_bytes, w64};

    ghost Value = { ℕ };

    ghost view = { λ p. from_le_bytes w64 p.bytes };
}

impl PackedNumber {
    pub fn of(number: u64) -> PackedNumber
        ensures { result ≡ number }
    {
        PackedNumber {
            bytes: number.to_le_bytes(),
        }
    }

    pub fn number(&self) -> u64
        ensures { result ≡ self.now }
    {
        u64::from_le_bytes(self.bytes)
    }
}

/// An address in 17 bytes, where an `Addr` takes 32.
#[derive(Debug, Drop)]
pub struct PackedAddr {
    /// Of an address of IPv6 the upper 64 bits.
    high: PackedNumber,
    /// Of an address of IPv6 the lower 64 bits, and of one of IPv4 its number.
    low: PackedNumber,
    is_six: bool,
}

impl Model for PackedAddr {
    ghost use Rattle.addr_core.specs.declared.addr.Addr.{Addr};
    ghost use Rattle.addr_core.specs.Packed.{IsPacked, addr_of};

    ghost Value = { Addr };

    ghost view = { λ p. addr_of p.is_six p.high p.low };

    ghost invariant = { λ p. IsPacked p.is_six p.low };
}

impl PackedAddr {
    pub fn of(addr: &Addr) -> PackedAddr
        ensures { result ≡ addr.now }
    {
        let (high, low, is_six) = halves(addr);
        PackedAddr {
            high: PackedNumber::of(high),
            low: PackedNumber::of(low),
            is_six,
        }
    }

    pub fn addr(&self) -> Addr
        ensures { result ≡ self.now }
    {
        whole(self.high.number(), self.low.number(), self.is_six)
    }
}

/// An endpoint in 20 bytes, where an `Endpoint` takes 48.
#[derive(Debug, Drop)]
pub struct PackedEndpoint {
    /// Of an address of IPv6 the upper 64 bits.
    high: PackedNumber,
    /// Of an address of IPv6 the lower 64 bits, and of one of IPv4 its number.
    low: PackedNumber,
    port: u16,
    is_six: bool,
}

impl Model for PackedEndpoint {
    ghost use Rattle.addr_core.specs.declared.addr.Endpoint.{Endpoint};
    ghost use Rattle.addr_core.specs.Packed.{IsPacked, addr_of};

    ghost Value = { Endpoint };

    ghost view = { λ p. record { addr = addr_of p.is_six p.high p.low; port = p.port } };

    ghost invariant = { λ p. IsPacked p.is_six p.low };
}

impl PackedEndpoint {
    pub fn of(endpoint: &Endpoint) -> PackedEndpoint
        ensures { result ≡ endpoint.now }
    {
        let (high, low, is_six) = halves(&endpoint.addr);
        PackedEndpoint {
            high: PackedNumber::of(high),
            low: PackedNumber::of(low),
            port: endpoint.port,
            is_six,
        }
    }

    pub fn endpoint(&self) -> Endpoint
        ensures { result ≡ self.now }
    {
        Endpoint {
            addr: whole(self.high.number(), self.low.number(), self.is_six),
            port: self.port,
        }
    }
}

/// The source and the destination of a connection in 40 bytes.
#[derive(Debug, Drop)]
pub struct PackedPair {
    source: PackedEndpoint,
    destination: PackedEndpoint,
}

impl Model for PackedPair {
    ghost use Rattle.std.specs.Prelude.{◌≡◌, true};
    ghost use Rattle.addr_core.specs.Family.{same_family};
    ghost use Rattle.addr_core.specs.PairValue.{PairValue};

    ghost Value = { PairValue };

    ghost view = { λ p. record { source = p.source; destination = p.destination } };

    ghost invariant = { λ p. same_family p.source.addr p.destination.addr ≡ true };
}

impl PackedPair {
    pub fn of(pair: &Pair) -> PackedPair
        ensures { result ≡ pair.now }
    {
        PackedPair {
            source: PackedEndpoint::of(&pair.source()),
            destination: PackedEndpoint::of(&pair.destination()),
        }
    }

    pub fn pair(&self) -> Pair
        ensures { result ≡ self.now }
    {
        pair_of(self.source.endpoint(), self.destination.endpoint())
    }
}

/// The upper and the lower half of an address, and whether it is one of IPv6.
fn halves(addr: &Addr) -> (u64, u64, bool)
    ensures value { addr_of result.2 result.0 result.1 ≡ addr.now }
    ensures packed { IsPacked result.2 result.1 }
{
    match *addr {
        Addr::V4(number) => (0, u64::from(number), false),
        Addr::V6(number) => (high_half(number), low_half(number), true),
    }
}

/// The address of two halves, of IPv6 or not.
fn whole(high: u64, low: u64, is_six: bool) -> Addr
    requires { IsPacked is_six low }
    ensures { result ≡ addr_of is_six high low }
{
    if is_six {
        Addr::V6(joined(high, low))
    } else {
        Addr::V4(low as u32)
    }
}

/// The upper 64 bits of a number.
fn high_half(number: u128) -> u64
    ensures { result ≡ number / 2 ^ 64 }
{
    (number / 0x1_0000_0000_0000_0000) as u64
}

/// The lower 64 bits of a number.
fn low_half(number: u128) -> u64
    ensures { result ≡ number % 2 ^ 64 }
{
    (number % 0x1_0000_0000_0000_0000) as u64
}

/// The number of two halves.
fn joined(high: u64, low: u64) -> u128
    ensures { result ≡ joined high low }
{
    u128::from(high) * 0x1_0000_0000_0000_0000 + u128::from(low)
}

/// The pair of two endpoints of one family.
fn pair_of(source: Endpoint, destination: Endpoint) -> Pair
    requires { same_family source.addr destination.addr ≡ true }
    ensures { result ≡ record { source = source; destination = destination } }
{
    match Pair::of(source, destination) {
        Some(pair) => pair,
        None => unreachable!(),
    }
}
