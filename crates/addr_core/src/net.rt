//! Networks.
ghost use Rattle.std.specs.Prelude.{◌≡◌, ◌≤◌, ◌-◌, ◌/◌, ◌^◌, ◌==◌};

use crate::addr::Addr;
use std::marker::Model;

/// The addresses that agree with one in its first bits, as 10.0.0.0/8 (RFC 4632, section 3.1; RFC 4291,
/// section 2.3). The bits of `addr` after those do not count.
#[derive(Clone, Copy, Debug, PartialEq, Eq)]
pub struct Net {
    addr: Addr,
    bits: u8,
}

impl Model for Net {
    ghost use Rattle.addr_core.specs.Prefix.{Prefix, width_of};

    ghost Value = { Prefix };

    ghost use Rattle.std.specs.Prelude.{◌≤◌};

    ghost view = { λ n. record { addr = n.addr; bits = n.bits } };

    ghost invariant = { λ n. n.bits ≤ width_of n.addr };

    ghost inverse = { λ p. record { addr = p.addr; bits = p.bits } };
}

/// Whether two IPv6 addresses have so many first bits in common.
fn have_common_bits(own: u128, other: u128, bits: u8) -> bool
    requires { bits ≤ 128 }
    ensures { result ≡ (own / 2 ^ (128 - bits) == other / 2 ^ (128 - bits)) }
{
    if bits == 0 {
        return true;
    }
    let shift = 128 - bits;
    own >> shift == other >> shift
}

impl Net {
    ghost use Rattle.addr_core.specs.Prefix.{width_of, holds};

    /// The network of the addresses that begin with so many bits of `addr`.
    pub fn of(addr: Addr, bits: u8) -> Net
        requires { bits ≤ width_of addr }
        ensures addr { result.addr ≡ addr }
        ensures bits { result.bits ≡ bits }
    {
        Net { addr, bits }
    }

    pub fn addr(&self) -> Addr
        ensures { result ≡ self.now.addr }
    {
        self.addr
    }

    /// How many first bits count.
    pub fn bits(&self) -> u8
        ensures value { result ≡ self.now.bits }
        ensures in_range { self.now.bits ≤ width_of self.now.addr }
    {
        self.bits
    }

    /// Whether the network has the address.
    pub fn contains(&self, addr: &Addr) -> bool
        ensures { result ≡ holds self.now addr.now }
    {
        match (self.addr, *addr) {
            (Addr::V4(own), Addr::V4(other)) => {
                let shift = 32 - self.bits;
                u64::from(own) >> shift == u64::from(other) >> shift
            }
            (Addr::V6(own), Addr::V6(other)) => have_common_bits(own, other, self.bits),
            (Addr::V4(_), Addr::V6(_)) => false,
            (Addr::V6(_), Addr::V4(_)) => false,
        }
    }
}
