//! The pair at the beginning of a block.
ghost use Rattle.std.specs.Prelude.{◌≡◌, ◌+◌, ◌≤◌, length, true};
ghost use Rattle.addr_core.specs.Family.{same_family};
ghost use Rattle.pp_v2.specs.Head.{pair_length};
ghost use Rattle.pp_v2.specs.Block.{ipv4_at, ipv6_at, number_at, pair_in, port_at};

use crate::head::Family;
use addr_core::{Addr, Endpoint, Pair};

fn port_at(block: &[u8], at: usize) -> u16
    requires { at + 2 ≤ length block.now }
    ensures { result ≡ port_at at block.now }
{
    u16::from_be_bytes([block[at], block[at + 1]])
}

fn ipv4_at(block: &[u8], at: usize) -> Addr
    requires { at + 4 ≤ length block.now }
    ensures { result ≡ ipv4_at at block.now }
{
    Addr::V4(u32::from_be_bytes([block[at], block[at + 1], block[at + 2], block[at + 3]]))
}

fn half_at(block: &[u8], at: usize) -> u64
    requires { at + 8 ≤ length block.now }
    ensures { result ≡ number_at at 8 block.now }
{
    u64::from_be_bytes([
        block[at],
        block[at + 1],
        block[at + 2],
        block[at + 3],
        block[at + 4],
        block[at + 5],
        block[at + 6],
        block[at + 7],
    ])
}

fn ipv6_at(block: &[u8], at: usize) -> Addr
    requires { at + 16 ≤ length block.now }
    ensures { result ≡ ipv6_at at block.now }
{
    Addr::V6(u128::from(half_at(block, at)) << 64 | u128::from(half_at(block, at + 8)))
}

fn pair_of(source: Endpoint, destination: Endpoint) -> Pair
    requires { same_family source.addr destination.addr ≡ true }
    ensures source { result.source ≡ source }
    ensures destination { result.destination ≡ destination }
{
    match Pair::of(source, destination) {
        Some(pair) => pair,
        None => unreachable!(),
    }
}

/// The pair that the first bytes of a block declare: 12 bytes under IPv4, 36 under IPv6.
pub fn read_block(family: Family, block: &[u8]) -> Pair
    requires { length block.now ≡ pair_length family }
    ensures { result ≡ pair_in family block.now }
{
    match family {
        Family::V4 => pair_of(
            Endpoint {
                addr: ipv4_at(block, 0),
                port: port_at(block, 8),
            },
            Endpoint {
                addr: ipv4_at(block, 4),
                port: port_at(block, 10),
            },
        ),
        Family::V6 => pair_of(
            Endpoint {
                addr: ipv6_at(block, 0),
                port: port_at(block, 32),
            },
            Endpoint {
                addr: ipv6_at(block, 16),
                port: port_at(block, 34),
            },
        ),
    }
}
