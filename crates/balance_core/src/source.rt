//! By source.
ghost use Rattle.std.specs.Prelude.{◌≡◌, ◌%◌, ◌^◌, take};
ghost use Rattle.balance_core.specs.Loads.{total_weight};
ghost use Rattle.balance_core.specs.Source.{mixed, share_of, of_source};

use crate::load::{Load, has_room, weight_of};
use addr_core::Addr;

/// The server of a source address, if it has room: the words of the address joined by exclusive or,
/// modulo all weights together, fall into its part of the weights.
pub fn pick_source<L: Load>(source: &Addr, load: &L) -> Option<u16>
    ensures { result ≡ of_source (L.servers load.now) source.now }
{
    let total = weight_up_to(load, load.count());
    if total == 0 {
        return None;
    }
    match server_at(u64::from(mixed_words(source)) % total, load) {
        Some(server) => has_room(load, server).then_some(server),
        None => None,
    }
}

/// The 32-bit words of an address, joined by exclusive or.
fn mixed_words(addr: &Addr) -> u32
    ensures { result ≡ mixed addr.now }
{
    match *addr {
        Addr::V4(number) => number,
        Addr::V6(number) => {
            last_word(number >> 96)
                ^ last_word(number >> 64)
                ^ last_word(number >> 32)
                ^ last_word(number)
        }
    }
}

fn last_word(number: u128) -> u32
    ensures { result ≡ number % 2 ^ 32 }
{
    (number % 0x1_0000_0000) as u32
}

/// The server into whose part of the weights a number falls.
fn server_at<L: Load>(number: u64, load: &L) -> Option<u16>
    ensures { result ≡ share_of (L.servers load.now) number }
{
    let mut rest = number;
    for server in 0..load.count() {
        let weight = u64::from(weight_of(load, server));
        if rest < weight {
            return Some(server);
        }
        rest -= weight;
    }
    None
}

/// The weights of the first so many servers together.
fn weight_up_to<L: Load>(load: &L, count: u16) -> u64
    ensures { result ≡ total_weight (take count (L.servers load.now)) }
{
    let mut total = 0;
    for server in 0..count {
        total += u64::from(weight_of(load, server));
    }
    total
}
