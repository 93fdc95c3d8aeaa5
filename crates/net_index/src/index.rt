//! An index of networks.
ghost use Rattle.std.specs.Prelude.{◌≡◌, true, false, length, IfOk};
ghost use Rattle.std.specs.List.{list_any, filter};
ghost use Rattle.net_index.specs.Index.{has_addr, is_of, HasFamily};

use crate::range::{range_of, short_of};
use crate::ranges::Ranges;
use addr_core::{Addr, Net};
use std::alloc::{AllocError, Global};
use std::marker::Model;

/// Networks of both families. A contract sees the list of them, as it was given.
#[derive(Debug, Drop)]
pub struct NetIndex {
    nets: Vec<Net>,
    four: Ranges,
    six: Ranges,
}

impl Model for NetIndex {
    ghost use Rattle.std.specs.Prelude.{List};
    ghost use Rattle.addr_core.specs.Prefix.{Prefix};
    ghost use Rattle.net_index.specs.Index.{IsIndex};

    ghost Value = { List Prefix };

    ghost view = { λ i. i.nets.items };

    ghost invariant = { λ i. IsIndex i.nets.items i.four i.six };
}

fn is_of(net: &Net, of_six: bool) -> bool
    ensures { result ≡ is_of of_six net.now }
{
    match net.addr() {
        Addr::V4(_) => !of_six,
        Addr::V6(_) => of_six,
    }
}

/// How many networks are of a family.
fn count_of(nets: &[Net], of_six: bool) -> usize
    ensures { result ≡ length (filter (is_of of_six) nets.now) }
{
    nets.iter().filter(|net| is_of(net, of_six)).count()
}

/// The addresses of IPv4 that some networks have.
fn gather_four(alloc: Global, nets: &[Net]) -> Result<Ranges, AllocError>
    ensures { IfOk result (HasFamily false nets.now) }
{
    let mut ranges = Vec::with_capacity(alloc, count_of(nets, false))?;
    for net in nets {
        if let Some(range) = short_of(net) {
            ranges.push(range)?;
        }
    }
    Ranges::of_short(alloc, ranges)
}

/// The addresses of IPv6 that some networks have.
fn gather_six(alloc: Global, nets: &[Net]) -> Result<Ranges, AllocError>
    ensures { IfOk result (HasFamily true nets.now) }
{
    let mut ranges = Vec::with_capacity(alloc, count_of(nets, true))?;
    for net in nets {
        if let Some(range) = range_of(net) {
            ranges.push(range)?;
        }
    }
    Ranges::of(alloc, ranges)
}

impl NetIndex {
    /// An index of these networks.
    pub fn of(alloc: Global, nets: &[Net]) -> Result<NetIndex, AllocError>
        ensures { IfOk result (λ index. index ≡ nets.now) }
    {
        Ok(NetIndex {
            nets: nets.to_vec(alloc)?,
            four: gather_four(alloc, nets)?,
            six: gather_six(alloc, nets)?,
        })
    }

    /// An index of the same networks. It copies what is found, in place of finding it again.
    pub fn duplicate(&self, alloc: Global) -> Result<NetIndex, AllocError>
        ensures { IfOk result (λ copy. copy ≡ self.now) }
    {
        Ok(NetIndex {
            nets: self.nets.to_vec(alloc)?,
            four: self.four.duplicate(alloc)?,
            six: self.six.duplicate(alloc)?,
        })
    }

    /// The networks, as they were given.
    pub fn nets(&self) -> &[Net]
        ensures { result.now ≡ self.now }
    {
        self.nets.as_slice()
    }

    /// Whether some network has the address. It takes a search among ranges, by halves.
    pub fn holds(&self, addr: &Addr) -> bool
        ensures { result ≡ list_any (has_addr addr.now) self.now }
    {
        match *addr {
            Addr::V4(number) => self.four.covers(u128::from(number)),
            Addr::V6(number) => self.six.covers(number),
        }
    }
}
