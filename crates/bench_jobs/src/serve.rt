//! Connections are judged one after the other, and their record is written, as `serve` does under its lock.
use crate::book::Keeper;
use crate::clients::{Clients, Habits};
use crate::digest::{with_bytes, with_number};
use crate::draw::mixed;
use crate::job::JobFault;
use crate::texts;
use std::alloc::Global;

/// The bytes of a record that a turn takes at most, on the average.
const BYTES_OF_A_TURN: u64 = 512;

/// The room that the record of so many turns takes, with as much as a text.
pub fn room(turns: u64) -> usize {
    turns
        .saturating_mul(BYTES_OF_A_TURN)
        .saturating_add(1 << 21)
        .min(1 << 32) as usize
}

/// The clients of a file that is opened, for so many turns; the digest of their record.
fn serve(
    alloc: Global,
    text: &str,
    habits: Habits,
    turns: u64,
    seed: u64,
) -> Result<u64, JobFault> {
    let mut keeper = Keeper::open(alloc, text, room(turns))?;
    let mut clients = Clients::new(alloc, habits, seed);
    let done = clients.turns(alloc, &mut keeper, turns);
    let (record, faults) = keeper.end();
    done?;
    Ok(with_number(with_bytes(0, record.as_slice()), faults))
}

/// Many tenants with tables and rules on counts, and many connections open.
pub fn tenants(alloc: Global, count: u64, seed: u64) -> Result<u64, JobFault> {
    let text = texts::tenants(alloc, seed, 20, 40)?;
    let habits = Habits {
        listeners: texts::TENANTS,
        port: 8_000,
        sources: 50_000,
        open: 20_000,
    };
    serve(alloc, text.as_str(), habits, count, mixed(seed))
}

/// As many servers as there may be, with small tables that are full of sources that an attacker draws.
pub fn servers(alloc: Global, count: u64, seed: u64) -> Result<u64, JobFault> {
    let text = texts::wide(alloc, seed, 0)?;
    let habits = Habits {
        listeners: texts::WIDE,
        port: 8_000,
        sources: 1 << 32,
        open: 50_000,
    };
    serve(alloc, text.as_str(), habits, count, mixed(seed))
}
