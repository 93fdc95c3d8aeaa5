//! A record is audited, and then played against another file.
use crate::book::Keeper;
use crate::clients::{Clients, Habits};
use crate::digest::{with_bytes, with_number};
use crate::draw::mixed;
use crate::job::JobFault;
use crate::serve::room;
use crate::texts;
use audit_core::run_audit;
use device_core::{MemoryInput, MemoryOutput, Schedule};
use std::alloc::{AllocError, Global};
use whatif_core::{Comparison, run_whatif};

/// The lines of the deny list of the new file: 12,700 networks.
const DENIED: u64 = 254;

/// The record of the clients of a file, for so many turns.
fn record_of(alloc: Global, text: &str, turns: u64, seed: u64) -> Result<MemoryOutput, JobFault> {
    let habits = Habits {
        listeners: texts::TENANTS,
        port: 8_000,
        sources: 50_000,
        open: 5_000,
    };
    let mut keeper = Keeper::open(alloc, text, room(turns))?;
    let mut clients = Clients::new(alloc, habits, seed);
    let done = clients.turns(alloc, &mut keeper, turns);
    let (record, _faults) = keeper.end();
    done?;
    Ok(record)
}

fn reader(alloc: Global, record: &[u8]) -> Result<MemoryInput, AllocError> {
    MemoryInput::new(alloc, record, Schedule::plain(alloc))
}

fn audit(alloc: Global, text: &str, record: &[u8], space: usize) -> Result<u64, JobFault> {
    let (mut first, mut second) = (reader(alloc, record)?, reader(alloc, record)?);
    let mut lines = MemoryOutput::new(alloc, space, Schedule::plain(alloc))?;
    match run_audit(alloc, text, &mut first, &mut second, &mut lines) {
        Ok(found) => Ok(with_number(with_bytes(0, lines.as_slice()), u64::from(found.is_some()))),
        Err(_) => Err(JobFault::Device),
    }
}

fn whatif(
    alloc: Global,
    texts: (&str, &str),
    record: &[u8],
    space: usize,
) -> Result<u64, JobFault> {
    let (mut first, mut second) = (reader(alloc, record)?, reader(alloc, record)?);
    let mut lines = MemoryOutput::new(alloc, space, Schedule::plain(alloc))?;
    let found = run_whatif(
        alloc,
        false,
        texts.0,
        texts.1,
        &mut first,
        &mut second,
        &mut lines,
    );
    match found {
        Ok(Comparison::Compared(differing)) => Ok(with_number(
            with_bytes(0, lines.as_slice()),
            differing,
        )),
        Ok(_) => Err(JobFault::Config),
        Err(_) => Err(JobFault::Device),
    }
}

pub fn run(alloc: Global, count: u64, seed: u64) -> Result<u64, JobFault> {
    let old = texts::tenants(alloc, seed, 0, 40)?;
    let new = texts::tenants(alloc, mixed(seed), DENIED, 3)?;
    let record = record_of(alloc, old.as_str(), count, mixed(seed))?;
    let space = room(count.saturating_mul(2));
    let audited = audit(alloc, old.as_str(), record.as_slice(), space)?;
    let compared = whatif(
        alloc,
        (old.as_str(), new.as_str()),
        record.as_slice(),
        space,
    )?;
    Ok(with_number(with_bytes(audited, record.as_slice()), compared))
}
