//! That the turns of a round are spread and settle, and are then those that a sort makes.
use crate::cycle::{settles_whole, sorted_turns, turn_count};
use crate::settle::settle;
use crate::spread::spread_turns;
use proxy_types::{MOST_SERVERS, Place};
use std::alloc::{AllocError, Global};
use std::process::Abort;
use std::test::Fail;

/// As many servers as a backend may have.
const MANY: u64 = MOST_SERVERS as u64;

/// Lists of weights: none, none that has a turn, one, equal ones, the least and the greatest, and such as
/// have many turns at one time.
static LISTS: [&[u16]; 16] = [
    &[],
    &[0],
    &[0, 0, 0],
    &[1],
    &[2],
    &[256],
    &[u16::MAX],
    &[1, 1, 1, 1],
    &[0, 5, 0, 5],
    &[1, 2, 3, 4, 5, 6, 7, 8],
    &[8, 7, 6, 5, 4, 3, 2, 1],
    &[1, 3, 5, 7, 9, 15, 45, 105, 315],
    &[255, 256, u16::MAX],
    &[u16::MAX, 1, u16::MAX - 1, 1, 32768, 32767],
    &[256, 255, 254, 253, 252, 251],
    &[1000, 1001, 1002, 1003, 1004, 1005, 1006],
];

/// The spread turns of those weights pass as their round, and are the sorted ones.
fn spreads(rt: &impl Abort, alloc: Global, weights: &[u16]) -> Result<(), AllocError> {
    assert!(rt; weights.len() < 0x1_0000);
    let mut spread = spread_turns(alloc, weights, turn_count(weights))?;
    assert!(rt; settles_whole(weights, &mut spread));
    let sorted = sorted_turns(alloc, weights)?;
    assert!(rt; spread.as_slice() == sorted.as_slice());
    Ok(())
}

/// A number after that one, which looks like chance.
fn next_number(number: u64) -> u64 {
    number
        .wrapping_mul(6364136223846793005)
        .wrapping_add(1442695040888963407)
}

/// Weights to that one, and some of 0.
fn made_weights(alloc: Global, count: u64, most: u64, seed: u64) -> Result<Vec<u16>, AllocError> {
    let mut weights = Vec::new(alloc);
    let mut number = next_number(seed);
    for _server in 0..count {
        number = next_number(number);
        let weight = ((number >> 33) % most.saturating_add(1)) & 0xFFFF;
        weights.push(weight as u16)?;
    }
    Ok(weights)
}

#[test]
fn chosen_weights_are_spread(rt: HostRuntime) -> Result<(), Fail> {
    for weights in LISTS.iter() {
        spreads(&rt, rt.alloc(), weights)?;
    }
    Ok(())
}

/// Weights that go up or down in steps, and begin again after so many: many turns come at one time, or
/// shortly after each other in the other order.
fn stepped_weights(
    alloc: Global,
    count: u64,
    run: u64,
    step: u64,
    down: bool,
) -> Result<Vec<u16>, AllocError> {
    let mut weights = Vec::new(alloc);
    for server in 0..count {
        let at = if down { count - 1 - server } else { server };
        let weight = (at % run.max(1)).saturating_add(1).saturating_mul(step) & 0xFFFF;
        weights.push(weight as u16)?;
    }
    Ok(weights)
}

#[test]
fn stepped_weights_are_spread(rt: HostRuntime) -> Result<(), Fail> {
    let alloc = rt.alloc();
    for (count, run, step) in [
        (MANY, MANY, 1),
        (MANY, MANY, 4),
        (MANY, 2, 1),
        (60, 3, 1),
        (MANY, 1, 256),
        (500, 5, 2),
        (40, 4, 85),
    ] {
        for down in [false, true] {
            let weights = stepped_weights(alloc, count, run, step, down)?;
            spreads(&rt, alloc, weights.as_slice())?;
        }
    }
    // Those of 1 before those of 3: all of the first come at the time of the middle ones of the second.
    let mut weights = vec![in alloc; 1u16; 32]?;
    weights.resize(MOST_SERVERS, 3)?;
    spreads(&rt, alloc, weights.as_slice())?;
    Ok(())
}

#[test]
fn made_weights_are_spread(rt: HostRuntime) -> Result<(), Fail> {
    let alloc = rt.alloc();
    let mut seed: u64 = 1;
    for (count, most) in [
        (2, 9),
        (3, 300),
        (9, 40),
        (MANY, 1),
        (MANY, 256),
        (300, 3),
        (7, 5000),
    ] {
        for _list in 0..20 {
            let weights = made_weights(alloc, count, most, seed)?;
            spreads(&rt, alloc, weights.as_slice())?;
            seed = seed.wrapping_add(1);
        }
    }
    Ok(())
}

/// So many turns that there are more of them than buckets.
#[test]
fn more_turns_than_buckets_are_spread(rt: HostRuntime) -> Result<(), Fail> {
    let alloc = rt.alloc();
    let weights = made_weights(alloc, 48, u64::from(u16::MAX), 7)?;
    spreads(&rt, alloc, weights.as_slice())?;
    Ok(())
}

/// Turns that are far from their places are left, and such as are no turns, or twice there.
#[test]
fn turns_far_from_their_places_are_left(rt: HostRuntime) -> Result<(), Fail> {
    let alloc = rt.alloc();
    for (count, settles) in [
        (1u16, true),
        (2, true),
        (17, true),
        (18, false),
        (1000, false),
    ] {
        let mut places = Vec::new(alloc);
        for turn in 0..count {
            let turn = count - 1 - turn;
            places.push(Place { server: 0, turn })?;
        }
        let weights = [count];
        assert!(rt; settle(&weights, &mut places) == settles);
    }
    let mut twice = vec![in alloc; Place { server: 0, turn: 1 }; 2]?;
    assert!(rt; !settle(&[2], &mut twice));
    let mut none = vec![in alloc; Place { server: 0, turn: 2 }; 1]?;
    assert!(rt; !settle(&[2], &mut none));
    Ok(())
}
