//! Two threads that accept and close connections of one desk.
ghost use Rattle.std.specs.Prelude.{◌≡◌, ◌<◌, ◌-◌, ◌+◌, ◌^◌};

use crate::tests::books::{RULE, filled, open_book, pair_from, room};
use addr_core::Pair;
use conn_model::event::Why;
use desk_core::{CALL_PARTS, Desk, Lease, Pass, SettleFault, Settled, SharedDesk, settle};
use std::alloc::Global;
use std::marker::Brand;
use std::sync::Wait;
use std::sync::ledger::{Blank, Ledger};
use std::thread;
use std::thread::Threads;

type Back<M, O> = (Pass<M>, Option<Lease<O>>);

/// So many calls, which accept a connection and close it in turn.
fn work<M: Ledger, O: Ledger, R: Wait>(
    rt: &R,
    desk: &SharedDesk<M, O>,
    mut pass: Pass<M>,
    real: Pair,
    calls: u32,
) -> Back<M, O> {
    let mut open = None;
    for _call in 0..calls {
        match open {
            None => match desk.accept(rt, &mut pass, 0, 0, &real) {
                Ok((_receipt, lease)) => open = lease,
                Err(_) => open = None,
            },
            Some(lease) => match desk.close(rt, &mut pass, 0, lease, Why::Done) {
                Ok(_receipt) => open = None,
                Err((_fault, lease)) => open = Some(lease),
            },
        }
    }
    (pass, open)
}

fn side_by_side<M: Ledger + Send + Sync, O: Ledger + Send + Sync, R: Threads + Wait + Sync>(
    rt: &R,
    desk: &SharedDesk<M, O>,
    one: Pass<M>,
    other: Pass<M>,
    real: Pair,
    calls: u32,
) -> (Back<M, O>, Back<M, O>) {
    thread::join(
        rt,
        move || work(rt, desk, one, real, calls),
        move || work(rt, desk, other, real, calls),
    )
}

/// What two threads come to with so many calls each. One pass may be withheld.
fn both<M: Ledger + Send + Sync, O: Ledger + Send + Sync, R: Threads + Wait + Sync>(
    rt: &R,
    alloc: Global,
    made: Blank,
    units: Blank,
    calls: u32,
    withhold: bool,
) -> Option<Result<Settled, SettleFault>>
    requires made_name { made.name ≡ M.name }
    requires made_parts { (made.parts ≡ M.parts) × (made.parts ≡ CALL_PARTS) }
    requires units_name { units.name ≡ O.name }
    requires units_parts { (units.parts ≡ O.parts) × (units.parts ≡ 2 ^ 64 - 1) }
{
    let real = pair_from(0xc000_0205, 4000, 9000)?;
    let book = open_book(alloc, RULE)?;
    let Some(lists) = room(alloc) else {
        book.end();
        return None;
    };
    let mut desk = Desk::<M, O>::new(alloc, book, made, units);
    let (one, other) = (desk.pass(true), desk.pass(true));
    let ((one, first), (other, second)) = side_by_side(rt, desk.shared(), one, other, real, calls);
    let left = filled(lists, (first, second, None));
    let mut passes = Vec::new(alloc);
    let _ = passes.push(one);
    if !withhold {
        let _ = passes.push(other);
    }
    Some(settle(desk.into_book(), passes, left, &[]))
}

fn two_threads<R: Threads + Wait + Sync>(
    rt: &R,
    alloc: Global,
    calls: u32,
    withhold: bool,
) -> Option<Result<Settled, SettleFault>> {
    let (made, units) = (Blank::new(CALL_PARTS), Blank::new(u64::MAX));
    both::<Brand, Brand, R>(rt, alloc, made, units, calls, withhold)
}

#[test]
fn two_threads_make_one_history(rt: HostRuntime) {
    let all = two_threads(&rt, rt.alloc(), 200, false);
    assert_eq!(rt; all, Some(Ok(Settled { made: 400, live: 0 })));
}

#[test]
fn open_connections_are_the_leases(rt: HostRuntime) {
    let all = two_threads(&rt, rt.alloc(), 3, false);
    assert_eq!(rt; all, Some(Ok(Settled { made: 6, live: 2 })));
}

#[test]
fn a_pass_is_withheld(rt: HostRuntime) {
    let all = two_threads(&rt, rt.alloc(), 200, true);
    assert_eq!(rt; all, Some(Err(SettleFault::NotAll)));
}
