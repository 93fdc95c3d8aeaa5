//! Runs that are cut short.
use crate::tests::outcome::{counted, fault_of, made};
use crate::tests::play::{Play, Word, run};
use crate::tests::workers::{CLIENT, PLAIN};
use desk_core::Settled;
use std::alloc::Global;
use std::sync::Wait;
use std::thread::Threads;
use std::time::Clock;

/// The gate lets no call pass, or three.
const SHUT: Play<'static> = Play { calls: 0, ..PLAIN };

const FALLS: Play<'static> = Play { calls: 3, ..PLAIN };

static STOPPED: [Word; 4] = [("wait", 1), ("offer", 12), ("up", 1), ("stopped", 1)];

#[test]
fn gate_that_is_shut_lets_no_call_pass(rt: HostRuntime) {
    let wanted = counted(0, 1, 0);
    assert_eq!(rt; fault_of(&rt, rt.alloc(), &rt, &SHUT, &[], &wanted), None);
}

#[test]
fn gate_that_falls_leaves_what_is_open_to_be_closed(rt: HostRuntime) {
    let fault = fault_of(&rt, rt.alloc(), &rt, &FALLS, &STOPPED, &made(4));
    assert_eq!(rt; fault, None);
}

/// Three clients at two workers.
const THREE: Play<'static> = Play {
    clients: &[CLIENT, CLIENT, CLIENT],
    workers: 2,
    ..PLAIN
};

/// Whether a run of so many turns takes no connection that did not come, and settles with nothing open.
fn settles<R: Threads + Wait + Sync, H: Clock + Copy + Send + Sync + Drop>(
    rt: &R,
    alloc: Global,
    sleeper: H,
    turns: u64,
) -> bool {
    let play = Play { turns, ..THREE };
    match run(rt, alloc, sleeper, &play) {
        Some(ended) => {
            let seen = ended.seen;
            let records = seen.summary.recorded;
            seen.fault.is_none()
                && seen.summary.taken <= seen.summary.accepted
                && seen.calls == records
                && seen.settled
                    == Ok(Settled {
                        made: records,
                        live: 0,
                    })
        }
        None => false,
    }
}

#[test]
fn few_turns_settle_too(rt: HostRuntime) {
    for turns in 0..51 {
        assert!(rt; settles(&rt, rt.alloc(), &rt, turns), "at {turns}");
    }
}
