//! Runs of many records, which go to the sink in segments.
use crate::tests::link::{Script, Text};
use crate::tests::outcome::{Outcome, made};
use crate::tests::play::{Play, run};
use crate::tests::stage::Mark;
use crate::tests::workers::{CLIENT, PLAIN};
use crew_core::{Backlog, RING, Summary};
use desk_core::SettleFault;
use std::alloc::Global;
use std::sync::Wait;
use std::thread::Threads;
use std::time::Clock;

/// A client that sends nothing.
const CALLER: Script = Script {
    gives: Text::Nothing,
    drops: None,
    ..CLIENT
};

/// A connection makes two records: it is offered the server, and the server cannot be reached.
const UNREACHABLE: Play<'static> = Play {
    text: "frontend f\nbind 127.0.0.1:8080\ndefault_backend b\nbackend b\nserver s 10.0.0.20:80\n",
    fails: 1_000,
    closes_after: None,
    turns: 1_000_000,
    ..PLAIN
};

/// All clients come and go, and their records too, except those that the sink refuses.
fn all_closed(connections: u64, sink_failed: u64) -> Option<Summary> {
    Some(Summary {
        accepted: connections,
        taken: connections,
        closed: connections,
        recorded: connections.saturating_mul(2),
        sink_failed,
        began: true,
    })
}

/// What is wrong with a run of 1,000 connections at two workers, if anything is. The ring has room for so many segments,
/// and the sink takes so many at least. What is reported to the door meanwhile is not asked for.
fn fault_of_many<R: Threads + Wait + Sync, H: Clock + Copy + Send + Sync + Drop>(
    rt: &R,
    alloc: Global,
    sleeper: H,
    ring: usize,
    segments: usize,
) -> Option<&'static str> {
    let clients = [CALLER; 1_000];
    let play = Play {
        clients: &clients,
        workers: 2,
        ring,
        ..UNREACHABLE
    };
    let Some(ended) = run(rt, alloc, sleeper, &play) else {
        return Some("there is no memory");
    };
    let seen = ended.seen;
    if seen.segments < segments || seen.gaps != 0 || ended.words.len() != 2_000 {
        return Some("the segments");
    }
    seen.difference(&Outcome {
        summary: all_closed(1_000, 0),
        warned: seen.warned,
        ..made(2_000)
    })
}

#[test]
fn segments_of_two_workers_have_all_records_in_a_row(rt: HostRuntime) {
    assert_eq!(rt; fault_of_many(&rt, rt.alloc(), &rt, RING, 2), None);
}

/// Where the ring is full the records stay in the journal.
#[test]
fn ring_of_one_segment_loses_no_record(rt: HostRuntime) {
    assert_eq!(rt; fault_of_many(&rt, rt.alloc(), &rt, 1, 1), None);
}

/// With one worker a segment has 256 records. The door is not closed before it knows of the one that is lost.
#[test]
fn crew_goes_on_after_a_segment_is_refused(rt: HostRuntime) {
    let clients = [CALLER; 300];
    let play = Play {
        clients: &clients,
        refusals: 1,
        closes_after: Some(Mark::Warned),
        ..UNREACHABLE
    };
    let Some(ended) = run(&rt, rt.alloc(), &rt, &play) else {
        assert!(rt; false, "there is memory");
        return;
    };
    let (words, seen) = (ended.words.len(), ended.seen);
    let wanted = Outcome {
        settled: Err(SettleFault::Missing(1)),
        summary: all_closed(300, 1),
        warned: Some(Backlog {
            refused: 1,
            waiting: 0,
        }),
        ..made(0)
    };
    assert_eq!(rt; seen.difference(&wanted), None);
    assert!(rt; seen.segments == 1 && seen.records == 256 && words == 344);
}
