//! Two workers that share a table, and one that passes bytes on.
use crate::tests::link::{Script, Text};
use crate::tests::outcome::{Outcome, counted, fault_of, made};
use crate::tests::play::{Play, Word};
use crate::tests::stage::Mark;
use crew_core::RING;

/// Two servers behind a PROXY header, and a table by which a source has one connection at a time.
pub const TABLE: &str =
    "frontend web\nbind 127.0.0.1:8080 accept-proxy\nmaxconn 3\nstick-table type ip size 2 store conn_cur,conn_cnt\nacl lan src 10.0.0.0/8\ntcp-request connection reject if !lan\ntcp-request session track-sc0 src\ntcp-request session reject if { sc0_conn_cur gt 1 }\ndefault_backend app\nbackend app\nbalance roundrobin\nserver s1 10.0.0.11:443 weight 2 maxconn 1 send-proxy\nserver s2 10.0.0.12:443 send-proxy-v2\n";

/// A client that sends its header and some bytes, and waits for the answer.
pub const CLIENT: Script = Script {
    gives: Text::Request,
    gives_after: None,
    ends_after: Some(Mark::Answered),
    fails: false,
    expects: Text::Answer,
    comes: Mark::Answered,
    drops: Some(Mark::FirstOver),
};

/// A server that answers when it has all bytes.
pub const SERVER: Script = Script {
    gives: Text::Answer,
    gives_after: Some(Mark::Served),
    ends_after: Some(Mark::Answered),
    fails: false,
    expects: Text::Request,
    comes: Mark::Served,
    drops: None,
};

/// One worker and one client, until its link is dropped.
pub const PLAIN: Play<'static> = Play {
    text: TABLE,
    reload: None,
    clients: &[CLIENT],
    at_dial: &[],
    server: SERVER,
    fails: 0,
    is_late: false,
    closes_after: Some(Mark::FirstOver),
    ring: RING,
    refusals: 0,
    calls: u64::MAX,
    holds: false,
    workers: 1,
    turns: 10_000,
    step: 0,
};

/// The server's answer comes later.
const LATE: Play<'static> = Play {
    is_late: true,
    ..PLAIN
};

static DONE: [Word; 4] = [("wait", 1), ("offer", 12), ("up", 1), ("done", 1)];

#[test]
fn bytes_after_a_header_come_to_the_server_and_its_answer_back(rt: HostRuntime) {
    let wanted = made(4).with_bytes(true, true);
    assert_eq!(rt; fault_of(&rt, rt.alloc(), &rt, &LATE, &DONE, &wanted), None);
}

/// The client waits at the dial of the only worker.
const AT_DIAL: Play<'static> = Play {
    clients: &[],
    at_dial: &[CLIENT],
    ..PLAIN
};

#[test]
fn worker_takes_a_client_from_its_dial(rt: HostRuntime) {
    let wanted = counted(4, 1, 1).with_bytes(true, true);
    let fault = fault_of(&rt, rt.alloc(), &rt, &AT_DIAL, &DONE, &wanted);
    assert_eq!(rt; fault, None);
}

/// The first client and its server stay until the second client is gone, which begins when the server has all bytes.
const FIRST: Script = Script {
    ends_after: Some(Mark::SecondOver),
    ..CLIENT
};

const SECOND: Script = Script {
    gives: Text::Header,
    gives_after: Some(Mark::Served),
    ends_after: None,
    drops: Some(Mark::SecondOver),
    ..CLIENT
};

const STAYING_SERVER: Script = Script {
    ends_after: Some(Mark::SecondOver),
    ..SERVER
};

const TWO: Play<'static> = Play {
    clients: &[FIRST, SECOND],
    server: STAYING_SERVER,
    holds: true,
    workers: 2,
    ..PLAIN
};

static ONE_REFUSED: [Word; 6] = [
    ("wait", 1),
    ("wait", 2),
    ("offer", 12),
    ("up", 2),
    ("refuse", 8),
    ("done", 2),
];

#[test]
fn second_worker_sees_the_first_ones_connection(rt: HostRuntime) {
    let wanted = Outcome {
        calls: Some(6),
        ..counted(6, 2, 1)
    };
    let fault = fault_of(&rt, rt.alloc(), &rt, &TWO, &ONE_REFUSED, &wanted);
    assert_eq!(rt; fault, None);
}
