//! Links and dials that fail, and a header that does not come.
use crate::tests::link::{Script, Text};
use crate::tests::outcome::{counted, fault_of, made};
use crate::tests::play::{Play, Word};
use crate::tests::stage::Mark;
use crate::tests::workers::{CLIENT, PLAIN, SERVER};

/// The first client sends and waits, and the second begins when the first is gone.
const FIRST: Script = Script {
    ends_after: None,
    expects: Text::Nothing,
    ..CLIENT
};

const SECOND: Script = Script {
    gives_after: Some(Mark::FirstOver),
    drops: Some(Mark::SecondOver),
    ..CLIENT
};

/// The server that is the second in turn.
const OTHER_SERVER: Script = Script {
    expects: Text::OtherRequest,
    ..SERVER
};

const DIAL_FAILS: Play<'static> = Play {
    clients: &[FIRST, SECOND],
    server: OTHER_SERVER,
    fails: 1,
    closes_after: Some(Mark::SecondOver),
    ..PLAIN
};

static ONE_FAILED: [Word; 7] = [
    ("wait", 1),
    ("wait", 2),
    ("offer", 12),
    ("failed", 1),
    ("offer", 13),
    ("up", 2),
    ("done", 2),
];

#[test]
fn dial_that_fails_ends_its_connection_alone(rt: HostRuntime) {
    let wanted = counted(7, 2, 2).with_bytes(true, true);
    let fault = fault_of(&rt, rt.alloc(), &rt, &DIAL_FAILS, &ONE_FAILED, &wanted);
    assert_eq!(rt; fault, None);
}

/// The server takes all bytes, and then fails.
const LINK_FAILS: Play<'static> = Play {
    server: Script {
        gives: Text::Nothing,
        ends_after: Some(Mark::Served),
        fails: true,
        ..SERVER
    },
    ..PLAIN
};

static FAULT: [Word; 4] = [("wait", 1), ("offer", 12), ("up", 1), ("fault", 1)];

#[test]
fn link_that_fails_ends_its_connection(rt: HostRuntime) {
    let wanted = made(4).with_bytes(true, false);
    let fault = fault_of(&rt, rt.alloc(), &rt, &LINK_FAILS, &FAULT, &wanted);
    assert_eq!(rt; fault, None);
}

/// It sends the first word of a header.
const SLOW_CLIENT: Script = Script {
    gives: Text::Word,
    ends_after: Some(Mark::Served),
    ..CLIENT
};

const HEADER_IS_LATE: Play<'static> = Play {
    clients: &[SLOW_CLIENT],
    step: 500,
    ..PLAIN
};

static EXPIRED: [Word; 3] = [("wait", 1), ("wait", 1), ("refuse", 0)];

#[test]
fn header_that_does_not_come_in_time(rt: HostRuntime) {
    let wanted = counted(3, 1, 0).with_bytes(false, false);
    let fault = fault_of(&rt, rt.alloc(), &rt, &HEADER_IS_LATE, &EXPIRED, &wanted);
    assert_eq!(rt; fault, None);
}
