//! Configurations that come through the door.
use crate::tests::outcome::{Outcome, fault_of, made};
use crate::tests::play::{Play, Word};
use crate::tests::workers::PLAIN;

/// Its line 8 rejects every connection.
const CLOSED: Play<'static> = Play {
    reload: Some(
        "frontend web\nbind 127.0.0.1:8080 accept-proxy\nmaxconn 3\nstick-table type ip size 2 store conn_cur,conn_cnt\nacl lan src 10.0.0.0/8\ntcp-request connection reject if !lan\ntcp-request session track-sc0 src\ntcp-request session reject\ndefault_backend app\nbackend app\nbalance roundrobin\nserver s1 10.0.0.11:443 weight 2 maxconn 1 send-proxy\nserver s2 10.0.0.12:443 send-proxy-v2\n",
    ),
    ..PLAIN
};

static REJECTED: [Word; 3] = [("reloaded", 2), ("wait", 1), ("refuse", 8)];

#[test]
fn reload_judges_what_comes_after_it(rt: HostRuntime) {
    let wanted = Outcome {
        reloads: (1, 0),
        calls: Some(3),
        ..made(3)
    };
    let fault = fault_of(&rt, rt.alloc(), &rt, &CLOSED, &REJECTED, &wanted);
    assert_eq!(rt; fault, None);
}

const OTHER_PORT: Play<'static> = Play {
    reload: Some(
        "frontend web\nbind 127.0.0.1:8081 accept-proxy\ndefault_backend app\nbackend app\nserver s1 10.0.0.11:443\n",
    ),
    ..PLAIN
};

static DONE: [Word; 4] = [("wait", 1), ("offer", 12), ("up", 1), ("done", 1)];

#[test]
fn reload_that_is_refused_changes_nothing(rt: HostRuntime) {
    let wanted = Outcome {
        reloads: (0, 1),
        ..made(4)
    };
    let fault = fault_of(&rt, rt.alloc(), &rt, &OTHER_PORT, &DONE, &wanted);
    assert_eq!(rt; fault, None);
}
