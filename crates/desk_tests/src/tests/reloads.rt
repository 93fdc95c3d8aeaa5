//! A reload through a desk, between the halves of two headers.
use crate::tests::calls::Call;
use crate::tests::scripts::{Line, Place, right, run};
use addr_core::Addr;
use conn_model::ask::Ask;
use desk_core::Drive;

const OLD: &str =
    "frontend web\nbind 127.0.0.1:8080 accept-proxy\nmaxconn 3\nstick-table type ip size 2 store conn_cur,conn_cnt\nacl lan src 10.0.0.0/8\ntcp-request connection reject if !lan\ntcp-request session track-sc0 src\ntcp-request session reject if { sc0_conn_cur gt 1 }\ndefault_backend app\nbackend app\nbalance roundrobin\nserver s1 10.0.0.11:443 weight 2 maxconn 1 send-proxy\nserver s2 10.0.0.12:443 send-proxy-v2\n";

/// Its line 8 rejects every connection.
const NEW: Call = Call::Reload(
    "frontend web\nbind 127.0.0.1:8080 accept-proxy\nmaxconn 3\nstick-table type ip size 2 store conn_cur,conn_cnt\nacl lan src 10.0.0.0/8\ntcp-request connection reject if !lan\ntcp-request session track-sc0 src\ntcp-request session reject\ndefault_backend app\nbackend app\nbalance roundrobin\nserver s1 10.0.0.11:443 weight 2 maxconn 1 send-proxy\nserver s2 10.0.0.12:443 send-proxy-v2\n",
);

const OTHER_PORT: Call = Call::Reload(
    "frontend web\nbind 127.0.0.1:8081 accept-proxy\ndefault_backend app\nbackend app\nserver s1 10.0.0.11:443\n",
);

const UNKNOWN_NAME: Call = Call::Reload(
    "frontend web\nbind 127.0.0.1:8080 accept-proxy\nno such word\n",
);

/// The second half of a header.
const REST: Call = Call::Drive(Drive::Piece(b"198.51.100.1 4000 443\r\n"));

static SCRIPT: [Line; 12] = [
    (0, Place::First, Call::Accept, ("wait", 0, 0)),
    (0, Place::Second, Call::Accept, ("wait", 0, 0)),
    (
        1,
        Place::First,
        Call::Drive(Drive::Piece(b"PROXY TCP4 203.0.113.7 ")),
        ("wait", 0, 0),
    ),
    (
        1,
        Place::Second,
        Call::Drive(Drive::Piece(b"PROXY TCP4 203.0.113.8 ")),
        ("wait", 0, 0),
    ),
    (2, Place::First, OTHER_PORT, ("bind changed", 0, 0)),
    (2, Place::First, UNKNOWN_NAME, ("bad config", 0, 0)),
    (2, Place::First, NEW, ("reloaded", 2, 0)),
    (3, Place::First, REST, ("offer", 12, 0)),
    (3, Place::Second, REST, ("offer", 13, 0)),
    (4, Place::Third, Call::Accept, ("wait", 0, 0)),
    (
        4,
        Place::Third,
        Call::Drive(Drive::Piece(b"PROXY TCP4 203.0.113.9 198.51.100.1 4000 443\r\n")),
        ("refuse", 8, 0),
    ),
    (
        4,
        Place::First,
        Call::Ask(Ask::Entry(0, Addr::V4(0xcb00_7107))),
        ("count", 1, 1),
    ),
];

#[test]
fn reload_between_the_halves_of_two_headers(rt: HostRuntime) {
    assert_eq!(rt; run(&rt, rt.alloc(), OLD, true, &SCRIPT), right(9, 2));
}
