//! Leases of one thread, and what is asked meanwhile.
use crate::tests::calls::Call;
use crate::tests::scripts::{Line, Place, right, run};
use addr_core::Addr;
use conn_model::ask::Ask;
use desk_core::Drive;

const TABLE: &str =
    "frontend web\nbind 127.0.0.1:8080 accept-proxy\nstick-table type ip size 2 store conn_cur,conn_cnt\ntcp-request session track-sc0 src\ntcp-request session reject if { sc0_conn_cur gt 1 }\ndefault_backend app\nbackend app\nserver s1 10.0.0.11:443\n";

/// What the table says of 203.0.113.7.
const ENTRY: Call = Call::Ask(Ask::Entry(0, Addr::V4(0xcb00_7107)));

/// The first half of a header.
const HALF: Call = Call::Drive(Drive::Piece(b"PROXY TCP4 203.0.113.7 "));

static SCRIPT: [Line; 10] = [
    (0, Place::First, Call::Accept, ("wait", 0, 0)),
    (0, Place::Second, Call::Accept, ("wait", 0, 0)),
    (1, Place::First, HALF, ("wait", 0, 0)),
    (1, Place::First, ENTRY, ("count", 0, 0)),
    (
        1,
        Place::First,
        Call::Drive(Drive::Piece(b"198.51.100.1 4000 443\r\n")),
        ("offer", 8, 0),
    ),
    (1, Place::First, ENTRY, ("count", 1, 1)),
    (
        2_999,
        Place::Second,
        Call::Drive(Drive::Expire),
        ("not due", 0, 0),
    ),
    (
        3_000,
        Place::Second,
        Call::Drive(Drive::Expire),
        ("refuse", 0, 0),
    ),
    (3_000, Place::First, Call::Close, ("closed", 0, 0)),
    (3_000, Place::First, ENTRY, ("count", 0, 1)),
];

#[test]
fn header_in_two_pieces_and_an_expiry(rt: HostRuntime) {
    assert_eq!(rt; run(&rt, rt.alloc(), TABLE, true, &SCRIPT), right(6, 0));
}
