//! Servers that take connections or are out of reach, and the counts that are asked for meanwhile.
use crate::tests::calls::{Call, Word};
use crate::tests::scripts::{Line, Place, right, run};
use conn_model::ask::Ask;
use desk_core::Drive;

const SERVER: &str =
    "frontend f\nbind 127.0.0.1:8080\ndefault_backend b\nbackend b\nserver s 10.0.0.20:80\n";

const CONNECTED: Call = Call::Drive(Drive::Connected);

const FRONTEND: Call = Call::Ask(Ask::Frontend(0));

const BACKEND: Call = Call::Ask(Ask::Backend(0));

const ITS_SERVER: Call = Call::Ask(Ask::Server(0, 0));

const OFFERED: Word = ("offer", 5, 0);

static SCRIPT: [Line; 16] = [
    (0, Place::First, Call::Accept, OFFERED),
    (0, Place::Second, Call::Accept, OFFERED),
    (1, Place::First, CONNECTED, ("up", 0, 0)),
    (1, Place::First, CONNECTED, ("not offered", 0, 0)),
    (1, Place::First, FRONTEND, ("count", 2, 0)),
    (1, Place::First, BACKEND, ("count", 2, 0)),
    (1, Place::First, ITS_SERVER, ("count", 2, 0)),
    (
        2,
        Place::Second,
        Call::Drive(Drive::ConnectFailed),
        ("closed", 0, 0),
    ),
    (2, Place::First, FRONTEND, ("count", 1, 0)),
    (2, Place::First, BACKEND, ("count", 1, 0)),
    (2, Place::First, ITS_SERVER, ("count", 1, 0)),
    (3, Place::First, Call::Close, ("closed", 0, 0)),
    (3, Place::First, FRONTEND, ("count", 0, 0)),
    (3, Place::First, BACKEND, ("count", 0, 0)),
    (3, Place::First, ITS_SERVER, ("count", 0, 0)),
    (
        3,
        Place::First,
        Call::Ask(Ask::Server(0, 1)),
        ("no count", 0, 0),
    ),
];

#[test]
fn server_takes_one_and_is_out_of_reach(rt: HostRuntime) {
    assert_eq!(rt; run(&rt, rt.alloc(), SERVER, false, &SCRIPT), right(5, 0));
}
