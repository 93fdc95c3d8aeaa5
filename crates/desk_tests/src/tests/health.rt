//! Reports of a server through a desk, and a connection that is moved.
use crate::tests::calls::Call;
use crate::tests::scripts::{Line, Place, right, run};
use conn_model::event::Health;
use desk_core::Drive;

const TEXT: &str =
    "frontend web\nbind 127.0.0.1:8080\ndefault_backend app\nbackend app\nretries 1\noption redispatch\nserver s1 10.0.0.11:443 check\nserver s2 10.0.0.12:443 check\n";

const FAILED: Call = Call::Drive(Drive::ConnectFailed);

static SCRIPT: [Line; 8] = [
    (0, Place::First, Call::Mark(0, Health::Down), ("down", 7, 0)),
    (
        0,
        Place::First,
        Call::Mark(2, Health::Down),
        ("not checked", 0, 0),
    ),
    (1, Place::First, Call::Accept, ("offer", 8, 0)),
    (2, Place::Second, Call::Accept, ("offer", 8, 0)),
    (3, Place::Second, FAILED, ("closed", 0, 0)),
    (4, Place::First, Call::Mark(0, Health::Up), ("back", 7, 0)),
    (5, Place::First, FAILED, ("offer", 7, 0)),
    (6, Place::First, FAILED, ("closed", 0, 0)),
];

#[test]
fn server_goes_down_and_a_connection_moves(rt: HostRuntime) {
    assert_eq!(rt; run(&rt, rt.alloc(), TEXT, true, &SCRIPT), right(7, 0));
}
