//! The state of a core after some events, and serials that come to an end.
use crate::tests::steps::{close, offer, pair_from};
use addr_core::Pair;
use conn_core::Core;
use conn_model::ask::{Ask, Counts};
use conn_model::event::Event;
use conn_model::plain::{FrontendRows, Phase, Plain, Row};
use conn_model::reply::StepFault;
use std::alloc::Global;

const EXAMPLE: &str =
    "frontend f\nbind 127.0.0.1:9000\nmaxconn 2\ndefault_backend b\nbackend b\nserver s 10.0.0.20:80\n";

/// Whether two connections come, and the first of them ends. Of the moments one is below that before it.
fn come_and_go(core: &mut Core, first: Pair, second: Pair) -> bool {
    let come = offer(core, 7, first) == Some(1) && offer(core, 5, second) == Some(2);
    come && close(core, 9, 1) && core.counts(&Ask::Frontend(0)) == Some(Counts { cur: 1, cnt: 0 })
}

/// The state after these steps, if they go as they should.
fn plain_after_steps(alloc: Global) -> Option<Plain> {
    let (first, second) = (pair_from(4000)?, pair_from(4001)?);
    let mut core = Core::open(alloc, EXAMPLE).ok()?;
    let goes = come_and_go(&mut core, first, second);
    let plain = core.plain();
    core.end();
    if goes { plain.ok() } else { None }
}

/// Whether the row is that of the second connection, which was offered the server. Its moment did not fall.
fn is_second(row: &Row) -> bool {
    match &row.phase {
        Phase::Offered(assignment) => {
            row.serial == 2
                && row.version == 1
                && row.accepted == 7
                && assignment.line == 6
                && assignment.server.backend.as_slice() == b"b".as_slice()
                && assignment.server.name.as_slice() == b"s".as_slice()
        }
        Phase::Waiting(_) | Phase::Up(_) => false,
    }
}

/// Whether the frontend has its name, its last serial and the second connection alone.
fn has_second(own: &FrontendRows) -> bool {
    let is_own = own.name.as_slice() == b"f".as_slice() && own.serial == 2;
    match own.rows.as_slice() {
        [row] => is_own && is_second(row),
        _ => false,
    }
}

/// Whether the state is that of a core with one listener, one version and one frontend with the second connection.
fn is_state(plain: &Plain) -> bool {
    match plain.frontends.as_slice() {
        [own] => {
            plain.clock == 9
                && plain.listeners.len() == 1
                && plain.versions.len() == 1
                && has_second(own)
        }
        _ => false,
    }
}

#[test]
fn state_of_a_core(rt: HostRuntime) {
    let is_right = match plain_after_steps(rt.alloc()) {
        Some(plain) => is_state(&plain),
        None => false,
    };
    assert!(rt; is_right);
}

/// Whether a connection gets the last serial, and the next one is refused since there is none.
fn has_last_serial(alloc: Global) -> Option<bool> {
    let pair = pair_from(4000)?;
    let mut core = Core::open_at(alloc, EXAMPLE, u64::MAX).ok()?;
    let is_last = offer(&mut core, 0, pair) == Some(u64::MAX);
    let next = core.step(0, &Event::Accept(0, pair));
    core.end();
    Some(is_last && matches!(next, Err(StepFault::Exhausted)))
}

#[test]
fn last_serial(rt: HostRuntime) {
    assert_eq!(rt; has_last_serial(rt.alloc()), Some(true));
}
