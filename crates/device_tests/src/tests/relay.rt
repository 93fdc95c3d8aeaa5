//! A flow and a relay between devices.
use crate::tests::pair::{ALL, Devices, NONE, Plan, make_devices};
use device_core::Calls;
use relay_core::{Drained, Filled, Flow, FlowFault, Relay, Way, run_carries};
use std::alloc::{AllocError, Global};

/// How bytes are carried: what the flow holds at most, how many are read and written at once at most, and whether by bursts.
type Course = (usize, usize, usize, bool);

static COURSES: [Course; 7] = [
    (7, 1, ALL, false),
    (7, 3, 1, false),
    (7, ALL, 3, false),
    (7, 1, 1, false),
    (1, ALL, ALL, false),
    (1, ALL, 1, true),
    (7, 1, ALL, true),
];

/// One pass or one burst.
fn carry_on(flow: &mut Flow, ends: &mut Devices, by_bursts: bool) -> Result<(), FlowFault> {
    let mut piece = [0u8; 5];
    let (input, output) = (&mut ends.input, &mut ends.output);
    if by_bursts {
        match flow.burst(input, output, &mut piece, 3) {
            Ok(_) => Ok(()),
            Err(fault) => Err(fault),
        }
    } else {
        match flow.pass(input, output, &mut piece) {
            Ok(_) => Ok(()),
            Err(fault) => Err(fault),
        }
    }
}

/// Goes on until the flow is done, and says how many reads and how many writes failed.
fn carry(flow: &mut Flow, ends: &mut Devices, by_bursts: bool) -> Option<(u32, u32)> {
    let (mut reads, mut writes) = (0u32, 0u32);
    for _ in 0..1000 {
        if flow.is_done() {
            return Some((reads, writes));
        }
        match carry_on(flow, ends, by_bursts) {
            Ok(()) => {}
            Err(FlowFault::Read) => reads = reads.saturating_add(1),
            Err(FlowFault::Write) => writes = writes.saturating_add(1),
        }
    }
    None
}

/// The same of twelve bytes, if none of them is lost.
fn carry_all(flow: &mut Flow, ends: &mut Devices, by_bursts: bool) -> Option<(u32, u32)> {
    let faults = carry(flow, ends, by_bursts);
    if ends.output.as_slice() == b"abcdefghijkl".as_slice() {
        faults
    } else {
        None
    }
}

/// The same over devices and a flow that are made.
fn carried(
    alloc: Global,
    course: &Course,
    blocked: &[Calls],
    failing: &[Calls],
) -> Result<Option<(u32, u32)>, AllocError> {
    let (capacity, reads, writes, by_bursts) = *course;
    let plan = Plan {
        reads: reads.max(1),
        writes: writes.max(1),
        blocked,
        failing,
    };
    let mut ends = make_devices(alloc, b"abcdefghijkl", 12, &plan)?;
    let mut flow = Flow::new(alloc, capacity)?;
    Ok(carry_all(&mut flow, &mut ends, by_bursts))
}

/// Whether all is carried while the calls of that number are blocked, and while they fail. Each device is called three
/// times at least, so a write fails where the number is below 3.
fn is_carried(alloc: Global, course: &Course, at: u64) -> Result<bool, AllocError> {
    let here = [Calls {
        from: at,
        to: at.saturating_add(1),
    }];
    let is_whole = carried(alloc, course, &here, &NONE)? == Some((0, 0));
    match carried(alloc, course, &NONE, &here)? {
        Some((reads, writes)) => {
            Ok(is_whole && reads <= 1 && writes <= 1 && (at > 2 || writes == 1))
        }
        None => Ok(false),
    }
}

/// The first of the courses in which not all is carried.
fn wrong_course(alloc: Global, courses: &[Course], at: u64) -> Result<Option<Course>, AllocError> {
    for course in courses {
        if !is_carried(alloc, course, at)? {
            return Ok(Some(*course));
        }
    }
    Ok(None)
}

#[test]
fn short_blocked_and_failing_calls_lose_nothing(rt: HostRuntime) {
    run_carries();
    for at in 0..27 {
        assert_eq!(rt; wrong_course(rt.alloc(), &COURSES, at), Ok(None), "at {at}");
    }
}

type Round = (Result<Filled, FlowFault>, Result<Drained, FlowFault>);

/// What is held goes round the ring of eight bytes.
static ROUNDS: [Round; 6] = [
    (Ok(Filled::Bytes(8)), Ok(Drained::Bytes(3))),
    (Ok(Filled::Bytes(2)), Ok(Drained::Bytes(3))),
    (Ok(Filled::End), Ok(Drained::Bytes(2))),
    (Ok(Filled::End), Err(FlowFault::Write)),
    (Ok(Filled::End), Ok(Drained::Bytes(2))),
    (Ok(Filled::End), Ok(Drained::Empty)),
];

/// How many rounds of a fill and a drain are as they should be, and whether all bytes were written then.
fn go_round(flow: &mut Flow, ends: &mut Devices, rounds: &[Round]) -> (usize, bool) {
    let mut piece = [b'?'; 16];
    let mut right = 0usize;
    for (filled, drained) in rounds {
        let is_filled = flow.fill(&mut ends.input, &mut piece) == *filled;
        if flow.drain(&mut ends.output) == *drained && is_filled {
            right = right.saturating_add(1);
        }
    }
    let is_all = ends.output.as_slice() == b"abcdefghij".as_slice() && flow.is_done();
    (right, is_all)
}

/// The same over devices and a flow that are made.
fn make_and_go_round(alloc: Global, rounds: &[Round]) -> Result<(usize, bool), AllocError> {
    let plan = Plan {
        reads: ALL,
        writes: 3,
        blocked: &NONE,
        failing: &[Calls { from: 3, to: 4 }],
    };
    let mut ends = make_devices(alloc, b"abcdefghij", 10, &plan)?;
    let mut flow = Flow::new(alloc, 8)?;
    Ok(go_round(&mut flow, &mut ends, rounds))
}

#[test]
fn eight_bytes_of_ten(rt: HostRuntime) {
    assert_eq!(rt; make_and_go_round(rt.alloc(), &ROUNDS), Ok((6, true)));
}

/// Devices that are short, and blocked for a while.
fn slow_devices(alloc: Global, text: &[u8], room: usize) -> Result<Devices, AllocError> {
    let plan = Plan {
        reads: 3,
        writes: 30,
        blocked: &[Calls { from: 1, to: 3 }],
        failing: &NONE,
    };
    make_devices(alloc, text, room, &plan)
}

/// Twelve passes of a direction, of which none fails, and which end it.
fn pass_all(relay: &mut Relay, way: Way, ends: &mut Devices) -> bool {
    let mut piece = [0u8; 8];
    let mut is_right = true;
    for _ in 0..12 {
        let passed = relay.pass(way, &mut ends.input, &mut ends.output, &mut piece);
        is_right = is_right && passed.is_ok();
    }
    is_right && relay.is_done(way)
}

/// Whether both ways of a relay are passed whole, the bytes that it begins with first.
fn pass_both(relay: &mut Relay, forth: &mut Devices, back: &mut Devices) -> bool {
    let goes_forth = pass_all(relay, Way::Forth, forth) && !relay.is_done(Way::Back);
    let goes_back = pass_all(relay, Way::Back, back);
    let request = b"PROXY TCP4 192.0.2.1 192.0.2.2 1 2\r\nGET / HTTP/1.0\r\n\r\n".as_slice();
    let is_request = forth.output.as_slice() == request;
    let is_answer = back.output.as_slice() == b"HTTP/1.0 200 OK".as_slice();
    goes_forth && goes_back && is_request && is_answer
}

/// The same over devices and a relay that are made.
fn make_and_pass_both(alloc: Global) -> Result<bool, AllocError> {
    let send = b"PROXY TCP4 192.0.2.1 192.0.2.2 1 2\r\n";
    let mut relay = Relay::new(alloc, 64, send, b"GET / ")?;
    let mut forth = slow_devices(alloc, b"HTTP/1.0\r\n\r\n", 54)?;
    let mut back = slow_devices(alloc, b"HTTP/1.0 200 OK", 15)?;
    Ok(pass_both(&mut relay, &mut forth, &mut back))
}

#[test]
fn both_ways_of_a_relay(rt: HostRuntime) {
    assert_eq!(rt; make_and_pass_both(rt.alloc()), Ok(true));
}

#[test]
fn no_memory_is_an_answer(rt: HostRuntime) {
    assert!(rt; Flow::new(rt.alloc(), ALL).is_err());
    assert!(rt; Relay::new(rt.alloc(), ALL, b"a", b"b").is_err());
}
