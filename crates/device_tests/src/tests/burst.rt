//! Bursts of a flow and of a relay.
ghost use Rattle.std.specs.Prelude.{◌<◌, ◌≤◌};

use crate::tests::pair::{ALL, Devices, NONE, Plan, make_devices};
use device_core::Calls;
use relay_core::{Burst, BurstStop, Drained, Flow, FlowFault, Relay, Way};
use std::alloc::{AllocError, Global};

/// A burst as it is compared: how many bytes were read, why no more were or which side failed, and how many were written,
/// if the writer was not blocked.
type Word = (usize, &'static str, Option<usize>);

fn word_of(answer: Result<Burst, FlowFault>) -> Word {
    match answer {
        Ok(burst) => (burst.read, stop_word(burst.stop), count_of(burst.drained)),
        Err(FlowFault::Read) => (0, "read failed", None),
        Err(FlowFault::Write) => (0, "write failed", None),
    }
}

fn stop_word(stop: BurstStop) -> &'static str {
    match stop {
        BurstStop::Full => "full",
        BurstStop::Short => "short",
        BurstStop::Blocked => "blocked",
        BurstStop::End => "end",
        BurstStop::NoRoom => "no room",
    }
}

fn count_of(drained: Drained) -> Option<usize> {
    match drained {
        Drained::Bytes(count) => Some(count),
        Drained::Empty => Some(0),
        Drained::Blocked => None,
    }
}

/// How bursts go over ten bytes: what the flow holds at most, how many bytes the piece has, how many are read and written
/// at once at most, and which calls are blocked or fail.
#[derive(Drop)]
struct Case<'a> {
    capacity: usize,
    piece: usize,
    most: usize,
    writes: usize,
    blocked: &'a [Calls],
    failing: &'a [Calls],
    ghost some_are_read: { 0 < most },
    ghost some_are_written: { 0 < writes },
    ghost fits: { most ≤ piece },
    ghost has_room: { piece ≤ 16 },
}

/// One burst, and then how many bytes were written and how much room there is.
fn burst(flow: &mut Flow, ends: &mut Devices, case: &Case<'_>) -> (Word, usize, usize) {
    let mut piece = [0u8; 16];
    let answer = flow.burst(
        &mut ends.input,
        &mut ends.output,
        &mut piece[..case.piece],
        case.most,
    );
    (word_of(answer), ends.output.as_slice().len(), flow.room())
}

/// How many of the bursts in turn are as they should be, whether their bytes are the first of the text, and whether the
/// flow is done.
fn follow(
    flow: &mut Flow,
    ends: &mut Devices,
    case: &Case<'_>,
    wanted: &[(Word, usize, usize)],
) -> (usize, bool, bool) {
    let mut right = 0usize;
    for step in wanted {
        if burst(flow, ends, case) == *step {
            right = right.saturating_add(1);
        }
    }
    let is_front = b"abcdefghij".starts_with(ends.output.as_slice());
    (right, is_front, flow.is_done())
}

/// The same over devices and a flow that are made.
fn make_and_follow(
    alloc: Global,
    case: &Case<'_>,
    wanted: &[(Word, usize, usize)],
) -> Result<(usize, bool, bool), AllocError> {
    let plan = Plan {
        reads: ALL,
        writes: case.writes,
        blocked: case.blocked,
        failing: case.failing,
    };
    let mut ends = make_devices(alloc, b"abcdefghij", 10, &plan)?;
    let mut flow = Flow::new(alloc, case.capacity)?;
    Ok(follow(&mut flow, &mut ends, case, wanted))
}

/// What the flow holds at most, how many bytes the piece has, and how many are read and written at once at most.
type Sizes = (usize, usize, usize, usize);

/// What it shows, the sizes, which calls are blocked and which fail, what comes of the bursts in turn, and whether the flow is
/// done then.
type Row = (
    &'static str,
    Sizes,
    &'static [Calls],
    &'static [Calls],
    &'static [(Word, usize, usize)],
    bool,
);

static ROWS: [Row; 4] = [
    (
        "three full reads and a short one are one write",
        (32, 16, 3, ALL),
        &[],
        &[],
        &[((10, "short", Some(10)), 10, 32)],
        false,
    ),
    // The piece is used up after two reads in full and one of a single byte.
    (
        "what the writer does not take goes first",
        (32, 7, 3, 4),
        &[],
        &[],
        &[
            ((7, "full", Some(4)), 4, 29),
            ((3, "full", Some(4)), 8, 30),
            ((0, "end", Some(2)), 10, 32),
            ((0, "end", Some(0)), 10, 32),
        ],
        true,
    ),
    (
        "bytes before a failed read are held",
        (32, 16, 4, ALL),
        &[],
        &[Calls { from: 1, to: 2 }],
        &[
            ((0, "read failed", None), 0, 28),
            ((4, "full", Some(8)), 8, 32),
            ((0, "write failed", None), 8, 30),
            ((0, "end", Some(2)), 10, 32),
        ],
        true,
    ),
    (
        "a burst ends where the reader gives no more",
        (9, 16, 4, ALL),
        &[Calls { from: 2, to: 3 }],
        &[],
        &[
            ((8, "blocked", Some(8)), 8, 9),
            ((2, "short", Some(2)), 10, 9),
            ((0, "end", Some(0)), 10, 9),
        ],
        true,
    ),
];

#[test]
fn bursts_move_all_in_turn(rt: HostRuntime) {
    for (name, sizes, blocked, failing, wanted, is_done) in &ROWS {
        let (capacity, piece, most, writes) = *sizes;
        assert!(rt;
            0 < most && 0 < writes && most <= piece && piece <= 16,
            "{name}"
        );
        let case = Case {
            capacity,
            piece,
            most,
            writes,
            blocked,
            failing,
        };
        let followed = make_and_follow(rt.alloc(), &case, wanted);
        assert_eq!(rt; followed, Ok((wanted.len(), true, *is_done)), "{name}");
    }
}

/// Ten bytes that come and go as they like.
fn plain_ends(alloc: Global) -> Result<Devices, AllocError> {
    let plan = Plan {
        reads: ALL,
        writes: ALL,
        blocked: &NONE,
        failing: &NONE,
    };
    make_devices(alloc, b"abcdefghij", 10, &plan)
}

fn burst_back(relay: &mut Relay, ends: &mut Devices) -> Word {
    let mut piece = [0u8; 16];
    word_of(relay.burst(Way::Back, &mut ends.input, &mut ends.output, &mut piece, 16))
}

fn burst_forth(relay: &mut Relay, ends: &mut Devices) -> Word {
    let mut piece = [0u8; 16];
    word_of(relay.burst(Way::Forth, &mut ends.input, &mut ends.output, &mut piece, 4))
}

/// Two bursts back, which end that way, and one forth after the relay has begun again; and whether it held what it should.
fn begin_again(relay: &mut Relay, back: &mut Devices, forth: &mut Devices) -> ([Word; 3], bool) {
    let first = burst_back(relay, back);
    let second = burst_back(relay, back);
    let has_ended = relay.is_done(Way::Back) && !relay.is_idle();
    relay.reset(b"", b"");
    let is_new = !relay.is_done(Way::Back) && relay.is_idle();
    let third = burst_forth(relay, forth);
    let is_all = forth.output.as_slice() == b"abcdefghij".as_slice();
    ([first, second, third], has_ended && is_new && is_all)
}

/// The same over devices and a relay that are made.
fn make_and_begin_again(alloc: Global) -> Result<([Word; 3], bool), AllocError> {
    let mut relay = Relay::new(alloc, 16, b"first", b"")?;
    let mut back = plain_ends(alloc)?;
    let mut forth = plain_ends(alloc)?;
    Ok(begin_again(&mut relay, &mut back, &mut forth))
}

#[test]
fn a_relay_begins_again_after_an_end(rt: HostRuntime) {
    let (all, end) = ((10, "short", Some(10)), (0, "end", Some(0)));
    assert_eq!(rt;
        make_and_begin_again(rt.alloc()),
        Ok(([all, end, all], true))
    );
}
