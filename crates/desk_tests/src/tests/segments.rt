//! Segments that a desk hands over, and what `settle` says of receipts over them.
ghost use Rattle.std.specs.Prelude.{◌≡◌, ◌<◌, ◌-◌, ◌+◌, ◌^◌};
ghost use Rattle.conn_model.specs.Counts.{open_connections};

use crate::tests::books::{RULE, Three, filled, open_with_ring, pair_from, room};
use crate::tests::calls::{accept, close};
use addr_core::Pair;
use book_core::{Book, CutFault};
use conn_model::reply::{Cause, Said};
use desk_core::{
    CALL_PARTS, ClosedDesk, Desk, Lease, Pass, SettleFault, Settled, SharedDesk, settle,
};
use list_core::Seq;
use record_core::Segment;
use rtrb::Consumer;
use std::alloc::Global;
use std::marker::Brand;
use std::sync::Wait;
use std::sync::ledger::{Blank, Ledger};

/// How the two segments are handed in.
#[derive(Clone, Copy, Debug, PartialEq, Eq)]
enum Hands {
    InOrder,
    TurnedRound,
    SecondAlone,
    /// The second record names another line.
    Forged,
}

/// What the cuts come to, the first number and the length of each segment, whether the second follows the first, and
/// what was settled.
#[derive(Clone, Copy, Debug, PartialEq, Eq)]
struct Seen {
    cuts: [Result<(), CutFault>; 4],
    segments: [(u64, usize); 2],
    follows: bool,
    settled: Result<Settled, SettleFault>,
}

type Cuts = [Result<(), CutFault>; 3];

/// The connection of the lease ended, if there is one.
fn end<M: Ledger, O: Ledger, R: Wait>(
    rt: &R,
    desk: &SharedDesk<M, O>,
    pass: &mut Pass<M>,
    moment: u64,
    lease: Option<Lease<O>>,
) -> Option<Lease<O>> {
    match lease {
        Some(lease) => close(rt, desk, pass, moment, lease).1,
        None => None,
    }
}

/// A cut; an accept, one that is rejected, a close and a cut; an accept, and a cut for which the ring has no room.
fn steps<M: Ledger, O: Ledger, R: Wait>(
    rt: &R,
    desk: &SharedDesk<M, O>,
    pass: &mut Pass<M>,
    real: &Pair,
    rejected: &Pair,
) -> (Cuts, Three<O>) {
    let new = desk.cut(rt);
    let (_offered, one) = accept(rt, desk, pass, 0, real);
    let (_refused, none) = accept(rt, desk, pass, 1, rejected);
    let one = end(rt, desk, pass, 2, one);
    let front = desk.cut(rt);
    let (_offered, other) = accept(rt, desk, pass, 3, real);
    let full = desk.cut(rt);
    ([new, front, full], (one, none, other))
}

/// The next segment of the ring, or an empty one where there is none.
fn next(alloc: Global, segments: &mut Consumer<Segment>) -> Segment {
    match segments.pop() {
        Ok(segment) => segment,
        Err(_empty) => Segment {
            first: 0,
            records: Seq::of(Vec::new(alloc)),
        },
    }
}

/// The refusal in the second record names the fourth line.
fn forged(segment: Segment) -> Segment {
    let Segment { first, records } = segment;
    let mut records = records.into_vec();
    if let Some(record) = records.get_mut(1) {
        if let Said::Refuse { cause, .. } = &mut record.reply.said {
            *cause = Cause::Line(4);
        }
    }
    Segment {
        first,
        records: Seq::of(records),
    }
}

/// What is settled where the two segments are handed in so.
fn settled_with<M: Ledger, O: Ledger>(
    shut: ClosedDesk<M, O>,
    passes: Vec<Pass<M>>,
    left: Vec<Vec<Lease<O>>>,
    front: Segment,
    back: Segment,
    hands: Hands,
) -> Result<Settled, SettleFault>
    requires { M.parts ≡ CALL_PARTS }
{
    match hands {
        Hands::InOrder => settle(shut, passes, left, &[front, back]),
        Hands::TurnedRound => settle(shut, passes, left, &[back, front]),
        Hands::SecondAlone => settle(shut, passes, left, &[back]),
        Hands::Forged => settle(shut, passes, left, &[forged(front), back]),
    }
}

/// One cut more when the desk is shut and its ring has room again.
fn seen_of<M: Ledger, O: Ledger>(
    shut: ClosedDesk<M, O>,
    passes: Vec<Pass<M>>,
    left: Vec<Vec<Lease<O>>>,
    segments: Consumer<Segment>,
    cuts: Cuts,
    hands: Hands,
    alloc: Global,
) -> Seen
    requires { M.parts ≡ CALL_PARTS }
{
    let (mut shut, mut segments) = (shut, segments);
    let [new, three, full] = cuts;
    let front = next(alloc, &mut segments);
    let last = shut.cut();
    let back = next(alloc, &mut segments);
    Seen {
        cuts: [new, three, full, last],
        segments: [
            (front.first, front.records.len()),
            (back.first, back.records.len()),
        ],
        follows: back.follows(&front),
        settled: settled_with(shut, passes, left, front, back, hands),
    }
}

/// The steps, and what is seen after them.
fn settled<M: Ledger, O: Ledger, R: Wait>(
    rt: &R,
    alloc: Global,
    opened: (Book, Consumer<Segment>),
    made: Blank,
    units: Blank,
    pairs: (Pair, Pair),
    hands: Hands,
) -> Option<Seen>
    requires fresh { (opened.0.made ≡ 0) × (open_connections opened.0.state ≡ 0) × (open_connections opened.0.base ≡ 0) }
    requires made_name { made.name ≡ M.name }
    requires made_parts { (made.parts ≡ M.parts) × (made.parts ≡ CALL_PARTS) }
    requires units_name { units.name ≡ O.name }
    requires units_parts { (units.parts ≡ O.parts) × (units.parts ≡ 2 ^ 64 - 1) }
{
    let (book, segments) = opened;
    let Some(lists) = room(alloc) else {
        book.end();
        return None;
    };
    let mut owner = Desk::<M, O>::new(alloc, book, made, units);
    let mut pass = owner.pass(true);
    let (cuts, leases) = steps(rt, owner.shared(), &mut pass, &pairs.0, &pairs.1);
    let left = filled(lists, leases);
    let mut passes = Vec::new(alloc);
    let _ = passes.push(pass);
    let shut = owner.into_book();
    Some(seen_of(shut, passes, left, segments, cuts, hands, alloc))
}

fn run<R: Wait>(rt: &R, alloc: Global, hands: Hands) -> Option<Seen> {
    let real = pair_from(0xc000_0205, 4000, 9000)?;
    let rejected = pair_from(0xc633_6409, 4001, 9000)?;
    let opened = open_with_ring(alloc, RULE, 1)?;
    let (made, units) = (Blank::new(CALL_PARTS), Blank::new(u64::MAX));
    settled::<Brand, Brand, R>(rt, alloc, opened, made, units, (real, rejected), hands)
}

/// What is seen where so much is settled.
fn seen_with(settled: Result<Settled, SettleFault>) -> Option<Seen> {
    Some(Seen {
        cuts: [Err(CutFault::Nothing), Ok(()), Err(CutFault::Full), Ok(())],
        segments: [(1, 3), (4, 1)],
        follows: true,
        settled,
    })
}

#[test]
fn receipts_are_found_in_the_segments_of_a_desk(rt: HostRuntime) {
    let all = Ok(Settled { made: 4, live: 1 });
    for (hands, settled) in [
        (Hands::InOrder, all),
        (Hands::TurnedRound, all),
        (Hands::SecondAlone, Err(SettleFault::Missing(1))),
        (Hands::Forged, Err(SettleFault::WrongReceipt(2))),
    ] {
        assert_eq!(rt;
            run(&rt, rt.alloc(), hands),
            seen_with(settled),
            "at {hands:?}"
        );
    }
}
