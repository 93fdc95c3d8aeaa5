//! Where the records of a book go while a crew works: segments from the ring to a sink.
ghost use Rattle.std.specs.Prelude.{◌≡◌, ◌<◌, ◌+◌, ◌++◌, OnErr, OnOk, IfNone, IfSome, length};
ghost use Rattle.rtrb.specs.Ring.{known_items, received, sent, IsPair};
ghost use Rattle.book_core.specs.Book.{with_ring};
ghost use Rattle.crew_core.specs.Outlets.{HasHandedOn};

use crate::meters::Meters;
use desk_core::{ClosedDesk, Opening};
use record_core::Segment;
use rtrb::Consumer;
use std::sync::Wait;
use std::sync::ledger::Ledger;

/// How many segments a ring has room for.
pub const RING: usize = 64;

/// The sink refused a segment.
#[derive(Clone, Copy, Debug, PartialEq, Eq)]
pub struct SinkFault;

/// Where segments go, one after another.
pub trait Sink: Drop {
    ghost use Rattle.record_core.specs.declared.segment.Segment.{Segment};

    ghost takes: { Self → Segment → Self → Type 0 };

    ghost refuses: { Self → Segment → Self → Type 0 };

    /// The next segment. What is refused does not come again.
    fn take(&mut self, segment: Segment) -> Result<(), SinkFault>
        ensures ok { OnOk result (Self.takes self.old segment self.new) }
        ensures err { OnErr result (Self.refuses self.old segment self.new) };
}

/// The reading end of the ring of a book, and the sink that its segments go to.
#[derive(Drop)]
pub struct Outlet<S: Sink> {
    pub segments: Consumer<Segment>,
    pub sink: S,
}

/// The next segment of the ring, if there is one, is counted and goes to the sink. How many the sink refused, with those
/// before.
fn hand_next<S: Sink, R: Wait>(
    rt: &R,
    meters: &Meters,
    outlet: &mut Outlet<S>,
    refused: u64,
) -> Option<u64>
    ensures some { IfSome result (λ total. HasHandedOn S.takes S.refuses refused outlet.old total outlet.new) }
    ensures none { IfNone result (HasHandedOn S.takes S.refuses refused outlet.old refused outlet.new) }
{
    let Ok(segment) = outlet.segments.pop() else {
        return None;
    };
    meters.note_segment(rt, &segment);
    let records = segment.records.len() as u64;
    let answer = outlet.sink.take(segment);
    meters.note_handled(records, answer.is_ok());
    match answer {
        Ok(()) => Some(refused),
        Err(_) => Some(refused.saturating_add(1)),
    }
}

/// The segments of the ring go to the sink, `RING` at the most. How many of them it refused, with those before.
pub(crate) fn drain<S: Sink, R: Wait>(
    rt: &R,
    meters: &Meters,
    outlet: &mut Outlet<S>,
    refused: u64,
) -> u64
    ensures { HasHandedOn S.takes S.refuses refused outlet.old result outlet.new }
{
    let mut total = refused;
    for _segment in 0..RING {
        match hand_next(rt, meters, outlet, total) {
            Some(count) => total = count,
            None => break,
        }
    }
    total
}

/// The next segment of the ring, which is known to be there, goes to the sink. How many the sink refused, with those before.
fn hand_known<S: Sink>(outlet: &mut Outlet<S>, refused: u64) -> u64
    requires { 0 < length (known_items outlet.old.segments) }
    ensures handed { HasHandedOn S.takes S.refuses refused outlet.old result outlet.new }
    ensures rest { received outlet.new.segments ++ known_items outlet.new.segments ≡ received outlet.old.segments ++ known_items outlet.old.segments }
    ensures fewer { length (known_items outlet.new.segments) + 1 ≡ length (known_items outlet.old.segments) }
{
    let segment = outlet.segments.pop_known();
    match outlet.sink.take(segment) {
        Ok(()) => refused,
        Err(_) => refused.saturating_add(1),
    }
}

/// All segments that are in the ring of a book go to the sink. How many of them it refused, with those before.
pub(crate) fn empty<M: Ledger, O: Ledger, B: Opening, S: Sink>(
    shut: &mut ClosedDesk<M, O, B>,
    outlet: &mut Outlet<S>,
    refused: u64,
) -> u64
    requires { IsPair shut.old.book.segments outlet.old.segments }
    ensures handed { HasHandedOn S.takes S.refuses refused outlet.old result outlet.new }
    ensures all { received outlet.new.segments ≡ sent shut.new.book.segments }
    ensures same { (shut.new.book ≡ with_ring shut.old.book shut.new.book.segments) × (shut.new.given ≡ shut.old.given) }
{
    let mut total = refused;
    for _segment in 0..shut.left(&mut outlet.segments) {
        total = hand_known(outlet, total);
    }
    total
}
