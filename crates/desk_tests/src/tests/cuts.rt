//! Cuts of a book alone.
use crate::tests::books::{RULE, open_with_ring, pair_from};
use book_core::CutFault;
use conn_model::event::Event;
use record_core::Segment;
use rtrb::Consumer;
use std::alloc::Global;

/// What three cuts come to, how many segments are in the ring then, and the first number and the length of the first.
#[derive(Clone, Copy, Debug, PartialEq, Eq)]
struct Seen {
    cuts: [Result<(), CutFault>; 3],
    left: usize,
    segment: Option<(u64, usize)>,
}

/// The first number and the length of the next segment, taken out of the ring.
fn taken(segments: &mut Consumer<Segment>) -> Option<(u64, usize)> {
    match segments.pop() {
        Ok(segment) => Some((segment.first, segment.records.len())),
        Err(_empty) => None,
    }
}

/// A cut before the first step, one after it, and one after another step, for which the ring has no room.
fn cut_thrice(alloc: Global) -> Option<Seen> {
    let real = pair_from(0xc000_0205, 4000, 9000)?;
    let (mut book, mut segments) = open_with_ring(alloc, RULE, 1)?;
    let new = book.cut();
    let _ = book.step(0, &Event::Accept(0, real));
    let stepped = book.cut();
    let _ = book.step(0, &Event::Accept(0, real));
    let full = book.cut();
    let left = book.left(&mut segments);
    book.end();
    Some(Seen {
        cuts: [new, stepped, full],
        left,
        segment: taken(&mut segments),
    })
}

#[test]
fn cut_needs_a_record_and_room_in_the_ring(rt: HostRuntime) {
    let seen = Seen {
        cuts: [Err(CutFault::Nothing), Ok(()), Err(CutFault::Full)],
        left: 1,
        segment: Some((1, 1)),
    };
    assert_eq!(rt; cut_thrice(rt.alloc()), Some(seen));
}

/// What the cuts come to, and the first number and the length of each segment.
#[derive(Clone, Copy, Debug, PartialEq, Eq)]
struct Read {
    cuts: [Result<(), CutFault>; 4],
    segments: [Option<(u64, usize)>; 2],
}

/// A cut, two for which the ring has no room, each after a step, and one after its segment was taken out of it.
fn cut_and_take(alloc: Global) -> Option<Read> {
    let real = pair_from(0xc000_0205, 4000, 9000)?;
    let (mut book, mut segments) = open_with_ring(alloc, RULE, 1)?;
    let _ = book.step(0, &Event::Accept(0, real));
    let first = book.cut();
    let _ = book.step(0, &Event::Accept(0, real));
    let full = book.cut();
    let _ = book.step(0, &Event::Accept(0, real));
    let still_full = book.cut();
    let front = taken(&mut segments);
    let read = book.cut();
    book.end();
    Some(Read {
        cuts: [first, full, still_full, read],
        segments: [front, taken(&mut segments)],
    })
}

#[test]
fn full_ring_has_room_once_its_segment_is_taken(rt: HostRuntime) {
    let read = Read {
        cuts: [Ok(()), Err(CutFault::Full), Err(CutFault::Full), Ok(())],
        segments: [Some((1, 1)), Some((2, 2))],
    };
    assert_eq!(rt; cut_and_take(rt.alloc()), Some(read));
}
