//! A desk whose book is named by a type.
ghost use Rattle.std.specs.Prelude.{◌≡◌, ◌-◌, ◌^◌, Some};
ghost use Rattle.conn_model.specs.Counts.{open_connections};
ghost use Rattle.rtrb.specs.Ring.{IsPair};

use crate::tests::books::{RULE, open_with_ring};
use book_core::Book;
use desk_core::{CALL_PARTS, Desk, Opening, settle};
use record_core::Segment;
use rtrb::Consumer;
use std::alloc::Global;
use std::marker::Brand;
use std::sync::ledger::{Blank, Ledger};

/// The book that comes out is over the base of the one that went in, and has its ring.
fn shut_at_once<M: Ledger, O: Ledger, B: Opening>(
    alloc: Global,
    book: Book,
    segments: Consumer<Segment>,
    made: Blank,
    units: Blank,
) -> (u64, usize)
    requires fresh { (book.made ≡ 0) × (open_connections book.state ≡ 0) × (open_connections book.base ≡ 0) }
    requires ring { IsPair book.segments segments }
    requires made_name { made.name ≡ M.name }
    requires made_parts { (made.parts ≡ M.parts) × (made.parts ≡ CALL_PARTS) }
    requires units_name { units.name ≡ O.name }
    requires units_parts { (units.parts ≡ O.parts) × (units.parts ≡ 2 ^ 64 - 1) }
    requires opened { B.opening ≡ Some book }
    ensures { result.0 ≡ book.base.clock }
{
    let mut segments = segments;
    let desk = Desk::<M, O, B>::new(alloc, book, made, units);
    let mut shut = desk.into_book();
    let clock = shut.book().base().clock;
    let left = shut.left(&mut segments);
    let _ = settle(shut, Vec::new(alloc), Vec::new(alloc), &[]);
    (clock, left)
}

/// The moment of its base, which is that of the book that went in, and how many segments are in its ring.
fn clock_and_segments(alloc: Global, book: Book, segments: Consumer<Segment>) -> (u64, usize)
    requires fresh { (book.made ≡ 0) × (open_connections book.state ≡ 0) × (open_connections book.base ≡ 0) }
    requires ring { IsPair book.segments segments }
    ensures { result.0 ≡ book.base.clock }
{
    let (made, units) = (Blank::new(CALL_PARTS), Blank::new(u64::MAX));
    shut_at_once::<Brand, Brand, Brand>(alloc, book, segments, made, units)
}

fn opened_and_shut(alloc: Global) -> Option<(u64, usize)> {
    let (book, segments) = open_with_ring(alloc, RULE, 1)?;
    Some(clock_and_segments(alloc, book, segments))
}

#[test]
fn book_comes_out_with_its_base_and_its_ring(rt: HostRuntime) {
    assert_eq!(rt; opened_and_shut(rt.alloc()), Some((0, 0)));
}
