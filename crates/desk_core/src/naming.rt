//! Names for the book of a desk.
ghost use Rattle.std.specs.Prelude.{None, Option};
ghost use Rattle.book_core.specs.Book.{BookState};

use std::marker::Brand;

/// A type that names the book with which a desk was opened, so that contracts can speak of its base and of its ring on
/// both sides of a lock.
pub trait Opening {
    ghost opening: { Option BookState };
}

/// It names no book: nothing is said of the base and of the ring then.
#[derive(Clone, Copy, Debug)]
pub struct AnyOpening;

impl Opening for AnyOpening {
    ghost opening = { None };
}

impl Opening for Brand {
    ghost opening = { None };
}
