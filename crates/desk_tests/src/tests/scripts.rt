//! Scripts of calls, which one thread makes at a desk, with what has to come of each.
ghost use Rattle.std.specs.Prelude.{◌≡◌, ◌<◌, ◌-◌, ◌+◌, ◌^◌};
ghost use Rattle.conn_model.specs.Counts.{open_connections};

use crate::tests::books::{Three, filled, open_book, pair_from, room};
use crate::tests::calls::{Call, Word, make};
use addr_core::Pair;
use book_core::Book;
use desk_core::{CALL_PARTS, Desk, Pass, SettleFault, Settled, SharedDesk, settle};
use std::alloc::Global;
use std::marker::Brand;
use std::sync::Wait;
use std::sync::ledger::{Blank, Ledger};

/// Which of three connections a call is for.
#[derive(Clone, Copy, Debug)]
pub enum Place {
    First,
    Second,
    Third,
}

/// A moment, a call, and what has to come of it.
pub type Line = (u64, Place, Call, Word);

/// What came of a script.
#[derive(Clone, Copy, Debug, PartialEq, Eq)]
pub struct Seen {
    /// The first word that is another one than it has to be.
    pub wrong: Option<Word>,
    pub settled: Result<Settled, SettleFault>,
}

/// Makes the calls, and says which word is the first that is wrong.
fn play<M: Ledger, O: Ledger, R: Wait>(
    rt: &R,
    desk: &SharedDesk<M, O>,
    pass: &mut Pass<M>,
    real: &Pair,
    script: &[Line],
) -> (Option<Word>, Three<O>) {
    let (mut one, mut other, mut third) = (None, None, None);
    let mut wrong = None;
    for (moment, place, call, wanted) in script {
        let word = match place {
            Place::First => {
                let (word, lease) = make(rt, desk, pass, *moment, one, call, real);
                one = lease;
                word
            }
            Place::Second => {
                let (word, lease) = make(rt, desk, pass, *moment, other, call, real);
                other = lease;
                word
            }
            Place::Third => {
                let (word, lease) = make(rt, desk, pass, *moment, third, call, real);
                third = lease;
                word
            }
        };
        if wrong.is_none() && word != *wanted {
            wrong = Some(word);
        }
    }
    (wrong, (one, other, third))
}

/// The script is played with one pass, which keeps its receipts if that is wanted.
fn settled<M: Ledger, O: Ledger, R: Wait>(
    rt: &R,
    alloc: Global,
    book: Book,
    made: Blank,
    units: Blank,
    real: &Pair,
    keeps: bool,
    script: &[Line],
) -> Option<Seen>
    requires fresh { (book.made ≡ 0) × (open_connections book.state ≡ 0) × (open_connections book.base ≡ 0) }
    requires made_name { made.name ≡ M.name }
    requires made_parts { (made.parts ≡ M.parts) × (made.parts ≡ CALL_PARTS) }
    requires units_name { units.name ≡ O.name }
    requires units_parts { (units.parts ≡ O.parts) × (units.parts ≡ 2 ^ 64 - 1) }
{
    let Some(lists) = room(alloc) else {
        book.end();
        return None;
    };
    let mut owner = Desk::<M, O>::new(alloc, book, made, units);
    let mut pass = owner.pass(keeps);
    let (wrong, leases) = play(rt, owner.shared(), &mut pass, real, script);
    let mut passes = Vec::new(alloc);
    let _ = passes.push(pass);
    let left = filled(lists, leases);
    let settled = settle(owner.into_book(), passes, left, &[]);
    Some(Seen { wrong, settled })
}

/// What comes of a script over the configuration, where there is memory for it. The receipts are compared with the
/// records if they are kept.
pub fn run<R: Wait>(
    rt: &R,
    alloc: Global,
    text: &str,
    keeps: bool,
    script: &[Line],
) -> Option<Seen> {
    let real = pair_from(0x0a01_0101, 4000, 8080)?;
    let book = open_book(alloc, text)?;
    let (made, units) = (Blank::new(CALL_PARTS), Blank::new(u64::MAX));
    settled::<Brand, Brand, R>(rt, alloc, book, made, units, &real, keeps, script)
}

/// All words were right, and so many records were made, with so many connections left.
pub fn right(made: u64, live: u64) -> Option<Seen> {
    Some(Seen {
        wrong: None,
        settled: Ok(Settled { made, live }),
    })
}
