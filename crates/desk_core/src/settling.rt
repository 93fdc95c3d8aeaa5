//! Whether passes and leases account for the book of a desk.
ghost use Rattle.std.specs.Prelude.{◌≡◌, ◌≤◌, ◌+◌, ◌^◌, ◌↔◌, IfOk, IfErr, IsTrue, MatchOption, OnOk, ℕ, sum_by, vec_len};
ghost use Rattle.conn_model.specs.Counts.{open_connections};
ghost use Rattle.book_core.specs.Open.{IsNothingCounted};
ghost use Rattle.desk_core.specs.declared.desk.TheConstants.{CALL_PARTS};
ghost use Rattle.desk_core.specs.Calls.{calls_of, kept_of, AllKeep, AreWhole};
ghost use Rattle.desk_core.specs.Receipts.{AreReceipts, IsFirstFault, IsReceiptOfOneCall};
ghost use Rattle.desk_core.specs.Settling.{book_record, AreAll, HaveAllRecords, IsSettleFault};

use crate::desk::ClosedDesk;
use crate::lease::Lease;
use crate::naming::Opening;
use crate::pass::Pass;
use crate::receipts::{SettleFault, check_receipts};
use crate::records::Records;
use book_core::Book;
use book_core::laws::nothing_is_counted;
use record_core::Segment;
use std::sync::ledger::{Ledger, Share};

/// What passes and leases account for.
#[derive(Clone, Copy, Debug, PartialEq, Eq)]
pub struct Settled {
    /// How many records were made.
    pub made: u64,
    /// How many connections are open.
    pub live: u64,
}

/// Spends the leases, and counts them.
fn spend<O: Ledger>(mut leases: Vec<Lease<O>>) -> u64
    ensures { result ≡ vec_len leases }
{
    let count = leases.len() as u64;
    while let Some(lease) = leases.pop() {
        let _unit = lease.into_unit();
    }
    leases.destroy_empty();
    count
}

/// Spends the leases of all lists, and counts them as far as a number goes.
fn spend_all<O: Ledger>(mut left: Vec<Vec<Lease<O>>>) -> Option<u64>
    ensures { MatchOption result (2 ^ 64 ≤ sum_by (λ leases. vec_len leases) left.items) (λ n. n ≡ sum_by (λ leases. vec_len leases) left.items) }
{
    let mut count = Some(0u64);
    while let Some(leases) = left.pop() {
        let more = spend(leases);
        count = match count {
            Some(n) => n.checked_add(more),
            None => None,
        };
    }
    left.destroy_empty();
    count
}

/// Spends the leases of all lists, and says whether they are that many.
fn are_as_many<O: Ledger>(left: Vec<Vec<Lease<O>>>, live: u64) -> bool
    ensures { IsTrue result ↔ (sum_by (λ leases. vec_len leases) left.items ≡ live) }
{
    match spend_all(left) {
        Some(count) => count == live,
        None => false,
    }
}

/// Gives the parts of the passes back to the pool, with their calls.
fn gather<M: Ledger>(pool: &mut Share<M>, mut passes: Vec<Pass<M>>)
    ensures parts { pool.new.parts ≡ pool.old.parts + vec_len passes }
    ensures amount { pool.new.amount ≡ pool.old.amount + calls_of passes.items }
    ensures whole { AreWhole passes.items }
{
    while let Some(pass) = passes.pop() {
        pool.merge(pass.into_share());
    }
}

/// Whether the receipts that the passes keep are records of the book, of which these segments were handed on.
fn check_book<M: Ledger>(
    book: &Book,
    segments: &[Segment],
    passes: &[Pass<M>],
) -> Result<(), SettleFault>
    ensures ok { OnOk result (AreReceipts (book_record segments.now book.now) (kept_of passes.now)) }
    ensures bad { IfErr result (IsFirstFault (book_record segments.now book.now) (kept_of passes.now)) }
{
    let journal = book.journal();
    let before = book.made() - journal.len() as u64;
    let records = Records::new(segments, before, journal);
    check_receipts(&records, passes)
}

/// Whether the passes and the leases of a desk account for its book, of which these segments were handed on. It spends
/// them, and ends the book.
pub fn settle<M: Ledger, O: Ledger, B: Opening>(
    shut: ClosedDesk<M, O, B>,
    passes: Vec<Pass<M>>,
    left: Vec<Vec<Lease<O>>>,
    segments: &[Segment],
) -> Result<Settled, SettleFault>
    requires { M.parts ≡ CALL_PARTS }
    // All passes are there, and their calls are the records.
    ensures passes { OnOk result (vec_len passes ≡ shut.given) }
    ensures made { IfOk result (λ s. (s.made ≡ calls_of passes.items) × (s.made ≡ shut.book.made)) }
    // The leases are the open connections.
    ensures live { IfOk result (λ s. (s.live ≡ sum_by (λ leases. vec_len leases) left.items) × (s.live ≡ open_connections shut.book.state)) }
    // With no lease left nothing is counted, whatever is asked for.
    ensures nothing { IfOk result (λ s. s.live ≡ 0 → IsNothingCounted shut.book.state) }
    // Each receipt that is kept is the record of its number, and that of no other call.
    ensures receipts { OnOk result (AreReceipts (book_record segments.now shut.book) (kept_of passes.items)) }
    // Where all passes keep their records, and the segments and the journal have all records, each record is the receipt of
    // exactly one call.
    ensures once { OnOk result (AllKeep passes.items → HaveAllRecords segments.now shut.book → (n : ℕ) → 1 ≤ n → n ≤ shut.book.made
        → IsReceiptOfOneCall (book_record segments.now shut.book) (kept_of passes.items) n) }
    // Else it is the first fault.
    ensures fault { IfErr result (IsSettleFault (AreAll (vec_len passes) shut.given (sum_by (λ leases. vec_len leases) left.items) (open_connections shut.book.state)) (book_record segments.now shut.book) (kept_of passes.items)) }
{
    nothing_is_counted();
    let ClosedDesk {
        book,
        mut made,
        leases: _,
        idle: _,
        live,
        given,
        mut pool,
        of: _,
    } = shut;
    let all_passes = passes.len() as u64 == given;
    let all_leases = are_as_many(left, live);
    let verdict = if all_passes && all_leases {
        check_book(&book, segments, passes.as_slice())
    } else {
        Err(SettleFault::NotAll)
    };
    let count = book.made();
    gather(&mut pool, passes);
    made.audit(&mut pool);
    book.end();
    match verdict {
        Ok(()) => Ok(Settled { made: count, live }),
        Err(fault) => Err(fault),
    }
}
