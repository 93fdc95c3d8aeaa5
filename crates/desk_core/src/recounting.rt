//! The calls of passes that are in hand.
ghost use Rattle.std.specs.Prelude.{◌≡◌, ◌+◌, vec_capacity, vec_len};
ghost use Rattle.desk_core.specs.declared.desk.TheConstants.{CALL_PARTS};
ghost use Rattle.desk_core.specs.Calls.{calls_of};

use crate::desk::ClosedDesk;
use crate::naming::Opening;
use crate::pass::Pass;
use std::sync::ledger;
use std::sync::ledger::{Ledger, Share};

/// Merges the parts of all passes into the pool, and then gives each its part back: in between the pool has all calls.
fn recount<M: Ledger>(made: &mut ledger::Book<M>, pool: &mut Share<M>, passes: &mut Vec<Pass<M>>)
    ensures items { passes.new.items ≡ passes.old.items }
    ensures capacity { vec_capacity passes.new ≡ vec_capacity passes.old }
    ensures total { made.new.total ≡ made.old.total }
    ensures parts { pool.new.parts ≡ pool.old.parts }
    ensures amount { pool.new.amount ≡ pool.old.amount }
    ensures whole { pool.old.parts + vec_len passes.old ≡ M.parts → pool.old.amount + calls_of passes.old.items ≡ made.old.total }
{
    made.audit(pool);
    let Some(pass) = passes.pop() else {
        return;
    };
    let Pass {
        alloc,
        calls,
        keeps,
        kept,
        share,
    } = pass;
    pool.merge(share);
    recount(made, pool, passes);
    let share = pool.split_off(1, calls);
    passes.push_reserved(Pass {
        alloc,
        calls,
        keeps,
        kept,
        share,
    });
}

impl<M: Ledger, O: Ledger, B: Opening> ClosedDesk<M, O, B> {
    /// How many calls were answered. Where all passes are there, it is the sum of theirs. Nothing is spent.
    pub fn count_calls(&mut self, passes: &mut Vec<Pass<M>>) -> u64
        requires { M.parts ≡ CALL_PARTS }
        ensures made { result ≡ self.old.book.made }
        ensures calls { vec_len passes.old ≡ self.old.given → result ≡ calls_of passes.old.items }
        ensures passes { passes.new.items ≡ passes.old.items }
        ensures same { (self.new.book ≡ self.old.book) × (self.new.given ≡ self.old.given) }
    {
        let ClosedDesk {
            book,
            made,
            leases: _,
            idle: _,
            live: _,
            given: _,
            pool,
            of: _,
        } = self;
        recount(made, pool, passes);
        book.made()
    }
}
