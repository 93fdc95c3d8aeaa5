//! Callers of a book, and of a desk that threads share.
ghost use Rattle.std.specs.Prelude.{◌≡◌, OnErr};
ghost use Rattle.conn_model.specs.HandedIn.{HasPieceInLimit};
ghost use Rattle.conn_model.specs.History.{owned_event};
ghost use Rattle.book_core.specs.Book.{IsBook};

use addr_core::Pair;
use book_core::{Book, Receipt};
use conn_model::event::{Event, Why};
use conn_model::reply::StepFault;
use desk_core::{Lease, Opening, Pass, SharedDesk};
use std::sync::Wait;
use std::sync::ledger::Ledger;

/// Answers an event, and hands the records in memory over as a segment. If the event has a fault, or there is no memory
/// for its record, nothing is changed. If the ring has no room, the records stay until the next cut.
pub fn step_and_cut(book: &mut Book, moment: u64, event: &Event) -> Result<Receipt, StepFault>
    requires { HasPieceInLimit (owned_event event.now) }
    ensures legal { IsBook book.new }
    ensures err { OnErr result (book.new ≡ book.old) }
{
    let receipt = book.step(moment, event)?;
    let _is_full = book.cut();
    Ok(receipt)
}

/// Takes a connection of the first listener, and ends it if it is open. Its lease is what has to be handed in to end it,
/// and nobody can drop one: without memory for the record of the end it comes back, to be tried again. A fault of the
/// accept leaves nothing open.
pub fn take_and_end<M: Ledger, O: Ledger, B: Opening, R: Wait>(
    rt: &R,
    desk: &SharedDesk<M, O, B>,
    pass: &mut Pass<M>,
    moment: u64,
    real: &Pair,
) -> Result<(Receipt, Option<Lease<O>>), StepFault>
    ensures { OnErr result (pass.new ≡ pass.old) }
{
    let (receipt, lease) = desk.accept(rt, pass, moment, 0, real)?;
    let Some(lease) = lease else {
        return Ok((receipt, None));
    };
    match desk.close(rt, pass, moment, lease, Why::Done) {
        Ok(_closed) => Ok((receipt, None)),
        Err((_fault, lease)) => Ok((receipt, Some(lease))),
    }
}
