//! Calls of a desk on what may be a lease, and what came of them as words.
ghost use Rattle.std.specs.Prelude.{IsTrue};
ghost use Rattle.conn_model.specs.declared.event.ConnId.{ConnId};
ghost use Rattle.conn_model.specs.HandedIn.{HasPieceInLimit};
ghost use Rattle.desk_core.specs.Driving.{driven_event};

use addr_core::Pair;
use book_core::Receipt;
use conn_model::ask::{Ask, Counts};
use conn_model::event::{Health, PIECE_LIMIT, Why};
use conn_model::reply::{Cause, Said, StepFault};
use desk_core::{Drive, DriveResult, Lease, Pass, SharedDesk};
use std::sync::Wait;
use std::sync::ledger::Ledger;

/// What came of a call: a word, and two numbers. They are the line of the server that is offered or of the rule that
/// rejects or that is reported, the version of a reload, or how many connections are open and how often they were tracked; and else 0.
pub type Word = (&'static str, u64, u64);

/// A call.
#[derive(Clone, Copy, Debug)]
pub enum Call {
    /// A connection comes to the first listener.
    Accept,
    Drive(Drive<'static>),
    Close,
    Reload(&'static str),
    /// A server of the first backend is reported.
    Mark(u16, Health),
    Ask(Ask),
}

fn word_of(said: &Said) -> Word {
    match *said {
        Said::Wait { .. } => ("wait", 0, 0),
        Said::Offer { line, .. } => ("offer", u64::from(line), 0),
        Said::Refuse {
            cause: Cause::Line(line),
            ..
        } => ("refuse", u64::from(line), 0),
        Said::Refuse { .. } => ("refuse", 0, 0),
        Said::Up { .. } => ("up", 0, 0),
        Said::Closed { .. } => ("closed", 0, 0),
        Said::Reloaded { version } => ("reloaded", version, 0),
        Said::Marked {
            line,
            health: Health::Down,
        } => ("down", u64::from(line), 0),
        Said::Marked {
            line,
            health: Health::Up,
        } => ("back", u64::from(line), 0),
    }
}

fn fault_word(fault: StepFault) -> Word {
    match fault {
        StepFault::NotOffered => ("not offered", 0, 0),
        StepFault::NotDue => ("not due", 0, 0),
        StepFault::BadConfig(_) => ("bad config", 0, 0),
        StepFault::BindChanged => ("bind changed", 0, 0),
        StepFault::NotChecked => ("not checked", 0, 0),
        _ => ("fault", 0, 0),
    }
}

fn count_word(counts: Option<Counts>) -> Word {
    match counts {
        Some(Counts { cur, cnt }) => ("count", cur, cnt),
        None => ("no count", 0, 0),
    }
}

fn answer_word(answer: Result<Receipt, StepFault>) -> Word {
    match answer {
        Ok(receipt) => word_of(&receipt.reply.said),
        Err(fault) => fault_word(fault),
    }
}

/// A connection came to the first listener.
pub fn accept<M: Ledger, O: Ledger, R: Wait>(
    rt: &R,
    desk: &SharedDesk<M, O>,
    pass: &mut Pass<M>,
    moment: u64,
    real: &Pair,
) -> (Word, Option<Lease<O>>) {
    match desk.accept(rt, pass, moment, 0, real) {
        Ok((receipt, lease)) => (word_of(&receipt.reply.said), lease),
        Err(fault) => (fault_word(fault), None),
    }
}

/// Whether it can be driven on a connection.
fn can_come(step: &Drive<'_>) -> bool
    ensures { IsTrue result → (id : ConnId) → HasPieceInLimit (driven_event id step.now) }
{
    match step {
        Drive::Piece(bytes) => bytes.len() <= PIECE_LIMIT,
        Drive::Connected | Drive::ConnectFailed | Drive::Expire => true,
    }
}

/// Something is driven on the connection of the lease.
fn drive<M: Ledger, O: Ledger, R: Wait>(
    rt: &R,
    desk: &SharedDesk<M, O>,
    pass: &mut Pass<M>,
    moment: u64,
    lease: Lease<O>,
    step: &Drive<'_>,
) -> (Word, Option<Lease<O>>) {
    if !can_come(step) {
        return (("too long", 0, 0), Some(lease));
    }
    match desk.drive(rt, pass, moment, lease, step) {
        DriveResult::Goes(receipt, lease) => (word_of(&receipt.reply.said), Some(lease)),
        DriveResult::Over(receipt) => (word_of(&receipt.reply.said), None),
        DriveResult::Failed(fault, lease) => (fault_word(fault), Some(lease)),
    }
}

/// The connection of the lease ended.
pub fn close<M: Ledger, O: Ledger, R: Wait>(
    rt: &R,
    desk: &SharedDesk<M, O>,
    pass: &mut Pass<M>,
    moment: u64,
    lease: Lease<O>,
) -> (Word, Option<Lease<O>>) {
    match desk.close(rt, pass, moment, lease, Why::Done) {
        Ok(receipt) => (word_of(&receipt.reply.said), None),
        Err((fault, lease)) => (fault_word(fault), Some(lease)),
    }
}

/// What comes of a call that is for no connection.
fn other_word<M: Ledger, O: Ledger, R: Wait>(
    rt: &R,
    desk: &SharedDesk<M, O>,
    pass: &mut Pass<M>,
    moment: u64,
    call: &Call,
) -> Word {
    match call {
        Call::Reload(text) => answer_word(desk.reload(rt, pass, moment, text)),
        Call::Mark(server, health) => {
            answer_word(desk.mark(rt, pass, moment, 0, *server, *health))
        }
        Call::Ask(ask) => count_word(desk.ask(rt, ask)),
        _ => ("no such lease", 0, 0),
    }
}

/// A call on the connection of the lease, if there is one.
pub fn make<M: Ledger, O: Ledger, R: Wait>(
    rt: &R,
    desk: &SharedDesk<M, O>,
    pass: &mut Pass<M>,
    moment: u64,
    lease: Option<Lease<O>>,
    call: &Call,
    real: &Pair,
) -> (Word, Option<Lease<O>>) {
    match lease {
        None => match call {
            Call::Accept => accept(rt, desk, pass, moment, real),
            _ => (other_word(rt, desk, pass, moment, call), None),
        },
        Some(lease) => match call {
            Call::Drive(step) => drive(rt, desk, pass, moment, lease, step),
            Call::Close => close(rt, desk, pass, moment, lease),
            _ => (other_word(rt, desk, pass, moment, call), Some(lease)),
        },
    }
}
