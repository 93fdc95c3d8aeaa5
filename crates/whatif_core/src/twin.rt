//! The balancer of a record, and beside it the trial: the balancer with the other configuration.
ghost use Rattle.std.specs.Prelude.{◌≡◌, ◌⊎◌, ◌+◌, ◌≤◌, length, Option, Some, None, Ok, Err, IfOk, IfErr, OnOk, option_map};
ghost use Rattle.line_reader.specs.declared.lines.TheConstants.{MOST_LINE_BYTES};
ghost use Rattle.conn_model.specs.declared.event.TheConstants.{PIECE_LIMIT};
ghost use Rattle.conn_model.specs.HandedIn.{HasPieceInLimit};
ghost use Rattle.conn_model.specs.History.{owned_event};
ghost use Rattle.conn_core.specs.Summaries.{names_in};
ghost use Rattle.event_text.specs.Script.{head_read, words_of};
ghost use Rattle.audit_core.specs.Printing.{due_reply};
ghost use Rattle.audit_core.specs.Record.{numbered_head};
ghost use Rattle.audit_core.specs.declared.due.Due.TheVariants as dues;
ghost use Rattle.audit_core.specs.Standing.{at_end, on_line};
ghost use Rattle.audit_core.specs.declared.fault.CheckFault.{CheckFault as Fault};
ghost use Rattle.audit_core.specs.declared.fault.TheConstants.{MOST_RECORD_LINES};
ghost use Rattle.conn_model.specs.declared.event.OwnedEvent.{OwnedEvent};
ghost use Rattle.whatif_core.specs.Deciding.{after_failure, after_failure_for, after_failure_on, closed, decided};
ghost use Rattle.whatif_core.specs.Deciding.{decided_for, decision_of, decision_on, decision_with, has_let_in};
ghost use Rattle.whatif_core.specs.Deciding.{is_failure, is_let_in, numbers_for, stepped, stepped_for};
ghost use Rattle.whatif_core.specs.Lines.{both_on, handed_after, turn_after, turn_at};

use crate::decision::{AfterFailure, ComparedDecision, decision_in, failure_outcome, named};
use crate::turn::Turn;
use audit_core::{Auditor, CheckFault, again, answer, check_again};
use conn_core::{Core, ServerNames, ServerNumbers};
use conn_model::event::{ConnId, Event, PIECE_LIMIT, Why};
use conn_model::reply::Said;
use event_text::FirstLine;
use replay_core::PrintFault;
use std::alloc::{AllocError, Global};
use std::marker::Model;

/// The balancer of a record between two lines of it, and the trial. It cannot be dropped: it ends by `end`.
pub struct Twin {
    alloc: Global,
    auditor: Auditor,
    trial: Core,
    /// The bytes of the piece of a line.
    piece: Vec<u8>,
}

impl Model for Twin {
    ghost use Rattle.std.specs.Prelude.{◌≡◌, length};
    ghost use Rattle.conn_model.specs.declared.event.TheConstants.{PIECE_LIMIT};
    ghost use Rattle.whatif_core.specs.Lines.{Both};

    ghost Value = { Both };

    ghost view = { λ t. record { checked = t.auditor; trial = t.trial } };

    ghost invariant = { λ t. length t.piece.items ≡ PIECE_LIMIT };
}

/// What the trial says of an event.
#[derive(Drop)]
struct TrialAnswer {
    /// What it decides.
    would: Option<ComparedDecision>,
    /// What comes of the connection in the trial, if its server is out of reach.
    would_come: Option<AfterFailure>,
}

/// The names of the server that a reply of the trial offers.
fn trial_names<'a>(trial: &'a Core, said: &Said) -> Option<ServerNames<'a>>
    ensures { decision_with (option_map names_in result) said.now ≡ decision_of trial.now said.now }
{
    match said {
        Said::Offer { id, .. } => trial.server(*id),
        _ => None,
    }
}

/// The same of the balancer of the record.
fn recorded_names<'a>(auditor: &'a Auditor, said: &Said) -> Option<ServerNames<'a>>
    ensures { decision_with (option_map names_in result) said.now ≡ decision_of auditor.now.plain said.now }
{
    match said {
        Said::Offer { id, .. } => auditor.server(*id),
        _ => None,
    }
}

/// Whether an event says that the server of a connection is out of reach.
fn is_failure(event: &Event<'_>) -> bool
    ensures { result ≡ is_failure (owned_event event.now) }
{
    match event {
        Event::ConnectFailed(_) => true,
        _ => false,
    }
}

/// What comes of a connection by the reply to an event, if that says that its server is out of reach.
fn after_failure(event: &Event<'_>, said: &Said) -> Option<AfterFailure>
    ensures { result ≡ after_failure_on (owned_event event.now) said.now }
{
    if is_failure(event) {
        return Some(failure_outcome(said));
    }
    None
}

/// What the reply to an event decides in the trial. A connection that is moved to another server of its backend was
/// decided of before.
fn trial_decision(
    alloc: Global,
    trial: &Core,
    event: &Event<'_>,
    said: &Said,
) -> Result<Option<ComparedDecision>, AllocError>
    ensures { IfOk result (λ would. would ≡ decision_on trial.now (owned_event event.now) said.now) }
{
    if is_failure(event) {
        return Ok(None);
    }
    decision_in(alloc, said, trial_names(trial, said))
}

/// The same of the balancer of the record.
fn recorded_decision(
    alloc: Global,
    auditor: &Auditor,
    event: &Event<'_>,
    said: &Said,
) -> Result<Option<ComparedDecision>, AllocError>
    ensures { IfOk result (λ was. was ≡ decision_on auditor.now.plain (owned_event event.now) said.now) }
{
    if is_failure(event) {
        return Ok(None);
    }
    decision_in(alloc, said, recorded_names(auditor, said))
}

/// The numbers in the trial of the server that these numbers name in the record.
fn numbers_for(auditor: &Auditor, trial: &Core, number: u16, place: u16) -> Option<ServerNumbers>
    ensures { result ≡ numbers_for auditor.now.plain.versions trial.now.versions number place }
{
    let found = auditor.checked(number, place)?;
    trial.checked_numbers(&found)
}

/// What the trial says of an event.
fn hand_in(
    alloc: Global,
    trial: &mut Core,
    moment: u64,
    event: &Event<'_>,
) -> Result<TrialAnswer, AllocError>
    requires piece { HasPieceInLimit (owned_event event.now) }
    ensures decided { IfOk result (λ says.
        says.would ≡ decided trial.old moment (owned_event event.now)) }
    ensures failed { IfOk result (λ says.
        says.would_come ≡ after_failure trial.old moment (owned_event event.now)) }
    ensures stepped { OnOk result (trial.new ≡ stepped trial.old moment (owned_event event.now)) }
{
    match answer(trial, moment, event) {
        Ok(Ok(reply)) => Ok(TrialAnswer {
            would: trial_decision(alloc, trial, event, &reply.said)?,
            would_come: after_failure(event, &reply.said),
        }),
        Ok(Err(_)) => Ok(TrialAnswer {
            would: None,
            would_come: None,
        }),
        Err(_) => Err(AllocError),
    }
}

/// What the trial says of an event of the record. A report is taken as one of the checked server that is known there by
/// the same names and address, if there is one.
fn hand_on(
    alloc: Global,
    auditor: &Auditor,
    trial: &mut Core,
    moment: u64,
    event: &Event<'_>,
) -> Result<TrialAnswer, AllocError>
    requires piece { HasPieceInLimit (owned_event event.now) }
    ensures decided { IfOk result (λ says.
        says.would
        ≡ decided_for auditor.now.plain.versions trial.old moment (owned_event event.now)) }
    ensures failed { IfOk result (λ says.
        says.would_come
        ≡ after_failure_for auditor.now.plain.versions trial.old moment (owned_event event.now)) }
    ensures stepped { OnOk result (trial.new ≡ stepped_for auditor.now.plain.versions trial.old moment (owned_event event.now)) }
{
    match *event {
        Event::Mark(number, place, health) => match numbers_for(auditor, trial, number, place) {
            Some(at) => {
                let taken = Event::Mark(at.backend, at.server, health);
                hand_in(alloc, trial, moment, &taken)
            }
            None => Ok(TrialAnswer {
                would: None,
                would_come: None,
            }),
        },
        _ => hand_in(alloc, trial, moment, event),
    }
}

/// Closes a connection, and says whether it was open. This changes nothing if it was not.
fn close(trial: &mut Core, moment: u64, id: ConnId) -> Result<bool, AllocError>
    ensures stepped { OnOk result (trial.new ≡ stepped trial.old moment (OwnedEvent.Close id Why.Done)) }
    ensures open { IfOk result (λ is. is ≡ has_let_in trial.old id) }
{
    let answered = answer(trial, moment, &Event::Close(id, Why::Done))?;
    Ok(answered.is_ok())
}

/// Closes the connection that a reply of the record ends, and says whether that refuses one that the trial has let in.
fn close_ended(trial: &mut Core, moment: u64, said: &Said) -> Result<bool, AllocError>
    ensures closed { OnOk result (trial.new ≡ closed moment said.now trial.old) }
    ensures let_in { IfOk result (λ is. is ≡ is_let_in trial.old said.now) }
{
    match said {
        Said::Refuse { id, .. } => close(trial, moment, *id),
        Said::Closed { id, .. } => {
            close(trial, moment, *id)?;
            Ok(false)
        }
        _ => Ok(false),
    }
}

/// What both say of an event that the balancer of the record answered just now, if it is no fault.
fn play(
    alloc: Global,
    auditor: &Auditor,
    trial: &mut Core,
    moment: u64,
    event: &Event<'_>,
) -> Result<Option<Turn>, AllocError>
    requires piece { HasPieceInLimit (owned_event event.now) }
    ensures turn { IfOk result (λ turn. turn ≡ option_map (turn_after auditor.now.plain trial.old moment (owned_event event.now)) (due_reply auditor.now.due)) }
    ensures trial { OnOk result (trial.new ≡ handed_after auditor.now.plain.versions trial.old moment (owned_event event.now) (due_reply auditor.now.due)) }
{
    match auditor.answered() {
        None => Ok(None),
        Some((peer, reply)) => {
            let was = recorded_decision(alloc, auditor, event, &reply.said)?;
            let TrialAnswer { would, would_come } = hand_on(alloc, auditor, trial, moment, event)?;
            let let_in = close_ended(trial, moment, &reply.said)?;
            Ok(Some(Turn {
                moment,
                id: named(&reply.said),
                peer,
                was,
                would,
                let_in,
                came: after_failure(event, &reply.said),
                would_come,
            }))
        }
    }
}

/// Checks the first line of an event once more, and answers what it says, with the bytes of a piece in front of the buffer.
fn check_first_again(
    auditor: &mut Auditor,
    line: &[u8],
    piece: &mut [u8],
) -> Result<FirstLine, PrintFault>
    requires short { length line.now ≤ MOST_LINE_BYTES }
    requires room { length piece.old ≡ PIECE_LIMIT }
    requires between { auditor.old.due ≡ dues.Event }
    ensures ok { OnOk result (on_line auditor.old line.now ≡ Ok auditor.new) }
    ensures first { IfOk result (λ first. numbered_head (auditor.old.records + 1) (words_of line.now) ≡ Some (head_read piece.new first)) }
    ensures next { OnOk result ((auditor.new.lines ≡ auditor.old.lines + 1) × (auditor.new.lines ≤ MOST_RECORD_LINES)) }
    ensures fault { IfErr result (λ f. (f ≡ PrintFault.NoMemory) ⊎ ((f ≡ PrintFault.Read) × (fault : Fault) × (on_line auditor.old line.now ≡ Err fault))) }
    ensures room { length piece.new ≡ length piece.old }
{
    match auditor.check_first(line, piece) {
        Ok(first) => Ok(first),
        Err(fault) => Err(again(&fault)),
    }
}

impl Twin {
    pub fn new(alloc: Global, auditor: Auditor, trial: Core, piece: Vec<u8>) -> Self
        requires { length piece.items ≡ PIECE_LIMIT }
        ensures { result ≡ record { checked = auditor; trial = trial } }
    {
        Twin {
            alloc,
            auditor,
            trial,
            piece,
        }
    }

    /// Ends both.
    pub fn end(self) {
        let Twin {
            alloc: _,
            auditor,
            trial,
            piece: _piece,
        } = self;
        auditor.end();
        trial.end();
    }

    /// Checks that no line is missing.
    pub fn finish(&self) -> Result<(), PrintFault>
        ensures ok { OnOk result (at_end self.now.checked ≡ Ok self.now.checked) }
        ensures fault { IfErr result (λ f. (f ≡ PrintFault.NoMemory) ⊎ ((f ≡ PrintFault.Read) × (fault : Fault) × (at_end self.now.checked ≡ Err fault))) }
    {
        match self.auditor.finish() {
            Ok(()) => Ok(()),
            Err(fault) => Err(again(&fault)),
        }
    }

    /// Checks a line of the record once more. If an entry begins whose event it hands in, that is handed to the
    /// trial too, and what both say of it is answered. After a fault the run is over.
    pub fn take_line(&mut self, line: &[u8]) -> Result<Option<Turn>, PrintFault>
        requires { length line.now ≤ MOST_LINE_BYTES }
        ensures ok { OnOk result (both_on self.old line.now ≡ Ok self.new) }
        ensures turn { IfOk result (λ turn. turn ≡ turn_at self.old line.now) }
        ensures next { OnOk result ((self.new.checked.lines ≡ self.old.checked.lines + 1) × (self.new.checked.lines ≤ MOST_RECORD_LINES)) }
        ensures fault { IfErr result (λ f. (f ≡ PrintFault.NoMemory) ⊎ ((f ≡ PrintFault.Read) × (fault : Fault) × (both_on self.old line.now ≡ Err fault))) }
    {
        if !self.auditor.is_between() {
            check_again(&mut self.auditor, line)?;
            return Ok(None);
        }
        match check_first_again(&mut self.auditor, line, &mut self.piece)? {
            FirstLine::Whole(moment, request) => {
                let event = request.event(&self.piece);
                let Ok(turn) = play(self.alloc, &self.auditor, &mut self.trial, moment, &event)
                else {
                    return Err(PrintFault::NoMemory);
                };
                Ok(turn)
            }
            FirstLine::Reload(_, _) => Ok(None),
        }
    }
}
