//! A replay as far as it has come.
ghost use Rattle.std.specs.Prelude.{◌≡◌, ◌≢◌, ◌⊎◌, ◌+◌, ◌-◌, ◌<◌, ◌≤◌, ◌++◌, ◌∷◌, ℕ, List, [], length, drop, Some, None, Ok, Err, OnOk, OnErr, IfOk, IfErr, IfSome, IfNone};
ghost use Rattle.device_core.specs.Patience.{IsUnblocked};
ghost use Rattle.line_reader.specs.declared.lines.TheConstants.{MOST_LINE_BYTES};
ghost use Rattle.conn_model.specs.Answer.{answer_in};
ghost use Rattle.conn_model.specs.Counts.{counts_in};
ghost use Rattle.event_text.specs.Replies.{count_line};
ghost use Rattle.conn_model.specs.HandedIn.{HasPieceInLimit};
ghost use Rattle.conn_model.specs.History.{owned_event};
ghost use Rattle.conn_model.specs.declared.event.TheConstants.{PIECE_LIMIT};
ghost use Rattle.event_text.specs.Script.{IsCounted};
ghost use Rattle.replay_core.specs.Replay.{answer_text, asked_at, asked_read, asked_with, ending, final_outcome, script_fault};
ghost use Rattle.replay_core.specs.Turns.{plain_after};
ghost use Rattle.replay_core.specs.Progress.{total, total_of_lines, GaveUp, Continues, IsFrontOf, IsLineFault};

use crate::fault::ReplayFault;
use conn_core::Core;
use conn_model::ask::Ask;
use conn_model::event::Event;
use conn_model::reply::{Reply, StepFault};
use device_core::{Failed, Output, write_all};
use event_text::{
    FirstLine, PendingReload, Request, read_bar, read_request, write_counts, write_fault,
    write_reply,
};
use line_reader::ReadFault;
use std::alloc::{AllocError, Global};
use std::marker::Model;

/// How many lines a script has at most.
pub const MOST_LINES: u64 = 1_000_000;

/// How many bytes of answers or lines are collected before they are written.
pub const MOST_UNSENT: usize = 65_536;

/// A core between two lines of a script, with the answers that were not yet written. It cannot be dropped: it ends by
/// `end`.
pub struct Session {
    alloc: Global,
    core: Core,
    /// The reload of which lines are missing.
    reload: Option<PendingReload>,
    before: u64,
    answered: u64,
    unsent: Vec<u8>,
    /// The bytes of the piece of a line.
    piece: Vec<u8>,
}

impl Model for Session {
    ghost use Rattle.std.specs.Prelude.{◌≡◌, ◌≤◌, ◌<◌, length, IfSome};
    ghost use Rattle.replay_core.specs.Progress.{ReplayProgress};
    ghost use Rattle.replay_core.specs.declared.session.TheConstants.{MOST_LINES};
    ghost use Rattle.conn_model.specs.declared.event.TheConstants.{PIECE_LIMIT};

    ghost Value = { ReplayProgress };

    ghost view = { λ s. record { plain = s.core; reload = s.reload; before = s.before; answered = s.answered; unsent = s.unsent.items } };

    ghost invariant = { λ s. (s.before ≤ MOST_LINES) × (s.answered ≤ s.before) × (length s.piece.items ≡ PIECE_LIMIT) × IfSome s.reload (λ r. 0 < r.missing) };
}

/// What a line outside a reload asks for.
fn read_line(number: u64, line: &[u8], piece: &mut [u8]) -> Result<Option<Request>, ReplayFault>
    requires short { length line.now ≤ MOST_LINE_BYTES }
    requires room { length piece.old ≡ PIECE_LIMIT }
    ensures exact { asked_read piece.new result ≡ asked_at None number line.now }
    ensures room { length piece.new ≡ length piece.old }
    ensures small { IfOk result (λ _. number ≤ MOST_LINES) }
    ensures kind { IfErr result IsLineFault }
    ensures lines { IfOk result (λ request. IfSome request IsCounted) }
{
    if number > MOST_LINES {
        return Err(ReplayFault::TooLong(number));
    }
    if line.is_empty() || line[0] == b'#' {
        return Ok(None);
    }
    match read_request(line, piece) {
        Some(request) => Ok(Some(request)),
        None => Err(ReplayFault::Format(number)),
    }
}

/// A reload with the text of that line.
fn add_line(
    number: u64,
    mut reload: PendingReload,
    line: &[u8],
) -> Result<PendingReload, ReplayFault>
    requires short { length line.now ≤ MOST_LINE_BYTES }
    requires missing { 0 < reload.missing }
    ensures ok { IfOk result (λ with. asked_at (Some reload) number line.now ≡ Ok (asked_with with)) }
    ensures small { IfOk result (λ _. number ≤ MOST_LINES) }
    ensures err { IfErr result (λ f. (f ≡ ReplayFault.NoMemory) ⊎ (IsLineFault f × (asked_at (Some reload) number line.now ≡ Err f))) }
{
    if number > MOST_LINES {
        return Err(ReplayFault::TooLong(number));
    }
    let Some(text) = read_bar(line) else {
        return Err(ReplayFault::Format(number));
    };
    if reload.add(text).is_err() {
        return Err(ReplayFault::NoMemory);
    }
    Ok(reload)
}

/// Collects the line of an answer.
fn write_answer(
    alloc: Global,
    unsent: &mut Vec<u8>,
    answered: Result<Reply, StepFault>,
) -> Result<(), AllocError>
    ensures { OnOk result (unsent.new.items ≡ unsent.old.items ++ answer_text answered) }
{
    match answered {
        Ok(reply) => write_reply(unsent, &reply),
        Err(fault) => write_fault(alloc, unsent, &fault),
    }
}

/// Answers an event, and collects the line of the answer.
fn answer(
    alloc: Global,
    core: &mut Core,
    unsent: &mut Vec<u8>,
    moment: u64,
    event: &Event<'_>,
) -> Result<(), ReplayFault>
    requires piece { HasPieceInLimit (owned_event event.now) }
    ensures text { OnOk result (unsent.new.items ≡ unsent.old.items ++ answer_text (answer_in core.old moment (owned_event event.now))) }
    ensures plain { OnOk result (core.new ≡ plain_after core.old moment (owned_event event.now) (answer_in core.old moment (owned_event event.now))) }
    ensures err { IfErr result (λ f. f ≡ ReplayFault.NoMemory) }
{
    let answered = core.step(moment, event);
    if let Err(StepFault::NoMemory) = answered {
        return Err(ReplayFault::NoMemory);
    }
    if write_answer(alloc, unsent, answered).is_err() {
        return Err(ReplayFault::NoMemory);
    }
    Ok(())
}

/// Collects the line of the counts that are asked for.
fn count(core: &Core, unsent: &mut Vec<u8>, ask: &Ask) -> Result<(), ReplayFault>
    ensures text { OnOk result (unsent.new.items ≡ unsent.old.items ++ count_line ask.now (counts_in core.now ask.now)) }
    ensures err { IfErr result (λ f. f ≡ ReplayFault.NoMemory) }
{
    if write_counts(unsent, ask, core.counts(ask)).is_err() {
        return Err(ReplayFault::NoMemory);
    }
    Ok(())
}

impl Session {
    ghost use Rattle.replay_core.specs.declared.fault.ReplayFault.TheVariants.{NoMemory};

    pub fn new(alloc: Global, core: Core, piece: Vec<u8>) -> Self
        requires { length piece.items ≡ PIECE_LIMIT }
        ensures { result ≡ record { plain = core; reload = None; before = 0; answered = 0; unsent = [] } }
    {
        Session {
            alloc,
            core,
            reload: None,
            before: 0,
            answered: 0,
            unsent: Vec::new(alloc),
            piece,
        }
    }

    /// The fault that ends the replay where no next line comes.
    pub fn script_fault(&self, fault: ReadFault) -> ReplayFault
        ensures { result ≡ script_fault (self.now.before + 1) fault }
    {
        match fault {
            ReadFault::TooLong => ReplayFault::TooLong(self.before + 1),
            ReadFault::Read => ReplayFault::Read,
            ReadFault::NoMemory => ReplayFault::NoMemory,
        }
    }

    /// Ends the session with its core, and says how many events and questions were answered.
    pub fn end(self) -> u64
        ensures { result ≡ self.answered }
    {
        let Session {
            alloc: _,
            core,
            reload: _reload,
            before: _,
            answered,
            unsent: _unsent,
            piece: _piece,
        } = self;
        core.end();
        answered
    }

    /// Answers one line.
    pub fn answer_line(&mut self, line: &[u8]) -> Result<(), ReplayFault>
        requires { length line.now ≤ MOST_LINE_BYTES }
        ensures ok { OnOk result ((sent : List ℕ) (more : List (List ℕ)) → total_of_lines sent self.new more ≡ total_of_lines sent self.old (line.now ∷ more)) }
        ensures before { OnOk result ((self.new.before ≡ self.old.before + 1) × (self.new.before ≤ MOST_LINES)) }
        ensures err { IfErr result (λ f. (f ≡ ReplayFault.NoMemory) ⊎ (IsLineFault f
            × ((sent : List ℕ) (more : List (List ℕ)) → total sent self.new (final_outcome (Some f)) ≡ total_of_lines sent self.old (line.now ∷ more)))) }
    {
        match self.reload.take() {
            Some(reload) => self.answer_text(reload, line),
            None => self.answer_request(line),
        }
    }

    /// Answers the last line.
    pub fn answer_last(&mut self, line: &[u8]) -> Result<(), ReplayFault>
        requires { length line.now ≤ MOST_LINE_BYTES }
        ensures ok { OnOk result ((sent : List ℕ) → total sent self.new (final_outcome None) ≡ total_of_lines sent self.old (line.now ∷ [])) }
        ensures err { IfErr result (λ f. (f ≡ ReplayFault.NoMemory) ⊎ (IsLineFault f
            × ((sent : List ℕ) → total sent self.new (final_outcome (Some f)) ≡ total_of_lines sent self.old (line.now ∷ [])))) }
    {
        self.answer_line(line)?;
        self.at_end()
    }

    /// No line may be missing at the end.
    pub fn at_end(&self) -> Result<(), ReplayFault>
        ensures ok { OnOk result (ending self.now.reload self.now.before ≡ final_outcome None) }
        ensures err { IfErr result (λ f. IsLineFault f × (ending self.now.reload self.now.before ≡ final_outcome (Some f))) }
    {
        match self.reload {
            Some(_) => Err(ReplayFault::Format(self.before + 1)),
            None => Ok(()),
        }
    }

    /// Answers a line outside a reload.
    fn answer_request(&mut self, line: &[u8]) -> Result<(), ReplayFault>
        requires short { length line.now ≤ MOST_LINE_BYTES }
        requires outside { self.old.reload ≡ None }
        ensures ok { OnOk result ((sent : List ℕ) (more : List (List ℕ)) → total_of_lines sent self.new more ≡ total_of_lines sent self.old (line.now ∷ more)) }
        ensures before { OnOk result ((self.new.before ≡ self.old.before + 1) × (self.new.before ≤ MOST_LINES)) }
        ensures err { IfErr result (λ f. (f ≡ ReplayFault.NoMemory) ⊎ (IsLineFault f
            × ((sent : List ℕ) (more : List (List ℕ)) → total sent self.new (final_outcome (Some f)) ≡ total_of_lines sent self.old (line.now ∷ more)))) }
    {
        match read_line(self.before + 1, line, &mut self.piece)? {
            Some(Request::Event(FirstLine::Whole(moment, request))) => {
                let event = request.event(&self.piece);
                answer(self.alloc, &mut self.core, &mut self.unsent, moment, &event)?;
                self.answered += 1;
            }
            Some(Request::Event(FirstLine::Reload(moment, lines))) => {
                self.reload = Some(PendingReload::new(self.alloc, moment, lines));
            }
            Some(Request::Ask(ask)) => {
                count(&self.core, &mut self.unsent, &ask)?;
                self.answered += 1;
            }
            None => {}
        }
        self.before += 1;
        Ok(())
    }

    /// Answers a line of the text of a reload.
    fn answer_text(&mut self, reload: PendingReload, line: &[u8]) -> Result<(), ReplayFault>
        requires short { length line.now ≤ MOST_LINE_BYTES }
        requires missing { 0 < reload.missing }
        requires taken { self.old.reload ≡ None }
        ensures ok { OnOk result ((sent : List ℕ) (more : List (List ℕ)) → total_of_lines sent self.new more ≡ total_of_lines sent (record self.old { reload = Some reload }) (line.now ∷ more)) }
        ensures before { OnOk result ((self.new.before ≡ self.old.before + 1) × (self.new.before ≤ MOST_LINES)) }
        ensures err { IfErr result (λ f. (f ≡ ReplayFault.NoMemory) ⊎ (IsLineFault f
            × ((sent : List ℕ) (more : List (List ℕ)) → total sent self.new (final_outcome (Some f)) ≡ total_of_lines sent (record self.old { reload = Some reload }) (line.now ∷ more)))) }
    {
        let reload = add_line(self.before + 1, reload, line)?;
        if reload.missing() == 0 {
            answer(
                self.alloc,
                &mut self.core,
                &mut self.unsent,
                reload.moment(),
                &reload.event(),
            )?;
            self.answered += 1;
        } else {
            self.reload = Some(reload);
        }
        self.before += 1;
        Ok(())
    }

    /// Writes the answers that were collected.
    pub fn send<O: Output>(&mut self, writer: &mut O) -> Result<(), ReplayFault>
        ensures ok { OnOk result ((sent bytes : List ℕ) → O.held writer.old ≡ Some sent → Continues sent self.old bytes (O.held writer.new) self.new bytes) }
        ensures wrote { OnOk result ((sent : List ℕ) → O.held writer.old ≡ Some sent → O.held writer.new ≡ Some (sent ++ self.old.unsent)) }
        ensures empty { OnOk result (self.new ≡ record self.old { unsent = [] }) }
        ensures failures { OnOk result (O.failures writer.new ≡ O.failures writer.old) }
        ensures stalls { OnOk result (IsUnblocked (O.stalls writer.old) (O.stalls writer.new)) }
        ensures err { IfErr result (λ f. f ≡ ReplayFault.Write) }
        ensures front { OnErr result ((sent bytes : List ℕ) → O.held writer.old ≡ Some sent → IsFrontOf sent self.old bytes (O.held writer.new)) }
        ensures gave_up { OnErr result (GaveUp (O.failures writer.old) (O.failures writer.new) (O.stalls writer.old) (O.stalls writer.new)) }
    {
        match write_all(writer, self.unsent.as_slice()) {
            Ok(()) => {
                self.unsent.clear();
                Ok(())
            }
            Err(Failed) => Err(ReplayFault::Write),
        }
    }

    /// Writes the answers that were collected once they are many.
    pub fn send_many<O: Output>(&mut self, writer: &mut O) -> Result<(), ReplayFault>
        ensures ok { OnOk result ((sent bytes : List ℕ) → O.held writer.old ≡ Some sent → Continues sent self.old bytes (O.held writer.new) self.new bytes) }
        ensures before { OnOk result (self.new.before ≡ self.old.before) }
        ensures few { OnOk result (length self.new.unsent < MOST_UNSENT) }
        ensures failures { OnOk result (O.failures writer.new ≡ O.failures writer.old) }
        ensures stalls { OnOk result (IsUnblocked (O.stalls writer.old) (O.stalls writer.new)) }
        ensures err { IfErr result (λ f. f ≡ ReplayFault.Write) }
        ensures front { OnErr result ((sent bytes : List ℕ) → O.held writer.old ≡ Some sent → IsFrontOf sent self.old bytes (O.held writer.new)) }
        ensures gave_up { OnErr result (GaveUp (O.failures writer.old) (O.failures writer.new) (O.stalls writer.old) (O.stalls writer.new)) }
    {
        if self.unsent.len() < MOST_UNSENT {
            return Ok(());
        }
        self.send(writer)
    }
}
