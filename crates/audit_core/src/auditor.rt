//! A core along the lines of a record.
ghost use Rattle.std.specs.Prelude.{◌≡◌, ◌⊎◌, ◌+◌, ◌<◌, ◌≤◌, ◌^◌, ℕ, List, length, Option, Some, None, Ok, Err, IfSome, IfOk, IfErr, OnOk, OnErr, option_and_then, option_map};
ghost use Rattle.std.specs.Str.{bytes_eq};
ghost use Rattle.line_reader.specs.declared.lines.TheConstants.{MOST_LINE_BYTES};
ghost use Rattle.text_core.specs.Decimal.{decimal};
ghost use Rattle.conn_model.specs.declared.event.TheConstants.{PIECE_LIMIT};
ghost use Rattle.conn_model.specs.Answer.{answer_in, checked_server, row_at};
ghost use Rattle.conn_model.specs.Counts.{server_of, total, open_connections};
ghost use Rattle.conn_core.specs.Checked.{checked_in};
ghost use Rattle.conn_core.specs.Summaries.{names_in, names_of};
ghost use Rattle.conn_model.specs.HandedIn.{HasPieceInLimit};
ghost use Rattle.conn_model.specs.History.{owned_event};
ghost use Rattle.event_text.specs.Script.{event_read, head_read, with_text, words_of, HasLines};
ghost use Rattle.replay_core.specs.Turns.{plain_after};
ghost use Rattle.audit_core.specs.Record.{numbered_head};
ghost use Rattle.audit_core.specs.Verdict.{fault_at, reply_at, text_at};
ghost use Rattle.audit_core.specs.Awaited.{due_of};
ghost use Rattle.audit_core.specs.Standing.{after_head, at_end, is_between, on_due, on_line, IsDue, Standing};
ghost use Rattle.audit_core.specs.Line.{event_peer};
ghost use Rattle.audit_core.specs.Printing.{due_reply};
ghost use Rattle.audit_core.specs.Check.{reading_fault, IsLineFault};
ghost use Rattle.audit_core.specs.declared.due.Due.TheVariants as dues;
ghost use Rattle.audit_core.specs.declared.fault.TheConstants.{MOST_RECORD_LINES};

use crate::due::{Awaited, NextLine};
use crate::fault::{CheckFault, CheckKind, MOST_RECORD_LINES};
use addr_core::Endpoint;
use conn_core::{CheckedServer, Core, ServerNames};
use conn_model::ask::Ask;
use conn_model::event::{ConnId, Event};
use conn_model::plain::FrontendRows;
use conn_model::reply::{Reply, StepFault};
use event_text::{EventRequest, FirstLine, PendingReload, read_bar, read_event, write_reply_text};
use line_reader::ReadFault;
use std::alloc::{AllocError, Global};
use std::marker::Model;
use std::mem;
use text_core::cut_at;
use text_core::decimal::read_decimal;

/// A core between two lines of a record. It cannot be dropped: it ends by `end`.
pub struct Auditor {
    alloc: Global,
    core: Core,
    lines: u64,
    records: u64,
    /// What the next line has to be.
    due: Awaited,
    /// The bytes of the piece of a line.
    piece: Vec<u8>,
    /// The line of a reply.
    reply: Vec<u8>,
}

impl Model for Auditor {
    ghost use Rattle.std.specs.Prelude.{◌≡◌, ◌≤◌, length};
    ghost use Rattle.conn_model.specs.declared.event.TheConstants.{PIECE_LIMIT};
    ghost use Rattle.audit_core.specs.Awaited.{due_of};
    ghost use Rattle.audit_core.specs.Standing.{IsDue, Standing};
    ghost use Rattle.conn_model.specs.Counts.{open_connections};
    ghost use Rattle.audit_core.specs.declared.fault.TheConstants.{MOST_RECORD_LINES};

    ghost Value = { Standing };

    ghost view = { λ a.
        record { plain = a.core; lines = a.lines; records = a.records; due = due_of a.due } };

    ghost invariant = { λ a. (a.lines ≤ MOST_RECORD_LINES) × (a.records ≤ a.lines)
        × (open_connections a.core ≤ a.lines) × (length a.piece.items ≡ PIECE_LIMIT)
        × IsDue (due_of a.due) };
}

/// A fault of that line.
fn fault_at(line: u64, kind: CheckKind) -> CheckFault
    ensures { result ≡ fault_at line kind }
{
    CheckFault { line, kind }
}

/// Whether the word is the number in decimal.
fn is_number(word: &[u8], number: u64) -> bool
    ensures { result ≡ bytes_eq word.now (decimal number) }
{
    read_decimal(word, number) == Some(number)
}

/// What the first line of an event says, which has the event after that number.
pub fn read_numbered(number: u64, line: &[u8], piece: &mut [u8]) -> Option<FirstLine>
    requires { length piece.old ≡ PIECE_LIMIT }
    ensures head { option_map (head_read piece.new) result ≡ numbered_head number (words_of line.now) }
    ensures lines { IfSome result HasLines }
    ensures room { length piece.new ≡ length piece.old }
{
    let (word, rest) = cut_at(line, b' ')?;
    if !is_number(word, number) {
        return None;
    }
    read_event(rest, piece)
}

/// Takes a line of the text of a reload.
fn add_line(at: u64, pending: &mut PendingReload, line: &[u8]) -> Result<(), CheckFault>
    requires short { length line.now ≤ MOST_LINE_BYTES }
    requires few { at ≤ MOST_RECORD_LINES }
    requires missing { 0 < pending.old.missing }
    ensures ok { OnOk result ((text : List ℕ) × (text_at at line.now ≡ Ok text) × (pending.new ≡ with_text pending.old text)) }
    ensures err { IfErr result (λ f. (f ≡ fault_at 0 CheckKind.NoMemory) ⊎ (IsLineFault f.kind × (text_at at line.now ≡ Err f))) }
{
    let Some(text) = read_bar(line) else {
        return Err(fault_at(at, CheckKind::Format));
    };
    match pending.add(text) {
        Ok(()) => Ok(()),
        Err(AllocError) => Err(fault_at(0, CheckKind::NoMemory)),
    }
}

/// The peer of an event that is an accept.
fn peer_of(event: &EventRequest) -> Option<Endpoint>
    ensures { (buffer : List ℕ) → result ≡ event_peer (event_read buffer event.now) }
{
    match event {
        EventRequest::Accept(_, real) => Some(real.source()),
        _ => None,
    }
}

/// The answer to an event, in the place of another one.
fn step(
    core: &mut Core,
    moment: u64,
    event: &Event<'_>,
    answered: &mut Result<Reply, StepFault>,
) -> Result<(), AllocError>
    requires piece { HasPieceInLimit (owned_event event.now) }
    ensures answered { OnOk result
        (answered.new ≡ answer_in core.old moment (owned_event event.now)) }
    ensures plain { OnOk result (core.new ≡ plain_after core.old moment (owned_event event.now) (answer_in core.old moment (owned_event event.now))) }
    ensures err { OnErr result (core.new ≡ core.old) }
{
    *answered = core.step(moment, event);
    match answered {
        Err(StepFault::NoMemory) => Err(AllocError),
        Ok(_) | Err(_) => Ok(()),
    }
}

/// The same, after which one connection more is open at most.
fn answer_into(
    core: &mut Core,
    moment: u64,
    event: &Event<'_>,
    answered: &mut Result<Reply, StepFault>,
) -> Result<(), AllocError>
    requires piece { HasPieceInLimit (owned_event event.now) }
    ensures answered { OnOk result
        (answered.new ≡ answer_in core.old moment (owned_event event.now)) }
    ensures plain { OnOk result (core.new ≡ plain_after core.old moment (owned_event event.now) (answer_in core.old moment (owned_event event.now))) }
    ensures few { OnOk result (open_connections core.new ≤ open_connections core.old + 1) }
    ensures err { OnErr result (core.new ≡ core.old) }
{
    step(core, moment, event, answered)
}

/// The answer to an event, after which one connection more is open at most.
pub fn answer(
    core: &mut Core,
    moment: u64,
    event: &Event<'_>,
) -> Result<Result<Reply, StepFault>, AllocError>
    requires piece { HasPieceInLimit (owned_event event.now) }
    ensures answered { IfOk result (λ answered. answered ≡ answer_in core.old moment (owned_event event.now)) }
    ensures plain { OnOk result (core.new ≡ plain_after core.old moment (owned_event event.now) (answer_in core.old moment (owned_event event.now))) }
    ensures few { OnOk result (open_connections core.new ≤ open_connections core.old + 1) }
    ensures err { OnErr result (core.new ≡ core.old) }
{
    let mut answered = Err(StepFault::NoSuch);
    answer_into(core, moment, event, &mut answered)?;
    Ok(answered)
}

/// Answers an event by its first line, where its piece is in front of the buffer. Then another line is due: its reply, or
/// the first one of the text of a reload.
fn answer_first(
    alloc: Global,
    core: &mut Core,
    due: &mut Awaited,
    first: &FirstLine,
    piece: &[u8],
) -> Result<(), AllocError>
    requires lines { HasLines first.now }
    requires due { IsDue (due_of due.old) }
    requires room { length piece.now ≡ PIECE_LIMIT }
    ensures after { OnOk result ((s : Standing) → s.plain ≡ core.old → after_head s (head_read piece.now first.now)
        ≡ record {
          plain = core.new;
          lines = s.lines + 1;
          records = s.records;
          due = due_of due.new;
        }) }
    ensures few { OnOk result (open_connections core.new ≤ open_connections core.old + 1) }
    ensures due { IsDue (due_of due.new) }
    ensures err { OnErr result (core.new ≡ core.old) }
{
    match first {
        FirstLine::Whole(moment, request) => {
            answer_into(core, *moment, &request.event(piece), &mut due.answered)?;
            due.peer = peer_of(request);
            due.next = NextLine::Reply;
        }
        FirstLine::Reload(moment, lines) => {
            due.reload = PendingReload::new(alloc, *moment, *lines);
            due.next = NextLine::Text;
        }
    }
    Ok(())
}

/// What is wrong with a line in the place of a reply, if anything is.
fn judge_reply(
    at: u64,
    answered: &Result<Reply, StepFault>,
    line: &[u8],
    text: &mut Vec<u8>,
) -> Result<(), CheckFault>
    requires short { length line.now ≤ MOST_LINE_BYTES }
    requires few { at ≤ MOST_RECORD_LINES }
    ensures ok { OnOk result ((reply : Reply) × (reply_at at answered.now line.now ≡ Ok reply)) }
    ensures err { IfErr result (λ f. (f ≡ fault_at 0 CheckKind.NoMemory) ⊎ (IsLineFault f.kind × (reply_at at answered.now line.now ≡ Err f))) }
{
    let Some(given) = line.strip_prefix(b"= ") else {
        return Err(fault_at(at, CheckKind::Format));
    };
    match answered {
        Ok(reply) => {
            text.clear();
            if write_reply_text(text, reply).is_err() {
                return Err(fault_at(0, CheckKind::NoMemory));
            }
            if given != text.as_slice() {
                return Err(fault_at(at, CheckKind::WrongReply));
            }
            Ok(())
        }
        Err(_) => Err(fault_at(at, CheckKind::WrongReply)),
    }
}

/// How many connections are open in all frontends, if these are fewer than 65,535.
fn open_in_all(core: &Core) -> Option<u64>
    requires { open_connections core.now < 2 ^ 64 }
    ensures { IfSome result (λ sum. sum ≡ open_connections core.now) }
{
    let mut open = 0u64;
    for number in 0..u16::MAX {
        match core.counts(&Ask::Frontend(number)) {
            Some(counts) => open += counts.cur,
            None => return Some(open),
        }
    }
    None
}

/// How many connections are open in the frontends of a list.
fn count_open(frontends: &[FrontendRows]) -> u64
    requires { total (λ own. length own.rows) frontends.now < 2 ^ 64 }
    ensures { result ≡ total (λ own. length own.rows) frontends.now }
{
    let mut open = 0u64;
    for own in frontends {
        open += own.rows.len() as u64;
    }
    open
}

impl Auditor {
    pub fn new(alloc: Global, core: Core, piece: Vec<u8>) -> Self
        requires room { length piece.items ≡ PIECE_LIMIT }
        requires none { open_connections core ≡ 0 }
        ensures { result ≡ record { plain = core; lines = 0; records = 0; due = dues.Event } }
    {
        Auditor {
            alloc,
            core,
            lines: 0,
            records: 0,
            due: Awaited::event(alloc),
            piece,
            reply: Vec::new(alloc),
        }
    }

    /// The fault if no next line comes.
    pub fn reading_fault(&self, fault: ReadFault) -> CheckFault
        ensures { result ≡ reading_fault (self.now.lines + 1) fault }
    {
        match fault {
            ReadFault::TooLong => fault_at(self.lines + 1, CheckKind::TooLong),
            ReadFault::Read => fault_at(0, CheckKind::Read),
            ReadFault::NoMemory => fault_at(0, CheckKind::NoMemory),
        }
    }

    /// The reply to the last event, until its line comes, with the peer of that event, if it is an accept.
    pub fn answered(&self) -> Option<(Option<Endpoint>, &Reply)>
        ensures { option_map (λ a. (a.0, a.1.now)) result ≡ due_reply self.now.due }
    {
        match self.due.next {
            NextLine::Reply => match &self.due.answered {
                Ok(reply) => Some((self.due.peer, reply)),
                Err(_) => None,
            },
            NextLine::Event | NextLine::Text => None,
        }
    }

    /// Whether the next line has to be the first one of an entry.
    pub fn is_between(&self) -> bool
        ensures { result ≡ is_between self.now.due }
    {
        match self.due.next {
            NextLine::Event => true,
            NextLine::Text | NextLine::Reply => false,
        }
    }

    /// The names of the server that an open connection was offered, as the version that judged it has them.
    pub fn server(&self, id: ConnId) -> Option<ServerNames<'_>>
        ensures { option_map names_in result ≡ option_map names_of (option_and_then (λ row. server_of row.phase) (row_at self.now.plain.frontends id)) }
    {
        self.core.server(id)
    }

    /// The server of that number in the backend of that number, in the newest version, if it is checked.
    pub fn checked(&self, number: u16, place: u16) -> Option<CheckedServer<'_>>
        ensures { option_map checked_in result ≡ checked_server self.now.plain.versions number place }
    {
        self.core.checked(number, place)
    }

    /// How many entries came.
    pub fn records(&self) -> u64
        ensures count { result ≡ self.now.records }
        ensures few { result ≤ MOST_RECORD_LINES }
    {
        self.records
    }

    /// How many connections are open.
    pub fn live(&self) -> Result<u64, AllocError>
        ensures { IfOk result (λ live. live ≡ open_connections self.now.plain) }
    {
        if let Some(open) = open_in_all(&self.core) {
            return Ok(open);
        }
        let plain = self.core.plain()?;
        Ok(count_open(plain.frontends.as_slice()))
    }

    /// Ends the check with its core.
    pub fn end(self) {
        let Auditor {
            alloc: _,
            core,
            lines: _,
            records: _,
            due: _due,
            piece: _piece,
            reply: _reply,
        } = self;
        core.end();
    }

    /// Checks that no line is missing.
    pub fn finish(&self) -> Result<(), CheckFault>
        ensures ok { OnOk result (at_end self.now ≡ Ok self.now) }
        ensures err { IfErr result (λ f. IsLineFault f.kind × (at_end self.now ≡ Err f)) }
    {
        match self.due.next {
            NextLine::Event => Ok(()),
            NextLine::Text | NextLine::Reply => Err(fault_at(self.lines + 1, CheckKind::Format)),
        }
    }

    /// Checks the first line of an event.
    fn check_event(&mut self, line: &[u8]) -> Result<(), CheckFault>
        requires short { length line.now ≤ MOST_LINE_BYTES }
        requires few { self.old.lines < MOST_RECORD_LINES }
        ensures ok { OnOk result (on_due self.old dues.Event line.now ≡ Ok self.new) }
        ensures next { OnOk result ((self.new.lines ≡ self.old.lines + 1) × (self.new.lines ≤ MOST_RECORD_LINES)) }
        ensures err { IfErr result (λ f. (f ≡ fault_at 0 CheckKind.NoMemory) ⊎ (IsLineFault f.kind × (on_due self.old dues.Event line.now ≡ Err f))) }
    {
        let at = self.lines + 1;
        let Some(first) = read_numbered(self.records + 1, line, &mut self.piece) else {
            return Err(fault_at(at, CheckKind::Format));
        };
        let (core, due) = (&mut self.core, &mut self.due);
        if answer_first(self.alloc, core, due, &first, &self.piece).is_err() {
            return Err(fault_at(0, CheckKind::NoMemory));
        }
        self.lines = at;
        Ok(())
    }

    /// Checks the first line of an event as `check_line` does, and answers what it says. The bytes of a piece are read into
    /// the front of the buffer, which has the length `PIECE_LIMIT`. After a fault the check is over.
    pub fn check_first(&mut self, line: &[u8], piece: &mut [u8]) -> Result<FirstLine, CheckFault>
        requires short { length line.now ≤ MOST_LINE_BYTES }
        requires room { length piece.old ≡ PIECE_LIMIT }
        requires between { self.old.due ≡ dues.Event }
        ensures ok { OnOk result (on_line self.old line.now ≡ Ok self.new) }
        ensures first { IfOk result (λ first. numbered_head (self.old.records + 1) (words_of line.now) ≡ Some (head_read piece.new first)) }
        ensures next { OnOk result ((self.new.lines ≡ self.old.lines + 1) × (self.new.lines ≤ MOST_RECORD_LINES)) }
        ensures err { IfErr result (λ f. (f ≡ fault_at 0 CheckKind.NoMemory) ⊎ (IsLineFault f.kind × (on_line self.old line.now ≡ Err f))) }
        ensures room { length piece.new ≡ length piece.old }
    {
        let at = self.lines + 1;
        if self.lines == MOST_RECORD_LINES {
            return Err(fault_at(at, CheckKind::TooLong));
        }
        let Some(first) = read_numbered(self.records + 1, line, piece) else {
            return Err(fault_at(at, CheckKind::Format));
        };
        let (core, due) = (&mut self.core, &mut self.due);
        if answer_first(self.alloc, core, due, &first, piece).is_err() {
            return Err(fault_at(0, CheckKind::NoMemory));
        }
        self.lines = at;
        Ok(first)
    }

    /// Checks a line of the text of a reload, and answers it after the last one.
    fn check_text(&mut self, mut pending: PendingReload, line: &[u8]) -> Result<(), CheckFault>
        requires short { length line.now ≤ MOST_LINE_BYTES }
        requires few { self.old.lines < MOST_RECORD_LINES }
        requires missing { 0 < pending.missing }
        ensures ok { OnOk result (on_due self.old (dues.Text pending) line.now ≡ Ok self.new) }
        ensures next { OnOk result ((self.new.lines ≡ self.old.lines + 1) × (self.new.lines ≤ MOST_RECORD_LINES)) }
        ensures err { IfErr result (λ f. (f ≡ fault_at 0 CheckKind.NoMemory) ⊎ (IsLineFault f.kind × (on_due self.old (dues.Text pending) line.now ≡ Err f))) }
    {
        let at = self.lines + 1;
        add_line(at, &mut pending, line)?;
        self.lines = at;
        if pending.missing() > 0 {
            self.due.reload = pending;
            self.due.next = NextLine::Text;
            return Ok(());
        }
        let event = pending.event();
        let (core, answered) = (&mut self.core, &mut self.due.answered);
        if answer_into(core, pending.moment(), &event, answered).is_err() {
            return Err(fault_at(0, CheckKind::NoMemory));
        }
        self.due.peer = None;
        self.due.next = NextLine::Reply;
        Ok(())
    }

    /// Checks one line. After a fault the check is over.
    pub fn check_line(&mut self, line: &[u8]) -> Result<(), CheckFault>
        requires { length line.now ≤ MOST_LINE_BYTES }
        ensures ok { OnOk result (on_line self.old line.now ≡ Ok self.new) }
        ensures next { OnOk result ((self.new.lines ≡ self.old.lines + 1) × (self.new.lines ≤ MOST_RECORD_LINES)) }
        ensures err { IfErr result (λ f. (f ≡ fault_at 0 CheckKind.NoMemory) ⊎ (IsLineFault f.kind × (on_line self.old line.now ≡ Err f))) }
    {
        if self.lines == MOST_RECORD_LINES {
            return Err(fault_at(self.lines + 1, CheckKind::TooLong));
        }
        match mem::replace(&mut self.due.next, NextLine::Event) {
            NextLine::Event => self.check_event(line),
            NextLine::Text => {
                let none = PendingReload::new(self.alloc, 0, 0);
                let pending = mem::replace(&mut self.due.reload, none);
                self.check_text(pending, line)
            }
            NextLine::Reply => {
                let at = self.lines + 1;
                judge_reply(at, &self.due.answered, line, &mut self.reply)?;
                self.lines = at;
                self.records += 1;
                Ok(())
            }
        }
    }
}
