//! Scripts: the lines that hand in events, and those that ask for counts.
ghost use Rattle.std.specs.Prelude.{◌≡◌, ◌==◌, ◌∷◌, ◌<◌, ◌≤◌, ◌^◌, ℕ, false, List, [], length, codes, take, IfSome, IfNone, option_map};
ghost use Rattle.std.specs.Str.{bytes_eq};
ghost use Rattle.conn_model.specs.declared.event.OwnedEvent.{OwnedEvent};
ghost use Rattle.conn_model.specs.declared.event.TheConstants.{PIECE_LIMIT};
ghost use Rattle.conn_model.specs.History.{owned_event};
ghost use Rattle.event_text.specs.Fronts.{ends_in, event_after, head_after, id_alone, id_first, number_first};
ghost use Rattle.conn_model.specs.HandedIn.{HasPieceInLimit, IsHandedIn};
ghost use Rattle.event_text.specs.Script.{accept_of, ask_of, backend_asked, bare_event_of, bytes_of, close_of, ends_of, entry_asked, event_line, event_by_verb, event_on, event_read, frontend_asked, head_by_verb, head_of, head_read, head_written, id_of, piece_of, reload_of, server_asked, wanted, wanted_of, why_of, words_of, HasLines, EventHead, IsCounted, IsRareVerb, Wanted, health_of, mark_of};

use crate::digits::read_hex;
use crate::fronts::{after, id, id_before, is_word, number_before, pair};
use addr_core::{Pair, read_addr, read_endpoint};
use conn_model::ask::Ask;
use conn_model::event::{ConnId, Event, Health, Why};
use text_core::cut_at;
use text_core::decimal::read_decimal;

/// An event that a line hands in. The bytes of a piece are in a buffer of the caller's.
#[derive(Clone, Copy)]
pub enum EventRequest {
    Accept(u16, Pair),
    /// A piece of so many bytes.
    Piece(ConnId, usize),
    Connected(ConnId),
    ConnectFailed(ConnId),
    Close(ConnId, Why),
    Expire(ConnId),
    Mark(u16, u16, Health),
}

impl EventRequest {
    /// The event, whose piece is in front of the buffer.
    pub fn event<'a>(&self, buffer: &'a [u8]) -> Event<'a>
        ensures event { owned_event result ≡ event_read buffer.now self.now }
        ensures piece { length buffer.now ≤ PIECE_LIMIT → HasPieceInLimit (owned_event result) }
    {
        match *self {
            EventRequest::Accept(listener, real) => Event::Accept(listener, real),
            EventRequest::Piece(id, length) => Event::Piece(id, front(buffer, length)),
            EventRequest::Connected(id) => Event::Connected(id),
            EventRequest::ConnectFailed(id) => Event::ConnectFailed(id),
            EventRequest::Close(id, why) => Event::Close(id, why),
            EventRequest::Expire(id) => Event::Expire(id),
            EventRequest::Mark(backend, server, health) => Event::Mark(backend, server, health),
        }
    }
}

/// At most so many bytes from the beginning.
fn front(buffer: &[u8], length: usize) -> &[u8]
    ensures { result.now ≡ take length buffer.now }
{
    &buffer[..length.min(buffer.len())]
}

/// What the first line of an event says.
#[derive(Clone, Copy)]
pub enum FirstLine {
    /// All of the event, which is handed in at that moment, in ms.
    Whole(u64, EventRequest),
    /// A reload at that moment, whose text is on so many lines after it.
    Reload(u64, u64),
}

/// What a line asks for.
#[derive(Clone, Copy)]
pub enum Request {
    /// An answer to an event of which it is the first line.
    Event(FirstLine),
    /// Counts of what is open.
    Ask(Ask),
}

fn cut_word(text: &[u8]) -> Option<(&[u8], &[u8])>
    ensures some { IfSome result (λ parts. words_of text.now ≡ parts.0.now ∷ words_of parts.1.now) }
    ensures none { IfNone result (words_of text.now ≡ text.now ∷ []) }
{
    cut_at(text, b' ')
}

fn is(word: &[u8], text: &[u8]) -> bool
    ensures { result ≡ bytes_eq word.now text.now }
{
    is_word(word, text)
}

fn read_id(word: &[u8]) -> Option<ConnId>
    ensures { result ≡ id_of word.now }
{
    let (frontend, serial) = cut_at(word, b'.')?;
    if let Some((_last, _more)) = cut_at(serial, b'.') {
        return None;
    }
    let frontend = read_decimal(frontend, 65535)?;
    let serial = read_decimal(serial, u64::MAX)?;
    Some(ConnId {
        frontend: frontend as u16,
        serial,
    })
}

fn read_why(word: &[u8]) -> Option<Why>
    ensures { result ≡ why_of word.now }
{
    if is(word, b"done") {
        return Some(Why::Done);
    }
    if is(word, b"fault") {
        return Some(Why::Fault);
    }
    if is(word, b"stopped") {
        return Some(Why::Stopped);
    }
    if is(word, b"failed") {
        return Some(Why::Failed);
    }
    if is(word, b"client-timeout") {
        return Some(Why::ClientTimeout);
    }
    if is(word, b"server-timeout") {
        return Some(Why::ServerTimeout);
    }
    None
}

fn read_health(word: &[u8]) -> Option<Health>
    ensures { result ≡ health_of word.now }
{
    if is(word, b"down") {
        return Some(Health::Down);
    }
    if is(word, b"up") {
        return Some(Health::Up);
    }
    None
}

fn read_ends(peer: &[u8], local: &[u8]) -> Option<Pair>
    ensures { result ≡ ends_of peer.now local.now }
{
    let source = read_endpoint(peer).ok()?;
    let destination = read_endpoint(local).ok()?;
    Pair::of(source, destination)
}

/// The pair of the two words of a text.
fn read_pair(text: &[u8]) -> Option<Pair>
    ensures { result ≡ ends_in (words_of text.now) }
{
    if let Some(real) = pair(text) {
        return Some(real);
    }
    let (peer, local) = cut_word(text)?;
    if let Some((_last, _more)) = cut_word(local) {
        return None;
    }
    read_ends(peer, local)
}

/// The number of the first of some words, and the text of the others.
fn first_number(text: &[u8], most: u64) -> Option<(u64, &[u8])>
    ensures words { option_map (λ parts. (parts.0, words_of parts.1.now)) result
        ≡ number_first most (words_of text.now) }
    ensures small { IfSome result (λ parts. parts.0 ≤ most) }
{
    if let Some((number, rest)) = number_before(text, b' ')
        && number <= most
    {
        return Some((number, rest));
    }
    let (word, rest) = cut_word(text)?;
    let number = read_decimal(word, most)?;
    Some((number, rest))
}

/// The connection of the first of some words, and the text of the others.
fn first_id(text: &[u8]) -> Option<(ConnId, &[u8])>
    ensures { option_map (λ parts. (parts.0, words_of parts.1.now)) result
        ≡ id_first (words_of text.now) }
{
    if let Some((id, rest)) = id_before(text) {
        return Some((id, rest));
    }
    let (word, rest) = cut_word(text)?;
    let id = read_id(word)?;
    Some((id, rest))
}

/// The connection of the one word of a text.
fn only_id(text: &[u8]) -> Option<ConnId>
    ensures { result ≡ id_alone (words_of text.now) }
{
    if let Some(found) = id(text) {
        return Some(found);
    }
    if let Some((_name, _more)) = cut_word(text) {
        return None;
    }
    read_id(text)
}

fn read_accept(rest: &[u8]) -> Option<EventRequest>
    ensures { (buffer : List ℕ) → option_map (event_read buffer) result ≡ accept_of (words_of rest.now) }
{
    let (listener, rest) = first_number(rest, 65535)?;
    let real = read_pair(rest)?;
    Some(EventRequest::Accept(listener as u16, real))
}

fn read_close(rest: &[u8]) -> Option<EventRequest>
    ensures { (buffer : List ℕ) → option_map (event_read buffer) result ≡ close_of (words_of rest.now) }
{
    let (id, note) = first_id(rest)?;
    if let Some((_last, _more)) = cut_word(note) {
        return None;
    }
    let why = read_why(note)?;
    Some(EventRequest::Close(id, why))
}

/// A report of a server.
fn read_mark(rest: &[u8]) -> Option<EventRequest>
    ensures { (buffer : List ℕ) → option_map (event_read buffer) result ≡ mark_of (words_of rest.now) }
{
    let (backend, rest) = cut_word(rest)?;
    let (server, note) = cut_word(rest)?;
    if let Some((_last, _more)) = cut_word(note) {
        return None;
    }
    let backend = read_decimal(backend, 65535)?;
    let server = read_decimal(server, 65535)?;
    let health = read_health(note)?;
    Some(EventRequest::Mark(backend as u16, server as u16, health))
}

/// The event of another verb than `connected` that takes the name of a connection and no more.
fn event_on(verb: &[u8], id: ConnId) -> Option<EventRequest>
    requires { bytes_eq verb.now (codes "connected") ≡ false }
    ensures { (buffer : List ℕ) → option_map (event_read buffer) result ≡ event_on verb.now id }
{
    if is(verb, b"failed") {
        return Some(EventRequest::ConnectFailed(id));
    }
    if is(verb, b"expire") {
        return Some(EventRequest::Expire(id));
    }
    None
}

fn read_bare_event(verb: &[u8], rest: &[u8]) -> Option<EventRequest>
    requires { bytes_eq verb.now (codes "connected") ≡ false }
    ensures { (buffer : List ℕ) → option_map (event_read buffer) result ≡ bare_event_of verb.now (words_of rest.now) }
{
    let id = only_id(rest)?;
    event_on(verb, id)
}

/// The bytes of a word, into the front of a buffer; none are written as a dash.
fn read_bytes(word: &[u8], buffer: &mut [u8]) -> Option<usize>
    ensures bytes { option_map (λ length. take length buffer.new) result ≡ bytes_of (length buffer.old) word.now }
    ensures room { length buffer.new ≡ length buffer.old }
{
    if is(word, b"-") {
        return Some(0);
    }
    if word.is_empty() {
        return None;
    }
    read_hex(word, buffer)
}

fn read_piece(rest: &[u8], buffer: &mut [u8]) -> Option<EventRequest>
    requires { length buffer.old ≡ PIECE_LIMIT }
    ensures event { option_map (event_read buffer.new) result ≡ piece_of (words_of rest.now) }
    ensures room { length buffer.new ≡ length buffer.old }
{
    let (id, bytes) = first_id(rest)?;
    if let Some((_last, _more)) = cut_word(bytes) {
        return None;
    }
    let length = read_bytes(bytes, buffer)?;
    Some(EventRequest::Piece(id, length))
}

/// The event of a verb that few connections have.
fn read_rare_event(verb: &[u8], rest: &[u8]) -> Option<EventRequest>
    requires { IsRareVerb verb.now }
    ensures { (buffer : List ℕ) → option_map (event_read buffer) result
        ≡ event_by_verb verb.now (words_of rest.now) }
{
    if is(verb, b"server") {
        return read_mark(rest);
    }
    read_bare_event(verb, rest)
}

fn read_reload(moment: u64, rest: &[u8]) -> Option<FirstLine>
    ensures head { (buffer : List ℕ) → option_map (head_read buffer) result ≡ reload_of moment (words_of rest.now) }
    ensures lines { IfSome result HasLines }
{
    if let Some((_count, _more)) = cut_word(rest) {
        return None;
    }
    let lines = read_decimal(rest, u64::MAX)?;
    if lines == 0 {
        return None;
    }
    Some(FirstLine::Reload(moment, lines))
}

fn read_connected(rest: &[u8]) -> Option<EventRequest>
    ensures { (buffer : List ℕ) → option_map (event_read buffer) result
        ≡ bare_event_of (codes "connected") (words_of rest.now) }
{
    let id = only_id(rest)?;
    Some(EventRequest::Connected(id))
}

/// The event of a line, after its moment. The verbs that each connection has are looked for first.
fn event_after(text: &[u8], buffer: &mut [u8]) -> Option<EventRequest>
    requires { length buffer.old ≡ PIECE_LIMIT }
    ensures event { option_map (event_read buffer.new) result ≡ event_after (words_of text.now) }
    ensures room { length buffer.new ≡ length buffer.old }
{
    if let Some(rest) = after(text, b"accept ") {
        return read_accept(rest);
    }
    if let Some(rest) = after(text, b"piece ") {
        return read_piece(rest, buffer);
    }
    if let Some(rest) = after(text, b"connected ") {
        return read_connected(rest);
    }
    if let Some(rest) = after(text, b"close ") {
        return read_close(rest);
    }
    let (verb, rest) = cut_word(text)?;
    read_rare_event(verb, rest)
}

/// What a line says after its moment. No verb but that of a reload begins with its first byte.
fn read_timed(moment: u64, text: &[u8], buffer: &mut [u8]) -> Option<FirstLine>
    requires { length buffer.old ≡ PIECE_LIMIT }
    ensures head { option_map (head_read buffer.new) result
        ≡ head_after moment (words_of text.now) }
    ensures lines { IfSome result HasLines }
    ensures room { length buffer.new ≡ length buffer.old }
{
    if !text.is_empty() && text[0] == b'r' {
        let (verb, rest) = cut_word(text)?;
        if !is(verb, b"reload") {
            return None;
        }
        return read_reload(moment, rest);
    }
    let event = event_after(text, buffer)?;
    Some(FirstLine::Whole(moment, event))
}

fn head_in(line: &[u8], buffer: &mut [u8]) -> Option<FirstLine>
    requires { length buffer.old ≡ PIECE_LIMIT }
    ensures head { option_map (head_read buffer.new) result ≡ head_of (words_of line.now) }
    ensures lines { IfSome result HasLines }
    ensures room { length buffer.new ≡ length buffer.old }
{
    let (moment, rest) = first_number(line, u64::MAX)?;
    read_timed(moment, rest, buffer)
}

/// What the first line of an event says. The bytes of a piece are read into the front of the buffer, which has the
/// length `PIECE_LIMIT`.
pub fn read_event(line: &[u8], buffer: &mut [u8]) -> Option<FirstLine>
    requires { length buffer.old ≡ PIECE_LIMIT }
    ensures exact { option_map (head_read buffer.new) result ≡ head_of (words_of line.now) }
    ensures lines { IfSome result HasLines }
    ensures room { length buffer.new ≡ length buffer.old }

    // An event that was written is read again.
    ensures again { (moment : ℕ) (event : OwnedEvent) → moment < 2 ^ 64 → IsHandedIn event →
        line.now ≡ event_line moment event → option_map (head_read buffer.new) result ≡ Some (head_written moment event) }
{
    head_in(line, buffer)
}

/// What is asked for after `ask frontend`.
fn read_frontend(rest: &[u8]) -> Option<Ask>
    ensures { result ≡ frontend_asked (words_of rest.now) }
{
    if let Some((_last, _more)) = cut_word(rest) {
        return None;
    }
    let number = read_decimal(rest, 65535)?;
    Some(Ask::Frontend(number as u16))
}

/// What is asked for after `ask backend`.
fn read_backend(rest: &[u8]) -> Option<Ask>
    ensures { result ≡ backend_asked (words_of rest.now) }
{
    if let Some((_last, _more)) = cut_word(rest) {
        return None;
    }
    let number = read_decimal(rest, 65535)?;
    Some(Ask::Backend(number as u16))
}

/// What is asked for after `ask server`.
fn read_server(rest: &[u8]) -> Option<Ask>
    ensures { result ≡ server_asked (words_of rest.now) }
{
    let (number, server) = cut_word(rest)?;
    if let Some((_last, _more)) = cut_word(server) {
        return None;
    }
    let number = read_decimal(number, 65535)?;
    let server = read_decimal(server, 65535)?;
    Some(Ask::Server(number as u16, server as u16))
}

/// What is asked for after `ask entry`.
fn read_entry(rest: &[u8]) -> Option<Ask>
    ensures { result ≡ entry_asked (words_of rest.now) }
{
    let (number, addr) = cut_word(rest)?;
    if let Some((_last, _more)) = cut_word(addr) {
        return None;
    }
    let number = read_decimal(number, 65535)?;
    let addr = read_addr(addr).ok()?;
    Some(Ask::Entry(number as u16, addr))
}

/// What is asked for after `ask`.
fn read_ask(rest: &[u8]) -> Option<Ask>
    ensures { result ≡ ask_of (words_of rest.now) }
{
    let (kind, rest) = cut_word(rest)?;
    if is(kind, b"frontend") {
        return read_frontend(rest);
    }
    if is(kind, b"backend") {
        return read_backend(rest);
    }
    if is(kind, b"server") {
        return read_server(rest);
    }
    if is(kind, b"entry") {
        return read_entry(rest);
    }
    None
}

fn event_request(line: &[u8], buffer: &mut [u8]) -> Option<Request>
    requires { length buffer.old ≡ PIECE_LIMIT }
    ensures request { option_map (wanted buffer.new) result ≡ option_map (λ head. Wanted.reply head) (head_of (words_of line.now)) }
    ensures lines { IfSome result IsCounted }
    ensures room { length buffer.new ≡ length buffer.old }
{
    let first = head_in(line, buffer)?;
    Some(Request::Event(first))
}

fn count_request(rest: &[u8]) -> Option<Request>
    ensures request { (buffer : List ℕ) → option_map (wanted buffer) result ≡ option_map (λ ask. Wanted.count ask) (ask_of (words_of rest.now)) }
    ensures lines { IfSome result IsCounted }
{
    let ask = read_ask(rest)?;
    Some(Request::Ask(ask))
}

/// What a line asks for. Only a line that begins with an `a` may ask for counts.
fn request_in(line: &[u8], buffer: &mut [u8]) -> Option<Request>
    requires { length buffer.old ≡ PIECE_LIMIT }
    ensures request { option_map (wanted buffer.new) result ≡ wanted_of (words_of line.now) }
    ensures lines { IfSome result IsCounted }
    ensures room { length buffer.new ≡ length buffer.old }
{
    if line.is_empty() || line[0] != b'a' {
        return event_request(line, buffer);
    }
    match cut_word(line) {
        Some((word, rest)) => {
            if is(word, b"ask") {
                return count_request(rest);
            }
            event_request(line, buffer)
        }
        None => None,
    }
}

/// What a line asks for. The bytes of a piece, which are at most `PIECE_LIMIT`, are read into the front of the
/// buffer, which has that length.
pub fn read_request(line: &[u8], buffer: &mut [u8]) -> Option<Request>
    requires { length buffer.old ≡ PIECE_LIMIT }
    ensures exact { option_map (wanted buffer.new) result ≡ wanted_of (words_of line.now) }
    ensures lines { IfSome result IsCounted }
    ensures room { length buffer.new ≡ length buffer.old }

    // The first line that writes an event hands it in.
    ensures again { (moment : ℕ) (event : OwnedEvent) → moment < 2 ^ 64 → IsHandedIn event →
        line.now ≡ event_line moment event → option_map (wanted buffer.new) result ≡ Some (Wanted.reply (head_written moment event)) }
{
    request_in(line, buffer)
}
