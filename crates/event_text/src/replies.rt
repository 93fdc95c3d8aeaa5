//! Replies and counts as lines.
ghost use Rattle.std.specs.Prelude.{◌≡◌, ◌≤◌, ◌++◌, ◌∷◌, [], length, codes, OnOk};
ghost use Rattle.std.specs.List.{flat_map};
ghost use Rattle.text_core.specs.Decimal.{decimal};
ghost use Rattle.addr_core.specs.Text.{endpoint_text, text_of};
ghost use Rattle.config_core.specs.Names.{open_text};
ghost use Rattle.event_text.specs.declared.short.TheConstants.{MOST_WORD_BYTES};
ghost use Rattle.event_text.specs.Script.{bytes_text, health_text, id_text, why_text};
ghost use Rattle.event_text.specs.Replies.{cause_text, count_line, fault_line, fault_name, header_fault_text, reply_line, reply_text, said_text, track_text};

use crate::digits::write_header;
use crate::short::{
    MOST_WORD_BYTES, is_short, short_place, write_short_accept, write_short_addr,
    write_short_ended, write_short_named, write_short_offer, write_short_place, write_short_track,
};
use addr_core::{Addr, Endpoint, Pair};
use config_core::OpenFault;
use conn_model::ask::{Ask, Counts};
use conn_model::event::{ConnId, Health, Why};
use conn_model::reply::{Cause, Reply, Said, StepFault};
use plan_types::Track;
use pp_any::HeaderFault;
use std::alloc::{AllocError, Global};
use text_core::decimal::append_decimal;

pub fn write_text(out: &mut Vec<u8>, text: &[u8]) -> Result<(), AllocError>
    ensures { OnOk result (out.new.items ≡ out.old.items ++ text.now) }
{
    out.extend_from_slice(text)
}

pub fn write_byte(out: &mut Vec<u8>, byte: u8) -> Result<(), AllocError>
    ensures { OnOk result (out.new.items ≡ out.old.items ++ byte ∷ []) }
{
    out.push(byte)?;
    Ok(())
}

/// A word and the name of a connection after it.
pub fn write_named(out: &mut Vec<u8>, name: &[u8], id: &ConnId) -> Result<(), AllocError>
    requires { length name.now ≤ MOST_WORD_BYTES }
    ensures { OnOk result (out.new.items ≡ out.old.items ++ (name.now ++ id_text id.now)) }
{
    if is_short(id.serial) {
        return write_short_named(out, name, id);
    }
    write_text(out, name)?;
    write_id(out, id)
}

/// A word, the name of a connection after it, and why it ended.
pub fn write_ended(out: &mut Vec<u8>, name: &[u8], id: &ConnId, why: &Why) -> Result<(), AllocError>
    requires { length name.now ≤ MOST_WORD_BYTES }
    ensures { OnOk result (out.new.items
        ≡ out.old.items ++ (name.now ++ id_text id.now ++ codes " " ++ why_text why.now)) }
{
    if is_short(id.serial) {
        return write_short_ended(out, name, id, why_word(why));
    }
    write_named(out, name, id)?;
    write_byte(out, b' ')?;
    write_why(out, why)
}

/// The listener of an accept, the client and the local end of its connection.
pub fn write_accept(out: &mut Vec<u8>, listener: u16, real: &Pair) -> Result<(), AllocError>
    ensures { OnOk result (out.new.items ≡ out.old.items ++ (codes " accept " ++ decimal listener
        ++ codes " " ++ endpoint_text real.now.source
        ++ codes " " ++ endpoint_text real.now.destination)) }
{
    let (peer, local) = (real.source(), real.destination());
    if let (Some(from), Some(to)) = (short_place(&peer), short_place(&local)) {
        return write_short_accept(out, listener, from, to);
    }
    write_field(out, b" accept ", u64::from(listener))?;
    write_place(out, b" ", &peer)?;
    write_place(out, b" ", &local)
}

fn write_addr(out: &mut Vec<u8>, addr: &Addr) -> Result<(), AllocError>
    ensures { OnOk result (out.new.items ≡ out.old.items ++ text_of addr.now) }
{
    match *addr {
        Addr::V4(number) => write_short_addr(out, number),
        Addr::V6(_) => write_text(out, addr_core::write_addr(addr).as_str().as_bytes()),
    }
}

/// An IPv6 address in brackets.
fn write_bracketed(out: &mut Vec<u8>, addr: &Addr) -> Result<(), AllocError>
    ensures { OnOk result (out.new.items ≡ out.old.items ++ (codes "[" ++ text_of addr.now ++ codes "]")) }
{
    write_byte(out, b'[')?;
    write_addr(out, addr)?;
    write_byte(out, b']')
}

pub fn write_endpoint(out: &mut Vec<u8>, endpoint: &Endpoint) -> Result<(), AllocError>
    ensures { OnOk result (out.new.items ≡ out.old.items ++ endpoint_text endpoint.now) }
{
    write_place(out, b"", endpoint)
}

pub fn write_id(out: &mut Vec<u8>, id: &ConnId) -> Result<(), AllocError>
    ensures { OnOk result (out.new.items ≡ out.old.items ++ id_text id.now) }
{
    append_decimal(out, u64::from(id.frontend))?;
    write_byte(out, b'.')?;
    append_decimal(out, id.serial)
}

fn why_word(why: &Why) -> &'static [u8]
    ensures word { result.now ≡ why_text why.now }
    ensures fits { length result.now ≤ MOST_WORD_BYTES }
{
    match *why {
        Why::Done => b"done",
        Why::Fault => b"fault",
        Why::Stopped => b"stopped",
        Why::Failed => b"failed",
        Why::ClientTimeout => b"client-timeout",
        Why::ServerTimeout => b"server-timeout",
    }
}

/// Writes how a server was reported.
pub fn write_health(out: &mut Vec<u8>, health: Health) -> Result<(), AllocError>
    ensures { OnOk result (out.new.items ≡ out.old.items ++ health_text health) }
{
    match health {
        Health::Down => write_text(out, b"down"),
        Health::Up => write_text(out, b"up"),
    }
}

pub fn write_why(out: &mut Vec<u8>, why: &Why) -> Result<(), AllocError>
    ensures { OnOk result (out.new.items ≡ out.old.items ++ why_text why.now) }
{
    write_text(out, why_word(why))
}

/// A word and a number after it.
pub fn write_field(out: &mut Vec<u8>, name: &[u8], number: u64) -> Result<(), AllocError>
    ensures { OnOk result (out.new.items ≡ out.old.items ++ (name.now ++ decimal number)) }
{
    write_text(out, name)?;
    append_decimal(out, number)
}

/// A word and an endpoint after it.
pub fn write_place(out: &mut Vec<u8>, name: &[u8], endpoint: &Endpoint) -> Result<(), AllocError>
    requires { length name.now ≤ MOST_WORD_BYTES }
    ensures { OnOk result (out.new.items ≡ out.old.items ++ (name.now ++ endpoint_text endpoint.now)) }
{
    match endpoint.addr {
        Addr::V4(number) => write_short_place(out, name, number, endpoint.port),
        Addr::V6(_) => {
            write_text(out, name)?;
            write_bracketed(out, &endpoint.addr)?;
            write_field(out, b":", u64::from(endpoint.port))
        }
    }
}

fn write_header_fault(out: &mut Vec<u8>, fault: HeaderFault) -> Result<(), AllocError>
    ensures { OnOk result (out.new.items ≡ out.old.items ++ (codes "header " ++ header_fault_text fault)) }
{
    write_text(out, b"header ")?;
    match fault {
        HeaderFault::NotProxy => write_text(out, b"NotProxy"),
        HeaderFault::TooLong => write_text(out, b"TooLong"),
        HeaderFault::BadLine => write_text(out, b"BadLine"),
        HeaderFault::BadAddress => write_text(out, b"BadAddress"),
        HeaderFault::BadPort => write_text(out, b"BadPort"),
        HeaderFault::BadVersion => write_text(out, b"BadVersion"),
        HeaderFault::BadCommand => write_text(out, b"BadCommand"),
        HeaderFault::BadFamily => write_text(out, b"BadFamily"),
        HeaderFault::ShortBlock => write_text(out, b"ShortBlock"),
    }
}

pub fn write_cause(out: &mut Vec<u8>, cause: &Cause) -> Result<(), AllocError>
    ensures { OnOk result (out.new.items ≡ out.old.items ++ cause_text cause.now) }
{
    match *cause {
        Cause::Line(line) => write_field(out, b"line ", u64::from(line)),
        Cause::Header(fault) => write_header_fault(out, fault),
        Cause::Expired => write_text(out, b"expired"),
        Cause::NoBackend(line) => write_field(out, b"nobackend line ", u64::from(line)),
        Cause::NoServer(line) => write_field(out, b"noserver line ", u64::from(line)),
    }
}

/// The front of the line of an offer.
fn write_given(out: &mut Vec<u8>, id: &ConnId, used: u64, line: u32) -> Result<(), AllocError>
    ensures { OnOk result (out.new.items ≡ out.old.items
        ++ (codes "offer " ++ id_text id.now
        ++ codes " used " ++ decimal used ++ codes " line " ++ decimal line)) }
{
    write_named(out, b"offer ", id)?;
    write_field(out, b" used ", used)?;
    write_field(out, b" line ", u64::from(line))
}

/// The endpoints of an offer.
fn write_places(out: &mut Vec<u8>, to: &Endpoint, judged: &Pair) -> Result<(), AllocError>
    ensures { OnOk result (out.new.items ≡ out.old.items ++ (codes " to " ++ endpoint_text to.now ++ codes " src " ++ endpoint_text judged.now.source ++ codes " dst " ++ endpoint_text judged.now.destination)) }
{
    write_place(out, b" to ", to)?;
    write_place(out, b" src ", &judged.source())?;
    write_place(out, b" dst ", &judged.destination())
}

/// The line of an offer up to the bytes that are sent.
fn write_offer(
    out: &mut Vec<u8>,
    id: &ConnId,
    used: u64,
    line: u32,
    to: &Endpoint,
    judged: &Pair,
) -> Result<(), AllocError>
    ensures { OnOk result (out.new.items ≡ out.old.items
        ++ (codes "offer " ++ id_text id.now
        ++ codes " used " ++ decimal used ++ codes " line " ++ decimal line
        ++ codes " to " ++ endpoint_text to.now ++ codes " src " ++ endpoint_text judged.now.source
        ++ codes " dst " ++ endpoint_text judged.now.destination ++ codes " send ")) }
{
    if is_short(id.serial) && is_short(used) && is_short(u64::from(line)) {
        let ends = (judged.source(), judged.destination());
        if let (Some(to), Some(source), Some(destination)) = (
            short_place(to),
            short_place(&ends.0),
            short_place(&ends.1),
        ) {
            return write_short_offer(out, id, used as u16, line as u16, to, source, destination);
        }
    }
    write_given(out, id, used, line)?;
    write_places(out, to, judged)?;
    write_text(out, b" send ")
}

fn write_said(out: &mut Vec<u8>, said: &Said) -> Result<(), AllocError>
    ensures { OnOk result (out.new.items ≡ out.old.items ++ said_text said.now) }
{
    match said {
        Said::Wait { id, used } => {
            write_named(out, b"wait ", id)?;
            write_field(out, b" used ", *used)
        }
        Said::Offer {
            id,
            used,
            line,
            server: _,
            to,
            judged,
            send,
        } => {
            write_offer(out, id, *used, *line, to, judged)?;
            write_header(out, send.as_slice())
        }
        Said::Refuse { id, used, cause } => {
            write_named(out, b"refuse ", id)?;
            write_field(out, b" used ", *used)?;
            write_byte(out, b' ')?;
            write_cause(out, cause)
        }
        Said::Up { id } => { write_named(out, b"up ", id) }
        Said::Closed { id, why } => write_ended(out, b"closed ", id, why),
        Said::Reloaded { version } => write_field(out, b"reloaded ", *version),
        Said::Marked { line, health } => {
            write_field(out, b"marked line ", u64::from(*line))?;
            write_text(out, b" ")?;
            write_health(out, *health)
        }
    }
}

fn write_track(out: &mut Vec<u8>, track: &Track) -> Result<(), AllocError>
    ensures { OnOk result (out.new.items ≡ out.old.items ++ track_text track.now) }
{
    let version = track.table.version;
    if let Addr::V4(number) = track.key {
        if is_short(version) {
            return write_short_track(out, track, version as u16, number);
        }
    }
    write_field(out, b" sc", u64::from(track.counter))?;
    write_field(out, b"=", track.table.version)?;
    write_field(out, b".", u64::from(track.table.position))?;
    write_text(out, b"/")?;
    write_addr(out, &track.key)
}

fn write_tracks(out: &mut Vec<u8>, tracks: &[Track]) -> Result<(), AllocError>
    ensures { OnOk result (out.new.items ≡ out.old.items ++ flat_map track_text tracks.now) }
{
    for track in tracks {
        write_track(out, track)?;
    }
    Ok(())
}

/// Appends a reply, without the end of its line. Where memory runs out, the front of it may be there.
pub fn write_reply_text(out: &mut Vec<u8>, reply: &Reply) -> Result<(), AllocError>
    ensures { OnOk result (out.new.items ≡ out.old.items ++ reply_text reply.now) }
{
    write_said(out, &reply.said)?;
    write_tracks(out, reply.tracks.as_slice())
}

/// Appends the line of a reply. Where memory runs out, the front of that line may be there.
pub fn write_reply(out: &mut Vec<u8>, reply: &Reply) -> Result<(), AllocError>
    ensures { OnOk result (out.new.items ≡ out.old.items ++ reply_line reply.now) }
{
    write_said(out, &reply.said)?;
    write_tracks(out, reply.tracks.as_slice())?;
    write_byte(out, b'\n')
}

/// Appends the line of counts that were asked for, or of no such thing. Where memory runs out, the front
/// of that line may be there.
pub fn write_counts(out: &mut Vec<u8>, ask: &Ask, counts: Option<Counts>) -> Result<(), AllocError>
    ensures { OnOk result (out.new.items ≡ out.old.items ++ count_line ask.now counts) }
{
    let Some(counts) = counts else {
        return write_text(out, b"count none\n");
    };
    match *ask {
        Ask::Frontend(_) | Ask::Backend(_) | Ask::Server(_, _) => {
            write_field(out, b"count ", counts.cur)?;
            write_text(out, b"\n")
        }
        Ask::Entry(_, _) => {
            write_field(out, b"count ", counts.cur)?;
            write_field(out, b" ", counts.cnt)?;
            write_text(out, b"\n")
        }
    }
}

/// Why a configuration is refused.
fn write_refusal(alloc: Global, out: &mut Vec<u8>, fault: &OpenFault) -> Result<(), AllocError>
    ensures { OnOk result (out.new.items ≡ out.old.items ++ (codes "BadConfig " ++ open_text fault.now)) }
{
    let text = format!(in alloc; "BadConfig {}", *fault)?;
    write_text(out, text.as_str().as_bytes())
}

fn write_name(alloc: Global, out: &mut Vec<u8>, fault: &StepFault) -> Result<(), AllocError>
    ensures { OnOk result (out.new.items ≡ out.old.items ++ fault_name fault.now) }
{
    match fault {
        StepFault::NoListener => write_text(out, b"NoListener"),
        StepFault::NoSuch => write_text(out, b"NoSuch"),
        StepFault::NotWaiting => write_text(out, b"NotWaiting"),
        StepFault::NotOffered => write_text(out, b"NotOffered"),
        StepFault::NotDue => write_text(out, b"NotDue"),
        StepFault::NotChecked => write_text(out, b"NotChecked"),
        StepFault::BadConfig(refusal) => write_refusal(alloc, out, refusal),
        StepFault::BindChanged => write_text(out, b"BindChanged"),
        StepFault::Exhausted => write_text(out, b"Exhausted"),
        StepFault::NoMemory => write_text(out, b"NoMemory"),
    }
}

/// Appends the line of a refused step. Where memory runs out, the front of that line may be there.
pub fn write_fault(alloc: Global, out: &mut Vec<u8>, fault: &StepFault) -> Result<(), AllocError>
    ensures { OnOk result (out.new.items ≡ out.old.items ++ fault_line fault.now) }
{
    write_text(out, b"fault ")?;
    write_name(alloc, out, fault)?;
    write_text(out, b"\n")
}
