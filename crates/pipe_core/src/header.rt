//! A connection is judged, once its PROXY header came where one is expected.
ghost use Rattle.std.specs.Prelude.{◌≡◌, ◌⊎◌, ◌-◌, ◌<◌, ◌≤◌, ℕ, List, [], length, Some, Err, IfOk, IfErr, OnOk, OnErr};
ghost use Rattle.device_core.specs.Device.{raised_by};
ghost use Rattle.device_core.specs.Patience.{IsUnblocked};
ghost use Rattle.plan_types.specs.declared.plan.Plan.{Plan};
ghost use Rattle.conn_model.specs.declared.event.OwnedEvent.TheVariants as owned;
ghost use Rattle.conn_model.specs.declared.event.TheConstants.{PIECE_LIMIT};
ghost use Rattle.conn_model.specs.declared.plain.Plain.{Plain};
ghost use Rattle.conn_model.specs.Answer.{answer_in};
ghost use Rattle.conn_model.specs.History.{opening};
ghost use Rattle.pipe_core.specs.Devices.{Gives, GivesAtMost, HasGivenUp};
ghost use Rattle.pipe_core.specs.Judged.{Decides, IsJudged, IsWithin, HasNoOffer};
ghost use Rattle.pipe_core.specs.Pipe.{listener_of, said_to};
ghost use Rattle.pipe_core.specs.Waiting.{Holds, Waits};

use crate::end::PipeFault;
use crate::stream::receive;
use addr_core::Pair;
use arrayvec::ArrayVec;
use conn_core::Core;
use conn_model::event::{ConnId, Event};
use conn_model::reply::{Cause, Reply, Said, StepFault};
use device_core::{Input, Moved, PIECE_BYTES};
use pp_v1::LINE_LIMIT;

/// What a piece of a header decides.
#[derive(Drop)]
pub enum Judgement {
    /// The header goes on.
    Wait,
    /// The connection is offered a server, which is sent these bytes first.
    Offered {
        send: ArrayVec<u8, LINE_LIMIT>,
        /// How many bytes of the piece belong to the header.
        used: usize,
    },
    Refused(Cause),
}

/// What became of a connection.
#[derive(Drop)]
pub enum HeaderVerdict {
    Offered(HeaderOffer),
    Refused(Cause),
    /// The input ended in the header.
    Unfinished,
}

/// A server for a connection.
#[derive(Drop)]
pub struct HeaderOffer {
    /// What the server is sent first.
    pub send: ArrayVec<u8, LINE_LIMIT>,
    /// Where in the buffer the bytes begin that came with the header, after it.
    pub from: usize,
    /// Where they end.
    pub to: usize,
}

/// The only fault of a step that has a reply.
fn lack_of_memory(fault: StepFault) -> PipeFault
    requires { fault ≡ StepFault.NoMemory }
    ensures { result ≡ PipeFault.NoMemory }
{
    match fault {
        StepFault::NoMemory => PipeFault::NoMemory,
        _ => unreachable!(),
    }
}

/// Hands in one piece of a header.
fn judge_piece(core: &mut Core, id: ConnId, piece: &[u8]) -> Result<Judgement, PipeFault>
    requires waits { (got : List ℕ) × Holds core.old id got }
    requires piece { length piece.now ≤ PIECE_LIMIT }
    ensures decides { IfOk result (λ j. (first : Plain) (got : List ℕ) → Waits first id core.old got → Decides first id got piece.now core.new j) }
    ensures within { IfOk result (IsWithin piece.now) }
    ensures no_memory { IfErr result (λ f. f ≡ PipeFault.NoMemory) }
{
    let reply = match core.step(0, &Event::Piece(id, piece)) {
        Ok(reply) => reply,
        Err(fault) => return Err(lack_of_memory(fault)),
    };
    let Reply {
        said,
        tracks: _tracks,
    } = reply;
    match said {
        Said::Wait { .. } => Ok(Judgement::Wait),
        Said::Offer { send, used, .. } => Ok(Judgement::Offered {
            send,
            used: used as usize,
        }),
        Said::Refuse { cause, .. } => Ok(Judgement::Refused(cause)),
        Said::Up { .. } | Said::Closed { .. } | Said::Reloaded { .. } | Said::Marked { .. } => {
            unreachable!()
        }
    }
}

/// Reads the next piece of a header to the front of the buffer.
fn receive_piece<I: Input>(
    reader: &mut I,
    buffer: &mut [u8],
    reads: &mut u32,
) -> Result<Moved, PipeFault>
    requires { 0 < length buffer.old }
    ensures moved { Gives result (I.left reader.old) (I.left reader.new) buffer.new }
    ensures few { GivesAtMost PIECE_BYTES result }
    ensures kind { IfErr result (λ f. f ≡ PipeFault.Read) }
    ensures room { length buffer.new ≡ length buffer.old }
    ensures failures { OnOk result (I.failures reader.new ≡ I.failures reader.old) }
    ensures stalls { OnOk result (I.stalls reader.new ≡ 0) }
    ensures spent { OnErr result (HasGivenUp (I.failures reader.old) (I.failures reader.new) (I.stalls reader.old) (I.stalls reader.new) reads.new) }
    ensures calls { I.calls reader.new ≡ raised_by (reads.old - reads.new) (I.calls reader.old) }
    ensures no_more { reads.new ≤ reads.old }
    ensures fewer { OnOk result (reads.new < reads.old) }
{
    let most = buffer.len().min(PIECE_BYTES);
    receive(reader, &mut buffer[..most], reads)
}

/// Reads a header piece by piece, and hands it in.
fn judge_header<I: Input>(
    core: &mut Core,
    id: ConnId,
    reader: &mut I,
    buffer: &mut [u8],
    reads: &mut u32,
) -> Result<HeaderVerdict, PipeFault>
    requires room { 0 < length buffer.old }
    requires waits { Holds core.old id [] }
    ensures ok { IfOk result (λ verdict. IsJudged (λ bytes. answer_in core.old 0 (owned.Piece id bytes)) (I.left reader.old) (I.left reader.new) buffer.new verdict) }
    ensures read { result ≡ Err PipeFault.Read → HasNoOffer (λ bytes. answer_in core.old 0 (owned.Piece id bytes)) (I.left reader.old) (I.left reader.new) }
    ensures kind { IfErr result (λ f. (f ≡ PipeFault.Read) ⊎ (f ≡ PipeFault.NoMemory)) }
    ensures room { length buffer.new ≡ length buffer.old }
    ensures calls { I.calls reader.new ≡ raised_by (reads.old - reads.new) (I.calls reader.old) }
    ensures no_more { reads.new ≤ reads.old }
    ensures failures { OnOk result (I.failures reader.new ≡ I.failures reader.old) }
    ensures stalls { OnOk result (IsUnblocked (I.stalls reader.old) (I.stalls reader.new)) }
    ensures spent { result ≡ Err PipeFault.Read → HasGivenUp (I.failures reader.old) (I.failures reader.new) (I.stalls reader.old) (I.stalls reader.new) reads.new }
{
    loop {
        let Moved::Bytes(count) = receive_piece(reader, buffer, reads)? else {
            return Ok(HeaderVerdict::Unfinished);
        };
        match judge_piece(core, id, &buffer[..count])? {
            Judgement::Wait => {}
            Judgement::Offered { send, used } => {
                return Ok(HeaderVerdict::Offered(HeaderOffer {
                    send,
                    from: used,
                    to: count,
                }));
            }
            Judgement::Refused(cause) => return Ok(HeaderVerdict::Refused(cause)),
        }
    }
}

/// Judges the first connection of a listener. Its bytes are read as far as its header needs them.
pub fn judge<I: Input>(
    core: &mut Core,
    listener: u16,
    real: Pair,
    reader: &mut I,
    buffer: &mut [u8],
    reads: &mut u32,
) -> Result<HeaderVerdict, PipeFault>
    requires room { 0 < length buffer.old }
    requires opening { (plan : Plan) × (core.old ≡ opening plan 0) }
    requires listens { (name : List ℕ) × (listener_of core.old name ≡ Some listener) }
    ensures ok { IfOk result (λ verdict. IsJudged (said_to core.old listener real) (I.left reader.old) (I.left reader.new) buffer.new verdict) }
    ensures read { result ≡ Err PipeFault.Read → HasNoOffer (said_to core.old listener real) (I.left reader.old) (I.left reader.new) }
    ensures kind { IfErr result (λ f. (f ≡ PipeFault.Read) ⊎ (f ≡ PipeFault.NoMemory)) }
    ensures room { length buffer.new ≡ length buffer.old }
    ensures calls { I.calls reader.new ≡ raised_by (reads.old - reads.new) (I.calls reader.old) }
    ensures no_more { reads.new ≤ reads.old }
    ensures failures { OnOk result (I.failures reader.new ≡ I.failures reader.old) }
    ensures stalls { OnOk result (IsUnblocked (I.stalls reader.old) (I.stalls reader.new)) }
    ensures spent { result ≡ Err PipeFault.Read → HasGivenUp (I.failures reader.old) (I.failures reader.new) (I.stalls reader.old) (I.stalls reader.new) reads.new }
{
    let reply = match core.step(0, &Event::Accept(listener, real)) {
        Ok(reply) => reply,
        Err(fault) => return Err(lack_of_memory(fault)),
    };
    let Reply {
        said,
        tracks: _tracks,
    } = reply;
    match said {
        Said::Wait { id, .. } => judge_header(core, id, reader, buffer, reads),
        Said::Offer { send, .. } => Ok(HeaderVerdict::Offered(HeaderOffer {
            send,
            from: 0,
            to: 0,
        })),
        Said::Refuse { cause, .. } => Ok(HeaderVerdict::Refused(cause)),
        Said::Up { .. } | Said::Closed { .. } | Said::Reloaded { .. } | Said::Marked { .. } => {
            unreachable!()
        }
    }
}
