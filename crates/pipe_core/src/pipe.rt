//! One connection, from a reader to a writer.
ghost use Rattle.std.specs.Prelude.{◌≡◌, ◌≢◌, ◌⊎◌, ◌-◌, ◌≤◌, ◌++◌, ◌==◌, ℕ, List, length, take, drop, Some, None, Err, IfOk, IfErr, OnOk, OnErr};
ghost use Rattle.std.specs.List.{position};
ghost use Rattle.std.specs.Option.{option_and_then};
ghost use Rattle.std.specs.Str.{bytes_eq};
ghost use Rattle.device_core.specs.Device.{raised_by};
ghost use Rattle.device_core.specs.declared.patience.TheConstants.{MOST_READS};
ghost use Rattle.plan_types.specs.declared.plan.Plan.{Plan};
ghost use Rattle.conn_model.specs.History.{opening};
ghost use Rattle.config_core.specs.Meaning.{meaning};
ghost use Rattle.config_core.specs.declared.fault.OpenFault.{OpenFault};
ghost use Rattle.conn_core.specs.Machine.{IsOpened};
ghost use Rattle.pipe_core.specs.Devices.{EndsByDevice, GaveUp, HasGivenUp, IsSpent};
ghost use Rattle.pipe_core.specs.Stream.{ReadsAll, Delivery, DeliveryFront};
ghost use Rattle.pipe_core.specs.Pipe.{as_listener, frontend_of, listener_of, IsEnded, IsPiped, IsPipedFrom, IsStopped};

use crate::end::{PipeEnd, PipeFault};
use crate::header::{HeaderOffer, HeaderVerdict, judge};
use crate::stream::{pass_on, send};
use addr_core::Pair;
use conn_core::{Core, OpenFault};
use conn_model::plain::{FrontendRows, Listener};
use device_core::{Input, MOST_READS, Output};
use std::alloc::{AllocError, Global};

/// How many bytes are read at a time once the connection was offered a server, and kept at most.
const BUFFER_BYTES: usize = 32_768;

/// The number of the frontend of that name.
fn frontend_number(frontends: &[FrontendRows], name: &[u8]) -> Option<usize>
    ensures { result ≡ position (λ own. bytes_eq own.name name.now) frontends.now }
{
    frontends.iter().position(|own| own.name.as_slice() == name)
}

/// The number of the first listener of a frontend.
fn listener_number(listeners: &[Listener], frontend: usize) -> Option<usize>
    ensures { result ≡ position (λ listener. listener.frontend == frontend) listeners.now }
{
    listeners
        .iter()
        .position(|listener| usize::from(listener.frontend) == frontend)
}

/// The number as a listener's.
fn listener_id(number: usize) -> Option<u16>
    ensures { result ≡ as_listener number }
{
    if number < 65_536 {
        Some(number as u16)
    } else {
        None
    }
}

/// The first listener of a frontend.
fn listener_of_frontend(listeners: &[Listener], frontend: usize) -> Option<u16>
    ensures { result ≡ option_and_then as_listener (position (λ listener. listener.frontend == frontend) listeners.now) }
{
    let number = listener_number(listeners, frontend)?;
    listener_id(number)
}

/// The first listener of the frontend of that name: each frontend has one.
fn first_listener(core: &Core, name: &[u8]) -> Result<u16, PipeFault>
    requires opening { (plan : Plan) × (core.now ≡ opening plan 0) }
    ensures ok { IfOk result (λ listener. listener_of core.now name.now ≡ Some listener) }
    ensures err { IfErr result (λ f. (f ≡ PipeFault.NoMemory) ⊎ ((f ≡ PipeFault.NoFrontend) × (frontend_of core.now name.now ≡ None))) }
{
    let Ok(plain) = core.plain() else {
        return Err(PipeFault::NoMemory);
    };
    let Some(frontend) = frontend_number(plain.frontends.as_slice(), name) else {
        return Err(PipeFault::NoFrontend);
    };
    match listener_of_frontend(plain.listeners.as_slice(), frontend) {
        Some(listener) => Ok(listener),
        None => unreachable!(),
    }
}

/// Passes a connection on that was offered a server: what the server is sent first, the bytes that came with the
/// header, and all that the reader still gives. It says how many bytes these are.
fn serve<I: Input, O: Output>(
    offer: &HeaderOffer,
    reader: &mut I,
    writer: &mut O,
    buffer: &mut [u8],
    reads: &mut u32,
) -> Result<u64, PipeFault>
    requires room { length buffer.old ≡ BUFFER_BYTES }
    requires from { offer.now.from ≤ offer.now.to }
    requires to { offer.now.to ≤ length buffer.old }
    requires reads { reads.old ≤ MOST_READS }
    ensures ok { IfOk result (λ count. Delivery (I.left reader.old) (I.left reader.new) (O.held writer.old) (O.held writer.new) (offer.now.send.items ++ take (offer.now.to - offer.now.from) (drop offer.now.from buffer.old)) count) }
    ensures all { OnOk result (ReadsAll (I.left reader.old) (I.left reader.new)) }
    ensures err { OnErr result (DeliveryFront (I.left reader.old) (I.left reader.new) (O.held writer.old) (O.held writer.new) (offer.now.send.items ++ take (offer.now.to - offer.now.from) (drop offer.now.from buffer.old))) }
    ensures kind { IfErr result (λ f. (f ≡ PipeFault.Read) ⊎ (f ≡ PipeFault.Write)) }
    ensures calls { I.calls reader.new ≡ raised_by (reads.old - reads.new) (I.calls reader.old) }
    ensures no_more { reads.new ≤ reads.old }
    ensures spent { result ≡ Err PipeFault.Read → HasGivenUp (I.failures reader.old) (I.failures reader.new) (I.stalls reader.old) (I.stalls reader.new) reads.new }
    ensures gave_up { result ≡ Err PipeFault.Write → GaveUp (O.failures writer.old) (O.failures writer.new) (O.stalls writer.old) (O.stalls writer.new) }
{
    send(offer.send.as_slice(), writer)?;
    send(&buffer[offer.from..offer.to], writer)?;
    let before = offer.send.len() + (offer.to - offer.from);
    pass_on(reader, writer, buffer, reads, before as u64)
}

/// Judges the first connection of a frontend's first listener, and passes it on where it is offered a server.
fn pipe<I: Input, O: Output>(
    core: &mut Core,
    name: &[u8],
    real: Pair,
    reader: &mut I,
    writer: &mut O,
    buffer: &mut [u8],
) -> Result<PipeEnd, PipeFault>
    requires room { length buffer.old ≡ BUFFER_BYTES }
    requires opening { (plan : Plan) × (core.old ≡ opening plan 0) }
    ensures ok { IfOk result (λ end. (input sent : List ℕ) → I.left reader.old ≡ Some input → O.held writer.old ≡ Some sent →
        IsPipedFrom core.old name.now real input sent (I.left reader.new) (O.held writer.new) end) }
    ensures early_end { IfErr result (λ f. (input sent : List ℕ) → I.left reader.old ≡ Some input → O.held writer.old ≡ Some sent →
        IsStopped core.old name.now real input sent (I.left reader.new) (O.held writer.new) f) }
    ensures calls { (n : ℕ) × (n ≤ MOST_READS) × (I.calls reader.new ≡ raised_by n (I.calls reader.old)) }
    ensures devices { EndsByDevice result I.calls I.failures I.stalls reader.old reader.new
        O.failures O.stalls writer.old writer.new }
    ensures not_config { (o : OpenFault) → result ≢ Err (PipeFault.Config o) }
{
    let listener = first_listener(core, name)?;
    let mut reads = MOST_READS;
    match judge(core, listener, real, reader, buffer, &mut reads)? {
        HeaderVerdict::Offered(offer) => {
            let written = serve(&offer, reader, writer, buffer, &mut reads)?;
            Ok(PipeEnd::Offered(written))
        }
        HeaderVerdict::Refused(cause) => Ok(PipeEnd::Refused(cause)),
        HeaderVerdict::Unfinished => Ok(PipeEnd::Unfinished),
    }
}

/// A core on the configuration.
fn open_core(alloc: Global, config: &str) -> Result<Core, PipeFault>
    ensures ok { IfOk result (λ core. IsOpened config.now 0 core) }
    ensures fault { IfErr result (λ f. (f ≡ PipeFault.NoMemory) ⊎ ((o : OpenFault) × (f ≡ PipeFault.Config o) × (meaning config.now ≡ Err o))) }
{
    match Core::open(alloc, config) {
        Ok(core) => Ok(core),
        Err(OpenFault::NoMemory) => Err(PipeFault::NoMemory),
        Err(fault) => Err(PipeFault::Config(fault)),
    }
}

fn pipe_buffer(alloc: Global) -> Result<Vec<u8>, AllocError>
    ensures { IfOk result (λ buffer. length buffer.items ≡ BUFFER_BYTES) }
{
    Ok(vec![in alloc; 0; BUFFER_BYTES]?)
}

/// Opens a core on the configuration and sends it one connection: that of a pair which comes to the first `bind` of
/// the frontend of that name, at moment 0, and whose bytes the reader gives. Where it is offered a server, what the
/// server gets is written: the header that it is sent, and the connection's bytes after its own header. At most
/// `device_core::MOST_READS` reads are made.
pub fn run_pipe<I: Input, O: Output>(
    alloc: Global,
    config: &str,
    name: &[u8],
    real: Pair,
    reader: &mut I,
    writer: &mut O,
) -> Result<PipeEnd, PipeFault>
    // It ends as the definition says of the input, and what was written is what the server gets of it.
    ensures ok { IfOk result (λ end. (input sent : List ℕ) → I.left reader.old ≡ Some input → O.held writer.old ≡ Some sent →
        IsPiped config.now name.now real input sent (I.left reader.new) (O.held writer.new) end) }

    // After a fault it is a front of that, by what was read.
    ensures early_end { IfErr result (λ f. (input sent : List ℕ) → I.left reader.old ≡ Some input → O.held writer.old ≡ Some sent →
        IsEnded config.now name.now real input sent (I.left reader.new) (O.held writer.new) f) }

    // The devices give up before the call does.
    ensures calls { (n : ℕ) × (n ≤ MOST_READS) × (I.calls reader.new ≡ raised_by n (I.calls reader.old)) }
    ensures spent { result ≡ Err PipeFault.Read → IsSpent (I.failures reader.old) (I.failures reader.new) (I.stalls reader.old) (I.stalls reader.new) (I.calls reader.old) (I.calls reader.new) }
    ensures gave_up { result ≡ Err PipeFault.Write → GaveUp (O.failures writer.old) (O.failures writer.new) (O.stalls writer.old) (O.stalls writer.new) }
{
    let Ok(mut buffer) = pipe_buffer(alloc) else {
        return Err(PipeFault::NoMemory);
    };
    let mut core = match open_core(alloc, config) {
        Ok(core) => core,
        Err(fault) => return Err(fault),
    };
    let end = pipe(&mut core, name, real, reader, writer, &mut buffer);
    core.end();
    end
}
