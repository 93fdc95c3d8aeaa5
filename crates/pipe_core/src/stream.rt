//! Bytes that are read and written.
ghost use Rattle.std.specs.Prelude.{◌≡◌, ◌≢◌, ◌⊎◌, ◌+◌, ◌-◌, ◌*◌, ◌^◌, ◌<◌, ◌≤◌, ℕ, List, length, take, Err, IfOk, IfErr, OnOk, OnErr};
ghost use Rattle.std.specs.Io.KnownBytes.{Appends};
ghost use Rattle.device_core.specs.Device.{Reads, raised, raised_by};
ghost use Rattle.device_core.specs.Patience.{IsUnblocked, IsWornOut};
ghost use Rattle.pipe_core.specs.Devices.{GaveUp, HasGivenUp, Gives};
ghost use Rattle.pipe_core.specs.Stream.{Carried, Dropped, ReadsAll};

use crate::end::PipeFault;
use device_core::{Failed, Input, Moved, Output, read_on, write_all};

/// Reads until the reader gives bytes or is at its end.
pub fn receive<I: Input>(
    reader: &mut I,
    buffer: &mut [u8],
    reads: &mut u32,
) -> Result<Moved, PipeFault>
    requires { 0 < length buffer.old }
    ensures moved { Gives result (I.left reader.old) (I.left reader.new) buffer.new }
    ensures kind { IfErr result (λ f. f ≡ PipeFault.Read) }
    ensures room { length buffer.new ≡ length buffer.old }
    ensures failures { OnOk result (I.failures reader.new ≡ I.failures reader.old) }
    ensures stalls { OnOk result (I.stalls reader.new ≡ 0) }
    ensures spent { OnErr result (HasGivenUp (I.failures reader.old) (I.failures reader.new) (I.stalls reader.old) (I.stalls reader.new) reads.new) }
    ensures calls { I.calls reader.new ≡ raised_by (reads.old - reads.new) (I.calls reader.old) }
    ensures no_more { reads.new ≤ reads.old }
    ensures fewer { OnOk result (reads.new < reads.old) }
{
    match read_on(reader, buffer, reads) {
        Ok(moved) => Ok(moved),
        Err(Failed) => Err(PipeFault::Read),
    }
}

/// Writes all of some bytes.
pub fn send<O: Output>(bytes: &[u8], writer: &mut O) -> Result<(), PipeFault>
    ensures ok { OnOk result (Appends (O.held writer.old) (O.held writer.new) bytes.now) }
    ensures failures { OnOk result (O.failures writer.new ≡ O.failures writer.old) }
    ensures stalls { OnOk result (IsUnblocked (O.stalls writer.old) (O.stalls writer.new)) }
    ensures kind { IfErr result (λ f. f ≡ PipeFault.Write) }
    ensures err { OnErr result ((n : ℕ) × (n < length bytes.now) × Appends (O.held writer.old) (O.held writer.new) (take n bytes.now)) }
    ensures gave_up { OnErr result (GaveUp (O.failures writer.old) (O.failures writer.new) (O.stalls writer.old) (O.stalls writer.new)) }
{
    match write_all(writer, bytes) {
        Ok(()) => Ok(()),
        Err(Failed) => Err(PipeFault::Write),
    }
}

/// Writes all that the reader still gives, and says how many bytes were written, those before included. Each
/// read is written before the next one is made.
pub fn pass_on<I: Input, O: Output>(
    reader: &mut I,
    writer: &mut O,
    buffer: &mut [u8],
    reads: &mut u32,
    before: u64,
) -> Result<u64, PipeFault>
    requires some { 0 < length buffer.old }
    requires fits { before + reads.old * length buffer.old < 2 ^ 64 }
    ensures ok { IfOk result (λ count. Carried (I.left reader.old) (I.left reader.new) (O.held writer.old) (O.held writer.new) before count) }
    ensures all { OnOk result (ReadsAll (I.left reader.old) (I.left reader.new)) }
    ensures err { OnErr result (Dropped (I.left reader.old) (I.left reader.new) (O.held writer.old) (O.held writer.new)) }
    ensures kind { IfErr result (λ f. (f ≡ PipeFault.Read) ⊎ (f ≡ PipeFault.Write)) }
    ensures calls { I.calls reader.new ≡ raised_by (reads.old - reads.new) (I.calls reader.old) }
    ensures no_more { reads.new ≤ reads.old }
    ensures spent { result ≡ Err PipeFault.Read → HasGivenUp (I.failures reader.old) (I.failures reader.new) (I.stalls reader.old) (I.stalls reader.new) reads.new }
    ensures gave_up { result ≡ Err PipeFault.Write → GaveUp (O.failures writer.old) (O.failures writer.new) (O.stalls writer.old) (O.stalls writer.new) }
{
    let mut written = before;
    loop {
        match receive(reader, buffer, reads)? {
            Moved::End => return Ok(written),
            Moved::Bytes(count) => {
                send(&buffer[..count], writer)?;
                written += count as u64;
            }
        }
    }
}
