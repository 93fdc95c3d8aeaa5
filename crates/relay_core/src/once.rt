//! One call of a device, and what it is called in a flow.
ghost use Rattle.std.specs.Prelude.{◌≡◌, ◌<◌, ◌≤◌, true, length, take};
ghost use Rattle.std.specs.Io.KnownBytes.{Consumes, Appends};
ghost use Rattle.device_core.specs.Device.{raised};
ghost use Rattle.relay_core.specs.Flow.{IsReadAnswer, read_in, fill_failures, fill_stalls, IsWriteAnswer, drained_count, drain_calls, drain_failures, drain_stalls};

use crate::flow::{Drained, Filled, FlowFault};
use device_core::{Got, Input, Output, Put};

/// Reads once, into the front of the piece.
pub(crate) fn read_front<I: Input>(
    reader: &mut I,
    piece: &mut [u8],
    most: usize,
) -> Result<Filled, FlowFault>
    requires some { 0 < most }
    requires fits { most ≤ length piece.old }
    ensures answer { IsReadAnswer most (I.left reader.old) result }
    ensures read { Consumes (I.left reader.old) (I.left reader.new) (read_in result piece.new) }
    ensures calls { I.calls reader.new ≡ raised (I.calls reader.old) }
    ensures failures { I.failures reader.new ≡ fill_failures result (I.failures reader.old) }
    ensures stalls { I.stalls reader.new ≡ fill_stalls true result (I.stalls reader.old) }
{
    match reader.read(&mut piece[..most]) {
        Ok(Got::Bytes(count)) => Ok(Filled::Bytes(count)),
        Ok(Got::End) => Ok(Filled::End),
        Ok(Got::Blocked) => Ok(Filled::Blocked),
        Err(_) => Err(FlowFault::Read),
    }
}

/// Writes once, the bytes from the first on.
pub(crate) fn write_once<O: Output>(writer: &mut O, bytes: &[u8]) -> Result<Drained, FlowFault>
    requires { 0 < length bytes.now }
    ensures answer { IsWriteAnswer (length bytes.now) result }
    ensures written { Appends (O.held writer.old) (O.held writer.new) (take (drained_count result) bytes.now) }
    ensures calls { O.calls writer.new ≡ drain_calls result (O.calls writer.old) }
    ensures failures { O.failures writer.new ≡ drain_failures result (O.failures writer.old) }
    ensures stalls { O.stalls writer.new ≡ drain_stalls result (O.stalls writer.old) }
{
    match writer.write(bytes) {
        Ok(Put::Bytes(count)) => Ok(Drained::Bytes(count)),
        Ok(Put::Blocked) => Ok(Drained::Blocked),
        Err(_) => Err(FlowFault::Write),
    }
}
