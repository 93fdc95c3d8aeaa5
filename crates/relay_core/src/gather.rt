//! Several reads into one piece.
ghost use Rattle.std.specs.Prelude.{◌≡◌, true, ◌<◌, ◌≤◌, length, take};
ghost use Rattle.std.specs.Io.KnownBytes.{Consumes};
ghost use Rattle.relay_core.specs.Burst.{IsStop, HasAsked, stop_failures, stop_stalls, fill_count, fill_stop};

use crate::burst::BurstStop;
use crate::flow::{Filled, FlowFault};
use crate::once::read_front;
use device_core::Input;

/// Reads at most `limit` bytes into the front of the piece, at most `most` of them at once, as long as
/// each read comes in full. Says how many came in, and why no more.
pub(crate) fn gather<I: Input>(
    reader: &mut I,
    piece: &mut [u8],
    limit: usize,
    most: usize,
) -> (usize, Result<BurstStop, FlowFault>)
    requires some { 0 < limit }
    requires fits { limit ≤ length piece.old }
    requires most { 0 < most }
    ensures within { result.0 ≤ limit }
    ensures stop { IsStop result.0 limit (I.left reader.old) piece.new result.1 }
    ensures read { Consumes (I.left reader.old) (I.left reader.new) (take result.0 piece.new) }
    ensures calls { HasAsked true most result.0 (I.calls reader.old) (I.calls reader.new) }
    ensures failures { I.failures reader.new ≡ stop_failures result.1 (I.failures reader.old) }
    ensures stalls { I.stalls reader.new ≡ stop_stalls true result.0 result.1 (I.stalls reader.old) }
{
    let mut count = 0;
    while count < limit {
        let asked = most.min(limit - count);
        match read_front(reader, &mut piece[count..], asked) {
            Ok(Filled::Bytes(more)) => {
                count += more;
                if more < asked {
                    return (count, Ok(BurstStop::Short));
                }
            }
            Ok(Filled::End) => return (count, Ok(BurstStop::End)),
            Ok(_) => return (count, Ok(BurstStop::Blocked)),
            Err(fault) => return (count, Err(fault)),
        }
    }
    (count, Ok(BurstStop::Full))
}

/// What one fill is as a burst, where it asked for `limit` bytes.
pub(crate) fn stop_at(
    filled: Result<Filled, FlowFault>,
    limit: usize,
) -> (usize, Result<BurstStop, FlowFault>)
    ensures count { result.0 ≡ fill_count filled }
    ensures stop { result.1 ≡ fill_stop filled limit }
{
    match filled {
        Ok(Filled::Bytes(count)) => (
            count,
            Ok(if count < limit {
                BurstStop::Short
            } else {
                BurstStop::Full
            }),
        ),
        Ok(Filled::End) => (0, Ok(BurstStop::End)),
        Ok(Filled::Blocked) => (0, Ok(BurstStop::Blocked)),
        Ok(Filled::NoRoom) => (0, Ok(BurstStop::NoRoom)),
        Err(fault) => (0, Err(fault)),
    }
}
