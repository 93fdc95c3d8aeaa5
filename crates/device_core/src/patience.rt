//! How long a loop over a device goes on.
ghost use Rattle.std.specs.Prelude.{◌≡◌, ◌⊎◌, ◌-◌, ◌<◌, ◌≤◌, ℕ, length, take, OnOk, OnErr};
ghost use Rattle.std.specs.Io.KnownBytes.{Appends};
ghost use Rattle.device_core.specs.Device.{Reads, raised, raised_by};
ghost use Rattle.device_core.specs.Patience.{one_read, IsUnblocked, IsWornOut};

use crate::device::{Failed, Got, Input, Output, Put};

/// How many blocked calls in a row are a fault.
pub const MOST_STALLS: u32 = 1_000_000;

/// How many reads a loop over a reader makes at most.
pub const MOST_READS: u32 = 1_000_000_000;

/// What a reader gave that was asked until it gave something.
#[derive(Clone, Copy, PartialEq, Eq)]
pub enum Moved {
    /// So many bytes, at the front of the buffer.
    Bytes(usize),
    /// The reader is at its end.
    End,
}

/// Reads until the reader gives bytes, is at its end or fails. A blocked read is made again;
/// `MOST_STALLS` of them in a row are a fault, and so is a read with none of `reads` left. A loop
/// begins with `MOST_READS` of them.
pub fn read_on<I: Input>(input: &mut I, buffer: &mut [u8], reads: &mut u32) -> Result<Moved, Failed>
    requires { 0 < length buffer.old }
    // The bytes are moved as by one read, and an error moves none.
    ensures moved { Reads (one_read result) (I.left input.old) (I.left input.new) buffer.new }
    ensures ok { OnOk result (I.failures input.new ≡ I.failures input.old) }
    ensures ok_stalls { OnOk result (I.stalls input.new ≡ 0) }
    ensures err { OnErr result ((I.failures input.new ≡ raised (I.failures input.old))
        ⊎ ((I.failures input.new ≡ I.failures input.old)
        × ((I.stalls input.new ≡ raised_by MOST_STALLS (I.stalls input.old)) ⊎ (reads.new ≡ 0)))) }

    // Each read is counted, and none is made beyond those that are left.
    ensures calls { I.calls input.new ≡ raised_by (reads.old - reads.new) (I.calls input.old) }
    ensures no_more { reads.new ≤ reads.old }
    ensures fewer { OnOk result (reads.new < reads.old) }
{
    let mut stalls = 0;
    while stalls < MOST_STALLS {
        if *reads == 0 {
            return Err(Failed);
        }
        *reads -= 1;
        match input.read(buffer)? {
            Got::Bytes(count) => return Ok(Moved::Bytes(count)),
            Got::End => return Ok(Moved::End),
            Got::Blocked => stalls += 1,
        }
    }
    Err(Failed)
}

/// Writes all the bytes. A blocked write is made again; `MOST_STALLS` of them in a row are a fault.
pub fn write_all<O: Output>(output: &mut O, bytes: &[u8]) -> Result<(), Failed>
    ensures ok { OnOk result (Appends (O.held output.old) (O.held output.new) bytes.now) }
    ensures ok_failures { OnOk result (O.failures output.new ≡ O.failures output.old) }
    ensures ok_stalls { OnOk result (IsUnblocked (O.stalls output.old) (O.stalls output.new)) }

    // After an error some of the bytes were written, the first ones, and not all.
    ensures err { OnErr result ((n : ℕ) × (n < length bytes.now) × Appends (O.held output.old) (O.held output.new) (take n bytes.now)) }
    ensures err_why { OnErr result ((O.failures output.new ≡ raised (O.failures output.old))
        ⊎ ((O.failures output.new ≡ O.failures output.old) × IsWornOut (O.stalls output.old) (O.stalls output.new))) }
{
    let mut written = 0;
    let mut stalls = 0;
    while written < bytes.len() {
        if stalls == MOST_STALLS {
            return Err(Failed);
        }
        match output.write(&bytes[written..])? {
            Put::Bytes(count) => {
                written += count;
                stalls = 0;
            }
            Put::Blocked => stalls += 1,
        }
    }
    Ok(())
}
