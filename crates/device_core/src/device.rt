//! What a device is: a reader or a writer that a contract can speak of.
ghost use Rattle.std.specs.Prelude.{◌≡◌, ℕ, ◌<◌, List, Option, length};

/// How many bytes a loop asks a reader for in one call, at the most.
pub const PIECE_BYTES: usize = 16_384;

/// What a read gave.
#[derive(Clone, Copy, PartialEq, Eq)]
pub enum Got {
    /// So many bytes, at the front of the buffer.
    Bytes(usize),
    /// The reader is at its end.
    End,
    /// Nothing at this moment; the same call may be made again.
    Blocked,
}

/// What a write took.
#[derive(Clone, Copy, PartialEq, Eq)]
pub enum Put {
    /// So many bytes, the first of those that were handed in.
    Bytes(usize),
    /// Nothing at this moment; the same call may be made again.
    Blocked,
}

/// The device failed.
#[derive(Clone, Copy, PartialEq, Eq)]
pub struct Failed;

/// A reader. What a call leaves in the buffer after the bytes that it gave is not said.
pub trait Input {
    ghost use Rattle.device_core.specs.Device.{Reads, failures_after, raised, read_stalls};

    /// The bytes that are still to come, where the reader reports them.
    ghost left: { Self → Option (List ℕ) };

    /// How often it failed. This count and the next two stay at the greatest `u64`.
    ghost failures: { Self → ℕ };

    /// How many reads were made.
    ghost calls: { Self → ℕ };

    /// How many of the last reads in a row were blocked.
    ghost stalls: { Self → ℕ };

    /// Reads once, into the front of the buffer.
    fn read(&mut self, buffer: &mut [u8]) -> Result<Got, Failed>
        requires { 0 < length buffer.old }
        ensures moved { Reads result (left self.old) (left self.new) buffer.new }
        ensures failures { failures self.new ≡ failures_after result (failures self.old) }
        ensures calls { calls self.new ≡ raised (calls self.old) }
        ensures stalls { stalls self.new ≡ read_stalls result (stalls self.old) };
}

/// A writer.
pub trait Output {
    ghost use Rattle.device_core.specs.Device.{Writes, failures_after, raised, write_stalls};

    /// The bytes that were written, where the writer reports them.
    ghost held: { Self → Option (List ℕ) };

    /// How often it failed. This count and the next two stay at the greatest `u64`.
    ghost failures: { Self → ℕ };

    /// How many writes were made.
    ghost calls: { Self → ℕ };

    /// How many of the last writes in a row were blocked.
    ghost stalls: { Self → ℕ };

    /// Writes once, the bytes from the first on. A writer that would take none of them has failed.
    fn write(&mut self, bytes: &[u8]) -> Result<Put, Failed>
        requires { 0 < length bytes.now }
        ensures moved { Writes result (held self.old) (held self.new) bytes.now }
        ensures failures { failures self.new ≡ failures_after result (failures self.old) }
        ensures calls { calls self.new ≡ raised (calls self.old) }
        ensures stalls { stalls self.new ≡ write_stalls result (stalls self.old) };
}
