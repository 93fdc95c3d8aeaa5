//! Several reads and one write in one call.
ghost use Rattle.std.specs.Prelude.{◌≡◌, true, false, ℕ, ◌<◌, ◌≤◌, [], ◌++◌, IfOk, IsTrue, OnOk, OnErr, length, take, drop};
ghost use Rattle.std.specs.Io.KnownBytes.{Consumes, Appends};
ghost use Rattle.relay_core.specs.Flow.{room, asks_reader, IsDrainAnswer, drained_count, after_drain, drain_calls, drain_failures, drain_stalls};
ghost use Rattle.relay_core.specs.Law.{Moves};
ghost use Rattle.relay_core.specs.Burst.{burst_limit, IsBurstStop, after_reads, HasAsked, stop_failures, stop_stalls, burst_read, burst_count, burst_written, burst_read_failures, burst_write_failures, burst_write_calls, burst_write_stalls, HasGathered, HasStopped, IsHeld};

use crate::flow::{Drained, Flow, FlowFault};
use crate::gather::{gather, stop_at};
use device_core::{Input, Output};

/// Why a burst read no more.
#[derive(Clone, Copy, PartialEq, Eq)]
pub enum BurstStop {
    /// The last read came in full, so more may be there.
    Full,
    /// The last read gave fewer bytes than were asked for.
    Short,
    /// The reader has nothing at this moment.
    Blocked,
    /// The reader is at its end, now or since an earlier call.
    End,
    /// There is no room, and the reader was not asked.
    NoRoom,
}

/// What a burst did: how many bytes came in by all of its reads, why no more, and its drain.
#[derive(Clone, Copy, PartialEq, Eq)]
pub struct Burst {
    pub read: usize,
    pub stop: BurstStop,
    pub drained: Drained,
}

impl Flow {
    /// Reads at most `most` bytes at once, as long as each read comes in full and the piece and the flow
    /// have room, then writes once. Where something is held already there is one read. After a failed
    /// read nothing is written, and what came in before it is held.
    pub fn burst<I: Input, O: Output>(
        &mut self,
        reader: &mut I,
        writer: &mut O,
        piece: &mut [u8],
        most: usize,
    ) -> Result<Burst, FlowFault>
        requires some { 0 < most }
        requires fits { most ≤ length piece.old }
        ensures stop { IfOk result (λ b. IsBurstStop (asks_reader self.old) self.old b.read (burst_limit self.old.bytes (room self.old) most (length piece.old)) (I.left reader.old) piece.new (Ok b.stop)) }
        ensures drained { IfOk result (λ b. IsDrainAnswer (self.old.bytes ++ take b.read piece.new) (Ok b.drained)) }
        ensures after { IfOk result (λ b. self.new ≡ after_drain (after_reads self.old b.read (Ok b.stop) piece.new) (Ok b.drained)) }

        // After a fault what was read is held.
        ensures read_fault { (result ≡ Err FlowFault.Read) → HasGathered self.old self.new (burst_limit self.old.bytes (room self.old) most (length piece.old)) (I.left reader.old) piece.new (Err FlowFault.Read) }
        ensures write_fault { (result ≡ Err FlowFault.Write) → HasStopped self.old self.new (burst_limit self.old.bytes (room self.old) most (length piece.old)) (I.left reader.old) piece.new }

        // What was held, followed by what was read, is what was written out, followed by what is held.
        ensures read { Consumes (I.left reader.old) (I.left reader.new) (burst_read result self.old self.new piece.new) }
        ensures written { Appends (O.held writer.old) (O.held writer.new) (burst_written result self.old piece.new) }
        ensures law { Moves self.old.bytes (burst_read result self.old self.new piece.new) (burst_written result self.old piece.new) self.new.bytes }

        // Reads of at most `most` bytes, one write at most, and a fault only where the device failed.
        ensures read_calls { HasAsked (asks_reader self.old) most (burst_count result self.old self.new) (I.calls reader.old) (I.calls reader.new) }
        ensures write_calls { O.calls writer.new ≡ burst_write_calls result (O.calls writer.old) }
        ensures read_failures { I.failures reader.new ≡ burst_read_failures result (I.failures reader.old) }
        ensures write_failures { O.failures writer.new ≡ burst_write_failures result (O.failures writer.old) }
        ensures read_stalls { IfOk result (λ b. I.stalls reader.new ≡ stop_stalls (asks_reader self.old) b.read (Ok b.stop) (I.stalls reader.old)) }
        ensures write_stalls { O.stalls writer.new ≡ burst_write_stalls result (O.stalls writer.old) }
    {
        let (read, stop, drained) = self.burst_both(reader, writer, piece, most);
        let stop = stop?;
        let drained = drained?;
        Ok(Burst {
            read,
            stop,
            drained,
        })
    }

    /// Writes bytes past the flow where they may be written, and holds what was not written.
    fn hand_on<O: Output>(
        &mut self,
        writer: &mut O,
        bytes: &[u8],
        writes: bool,
    ) -> Result<Drained, FlowFault>
        requires empty { self.old.bytes ≡ [] }
        requires fits { length bytes.now ≤ room self.old }
        ensures kept { writes ≡ false → result ≡ Ok Drained.Empty }
        ensures answer { writes ≡ true → IsDrainAnswer bytes.now result }
        ensures after { self.new ≡ record self.old { bytes = drop (drained_count result) bytes.now } }
        ensures written { Appends (O.held writer.old) (O.held writer.new) (take (drained_count result) bytes.now) }
        ensures calls { O.calls writer.new ≡ drain_calls result (O.calls writer.old) }
        ensures failures { O.failures writer.new ≡ drain_failures result (O.failures writer.old) }
        ensures stalls { O.stalls writer.new ≡ drain_stalls result (O.stalls writer.old) }
    {
        if bytes.is_empty() {
            return Ok(Drained::Empty);
        }
        if !writes {
            self.put(bytes);
            return Ok(Drained::Empty);
        }
        self.send(writer, bytes)
    }

    /// Where nothing is held: what all the reads gave is written at once, and only the rest is held.
    fn burst_by<I: Input, O: Output>(
        &mut self,
        reader: &mut I,
        writer: &mut O,
        piece: &mut [u8],
        most: usize,
    ) -> (
        usize,
        Result<BurstStop, FlowFault>,
        Result<Drained, FlowFault>,
    )
        requires some { 0 < most }
        requires fits { most ≤ length piece.old }
        requires empty { self.old.bytes ≡ [] }
        requires asks { IsTrue (asks_reader self.old) }
        ensures within { result.0 ≤ length piece.old }
        ensures stop { IsBurstStop (asks_reader self.old) self.old result.0 (burst_limit self.old.bytes (room self.old) most (length piece.old)) (I.left reader.old) piece.new result.1 }
        ensures left_out { OnErr result.1 (result.2 ≡ Ok Drained.Empty) }
        ensures drained { OnOk result.1 (IsDrainAnswer (self.old.bytes ++ take result.0 piece.new) result.2) }
        ensures after { self.new ≡ after_drain (after_reads self.old result.0 result.1 piece.new) result.2 }
        ensures read { Consumes (I.left reader.old) (I.left reader.new) (take result.0 piece.new) }
        ensures written { Appends (O.held writer.old) (O.held writer.new) (take (drained_count result.2) (self.old.bytes ++ take result.0 piece.new)) }
        ensures read_calls { HasAsked (asks_reader self.old) most result.0 (I.calls reader.old) (I.calls reader.new) }
        ensures read_failures { I.failures reader.new ≡ stop_failures result.1 (I.failures reader.old) }
        ensures read_stalls { I.stalls reader.new ≡ stop_stalls (asks_reader self.old) result.0 result.1 (I.stalls reader.old) }
        ensures write_calls { O.calls writer.new ≡ drain_calls result.2 (O.calls writer.old) }
        ensures write_failures { O.failures writer.new ≡ drain_failures result.2 (O.failures writer.old) }
        ensures write_stalls { O.stalls writer.new ≡ drain_stalls result.2 (O.stalls writer.old) }
    {
        let limit = self.room().min(piece.len());
        let (count, stop) = gather(reader, piece, limit, most);
        let drained = self.hand_on(writer, &piece[..count], stop.is_ok());
        if let Ok(BurstStop::End) = stop {
            self.end();
        }
        (count, stop, drained)
    }

    /// Where something is held, or the reader is not asked: one fill, then one drain.
    fn burst_held<I: Input, O: Output>(
        &mut self,
        reader: &mut I,
        writer: &mut O,
        piece: &mut [u8],
        most: usize,
    ) -> (
        usize,
        Result<BurstStop, FlowFault>,
        Result<Drained, FlowFault>,
    )
        requires some { 0 < most }
        requires fits { most ≤ length piece.old }
        requires held { self.old.bytes ≡ [] → asks_reader self.old ≡ false }
        ensures within { result.0 ≤ length piece.old }
        ensures stop { IsBurstStop (asks_reader self.old) self.old result.0 (burst_limit self.old.bytes (room self.old) most (length piece.old)) (I.left reader.old) piece.new result.1 }
        ensures left_out { OnErr result.1 (result.2 ≡ Ok Drained.Empty) }
        ensures drained { OnOk result.1 (IsDrainAnswer (self.old.bytes ++ take result.0 piece.new) result.2) }
        ensures after { self.new ≡ after_drain (after_reads self.old result.0 result.1 piece.new) result.2 }
        ensures read { Consumes (I.left reader.old) (I.left reader.new) (take result.0 piece.new) }
        ensures written { Appends (O.held writer.old) (O.held writer.new) (take (drained_count result.2) (self.old.bytes ++ take result.0 piece.new)) }
        ensures read_calls { HasAsked (asks_reader self.old) most result.0 (I.calls reader.old) (I.calls reader.new) }
        ensures read_failures { I.failures reader.new ≡ stop_failures result.1 (I.failures reader.old) }
        ensures read_stalls { I.stalls reader.new ≡ stop_stalls (asks_reader self.old) result.0 result.1 (I.stalls reader.old) }
        ensures write_calls { O.calls writer.new ≡ drain_calls result.2 (O.calls writer.old) }
        ensures write_failures { O.failures writer.new ≡ drain_failures result.2 (O.failures writer.old) }
        ensures write_stalls { O.stalls writer.new ≡ drain_stalls result.2 (O.stalls writer.old) }
    {
        let limit = self.room().min(most);
        let filled = self.fill(reader, &mut piece[..most]);
        let (count, stop) = stop_at(filled, limit);
        if stop.is_err() {
            return (count, stop, Ok(Drained::Empty));
        }
        (count, stop, self.drain(writer))
    }

    fn burst_both<I: Input, O: Output>(
        &mut self,
        reader: &mut I,
        writer: &mut O,
        piece: &mut [u8],
        most: usize,
    ) -> (
        usize,
        Result<BurstStop, FlowFault>,
        Result<Drained, FlowFault>,
    )
        requires some { 0 < most }
        requires fits { most ≤ length piece.old }
        ensures within { result.0 ≤ length piece.old }
        ensures stop { IsBurstStop (asks_reader self.old) self.old result.0 (burst_limit self.old.bytes (room self.old) most (length piece.old)) (I.left reader.old) piece.new result.1 }
        ensures left_out { OnErr result.1 (result.2 ≡ Ok Drained.Empty) }
        ensures drained { OnOk result.1 (IsDrainAnswer (self.old.bytes ++ take result.0 piece.new) result.2) }
        ensures after { self.new ≡ after_drain (after_reads self.old result.0 result.1 piece.new) result.2 }
        ensures read_held { OnErr result.1 (IsHeld self.old self.new result.0 piece.new) }
        ensures write_held { OnErr result.2 (IsHeld self.old self.new result.0 piece.new) }
        ensures read { Consumes (I.left reader.old) (I.left reader.new) (take result.0 piece.new) }
        ensures written { Appends (O.held writer.old) (O.held writer.new) (take (drained_count result.2) (self.old.bytes ++ take result.0 piece.new)) }
        ensures read_calls { HasAsked (asks_reader self.old) most result.0 (I.calls reader.old) (I.calls reader.new) }
        ensures read_failures { I.failures reader.new ≡ stop_failures result.1 (I.failures reader.old) }
        ensures read_stalls { I.stalls reader.new ≡ stop_stalls (asks_reader self.old) result.0 result.1 (I.stalls reader.old) }
        ensures write_calls { O.calls writer.new ≡ drain_calls result.2 (O.calls writer.old) }
        ensures write_failures { O.failures writer.new ≡ drain_failures result.2 (O.failures writer.old) }
        ensures write_stalls { O.stalls writer.new ≡ drain_stalls result.2 (O.stalls writer.old) }
    {
        if self.is_empty() && self.asks_reader() {
            return self.burst_by(reader, writer, piece, most);
        }
        self.burst_held(reader, writer, piece, most)
    }
}
