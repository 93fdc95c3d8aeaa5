//! One fill and one drain in one call.
ghost use Rattle.std.specs.Prelude.{◌≡◌, true, ℕ, ◌<◌, ◌≤◌, [], ◌++◌, IfOk, IsTrue, OnOk, OnErr, length, take, drop};
ghost use Rattle.std.specs.Io.KnownBytes.{Consumes, Appends};
ghost use Rattle.relay_core.specs.Flow.{room, asks_reader, IsFillAnswer, read_in, after_fill, fill_calls, fill_failures, fill_stalls, IsWriteAnswer, IsDrainAnswer, drained_count, after_drain, drain_calls, drain_failures, drain_stalls};
ghost use Rattle.relay_core.specs.Law.{Moves};
ghost use Rattle.relay_core.specs.Pass.{pass_read, pass_written, pass_read_failures, pass_write_calls, pass_write_failures, pass_write_stalls, HasFilled};
ghost use Rattle.relay_core.specs.declared.flow.Filled.{Filled};

use crate::flow::{Drained, Filled, Flow, FlowFault};
use crate::once::{read_front, write_once};
use device_core::{Input, Output};

/// What a pass did: its fill, and its drain.
#[derive(Clone, Copy)]
pub struct Passed {
    pub filled: Filled,
    pub drained: Drained,
}

impl Flow {
    /// One fill, then one drain. A fault of the fill leaves out the drain. Where nothing is held, what
    /// was read is written from the piece itself, and only what the writer did not take is held.
    pub fn pass<I: Input, O: Output>(
        &mut self,
        reader: &mut I,
        writer: &mut O,
        piece: &mut [u8],
    ) -> Result<Passed, FlowFault>
        requires { 0 < length piece.old }
        ensures filled { IfOk result (λ m. IsFillAnswer (asks_reader self.old) self.old (length piece.old) (I.left reader.old) (Ok m.filled)) }
        ensures drained { IfOk result (λ m. IsDrainAnswer (after_fill self.old (Ok m.filled) piece.new).bytes (Ok m.drained)) }
        ensures after { IfOk result (λ m. self.new ≡ after_drain (after_fill self.old (Ok m.filled) piece.new) (Ok m.drained)) }

        // A failed read changes nothing. After a failed write what was read is held.
        ensures read_fault { (result ≡ Err FlowFault.Read) → self.new ≡ self.old }
        ensures write_fault { (result ≡ Err FlowFault.Write) → HasFilled self.old self.new (length piece.old) piece.new (I.left reader.old) }

        // What was held, followed by what was read in, is what was written out, followed by what is held.
        ensures read { Consumes (I.left reader.old) (I.left reader.new) (pass_read result self.old self.new piece.new) }
        ensures written { Appends (O.held writer.old) (O.held writer.new) (pass_written result self.old piece.new) }
        ensures law { Moves self.old.bytes (pass_read result self.old self.new piece.new) (pass_written result self.old piece.new) self.new.bytes }

        // One read at most and one write at most, and a fault only where the device failed.
        ensures read_calls { I.calls reader.new ≡ fill_calls (asks_reader self.old) (I.calls reader.old) }
        ensures write_calls { O.calls writer.new ≡ pass_write_calls result (O.calls writer.old) }
        ensures read_failures { I.failures reader.new ≡ pass_read_failures result (I.failures reader.old) }
        ensures write_failures { O.failures writer.new ≡ pass_write_failures result (O.failures writer.old) }
        ensures read_stalls { IfOk result (λ m. I.stalls reader.new ≡ fill_stalls (asks_reader self.old) (Ok m.filled) (I.stalls reader.old)) }
        ensures write_stalls { O.stalls writer.new ≡ pass_write_stalls result (O.stalls writer.old) }
    {
        let (filled, drained) = self.pass_both(reader, writer, piece);
        let filled = filled?;
        let drained = drained?;
        Ok(Passed { filled, drained })
    }

    /// Writes bytes past the flow, and holds what the writer did not take.
    pub(crate) fn send<O: Output>(
        &mut self,
        writer: &mut O,
        bytes: &[u8],
    ) -> Result<Drained, FlowFault>
        requires some { 0 < length bytes.now }
        requires empty { self.old.bytes ≡ [] }
        requires fits { length bytes.now ≤ room self.old }
        ensures answer { IsWriteAnswer (length bytes.now) result }
        ensures after { self.new ≡ record self.old { bytes = drop (drained_count result) bytes.now } }
        ensures written { Appends (O.held writer.old) (O.held writer.new) (take (drained_count result) bytes.now) }
        ensures calls { O.calls writer.new ≡ drain_calls result (O.calls writer.old) }
        ensures failures { O.failures writer.new ≡ drain_failures result (O.failures writer.old) }
        ensures stalls { O.stalls writer.new ≡ drain_stalls result (O.stalls writer.old) }
    {
        let answer = write_once(writer, bytes);
        let mut taken = 0;
        if let Ok(Drained::Bytes(count)) = answer {
            taken = count;
        }
        self.put(&bytes[taken..]);
        answer
    }

    /// What was read is written at once, where nothing is held, and only the rest is held.
    fn pass_by<I: Input, O: Output>(
        &mut self,
        reader: &mut I,
        writer: &mut O,
        piece: &mut [u8],
    ) -> (Result<Filled, FlowFault>, Result<Drained, FlowFault>)
        requires some { 0 < length piece.old }
        requires empty { self.old.bytes ≡ [] }
        requires asks { IsTrue (asks_reader self.old) }
        ensures filled { IsFillAnswer true self.old (length piece.old) (I.left reader.old) result.0 }
        ensures left_out { OnErr result.0 (result.1 ≡ Ok Drained.Empty) }
        ensures drained { OnOk result.0 (IsDrainAnswer (after_fill self.old result.0 piece.new).bytes result.1) }
        ensures after { self.new ≡ after_drain (after_fill self.old result.0 piece.new) result.1 }
        ensures read { Consumes (I.left reader.old) (I.left reader.new) (read_in result.0 piece.new) }
        ensures written { Appends (O.held writer.old) (O.held writer.new) (take (drained_count result.1) (after_fill self.old result.0 piece.new).bytes) }
        ensures read_calls { I.calls reader.new ≡ fill_calls true (I.calls reader.old) }
        ensures read_failures { I.failures reader.new ≡ fill_failures result.0 (I.failures reader.old) }
        ensures read_stalls { I.stalls reader.new ≡ fill_stalls true result.0 (I.stalls reader.old) }
        ensures write_calls { O.calls writer.new ≡ drain_calls result.1 (O.calls writer.old) }
        ensures write_failures { O.failures writer.new ≡ drain_failures result.1 (O.failures writer.old) }
        ensures write_stalls { O.stalls writer.new ≡ drain_stalls result.1 (O.stalls writer.old) }
    {
        let most = self.room().min(piece.len());
        let filled = read_front(reader, piece, most);
        let drained = match filled {
            Ok(Filled::Bytes(count)) => self.send(writer, &piece[..count]),
            Ok(Filled::End) => {
                self.end();
                Ok(Drained::Empty)
            }
            _ => Ok(Drained::Empty),
        };
        (filled, drained)
    }

    fn pass_both<I: Input, O: Output>(
        &mut self,
        reader: &mut I,
        writer: &mut O,
        piece: &mut [u8],
    ) -> (Result<Filled, FlowFault>, Result<Drained, FlowFault>)
        requires { 0 < length piece.old }
        ensures filled { IsFillAnswer (asks_reader self.old) self.old (length piece.old) (I.left reader.old) result.0 }
        ensures left_out { OnErr result.0 (result.1 ≡ Ok Drained.Empty) }
        ensures drained { OnOk result.0 (IsDrainAnswer (after_fill self.old result.0 piece.new).bytes result.1) }
        ensures after { self.new ≡ after_drain (after_fill self.old result.0 piece.new) result.1 }
        ensures read { Consumes (I.left reader.old) (I.left reader.new) (read_in result.0 piece.new) }
        ensures written { Appends (O.held writer.old) (O.held writer.new) (take (drained_count result.1) (after_fill self.old result.0 piece.new).bytes) }
        ensures read_in { OnErr result.1 (drop (length self.old.bytes) self.new.bytes ≡ read_in result.0 piece.new) }
        ensures law { OnErr result.1 (self.old.bytes ++ read_in result.0 piece.new ≡ self.new.bytes) }
        ensures read_calls { I.calls reader.new ≡ fill_calls (asks_reader self.old) (I.calls reader.old) }
        ensures read_failures { I.failures reader.new ≡ fill_failures result.0 (I.failures reader.old) }
        ensures read_stalls { I.stalls reader.new ≡ fill_stalls (asks_reader self.old) result.0 (I.stalls reader.old) }
        ensures write_calls { O.calls writer.new ≡ drain_calls result.1 (O.calls writer.old) }
        ensures write_failures { O.failures writer.new ≡ drain_failures result.1 (O.failures writer.old) }
        ensures write_stalls { O.stalls writer.new ≡ drain_stalls result.1 (O.stalls writer.old) }
    {
        if self.is_empty() && self.asks_reader() {
            return self.pass_by(reader, writer, piece);
        }
        let filled = self.fill(reader, piece);
        if filled.is_err() {
            return (filled, Ok(Drained::Empty));
        }
        (filled, self.drain(writer))
    }
}
