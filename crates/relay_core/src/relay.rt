//! Both directions of a connection.
ghost use Rattle.std.specs.Prelude.{◌≡◌, ◌≢◌, true, ℕ, ◌<◌, ◌≤◌, ◌+◌, ◌++◌, ◌↔◌, [], IfOk, IsTrue, length, take, drop};
ghost use Rattle.std.specs.Io.KnownBytes.{Consumes, Appends};
ghost use Rattle.relay_core.specs.Flow.{room, IsDone, IsIdle, asks_reader, IsFillAnswer, after_fill, fill_calls, fill_stalls, IsDrainAnswer, after_drain};
ghost use Rattle.relay_core.specs.Burst.{burst_limit, IsBurstStop, after_reads, HasAsked, stop_stalls, burst_read, burst_count, burst_written, burst_read_failures, burst_write_failures, burst_write_calls, burst_write_stalls, HasGathered, HasStopped};
ghost use Rattle.relay_core.specs.Law.{HasCarried, Moves};
ghost use Rattle.relay_core.specs.Relay.{flow_of, opposite, stream_of};
ghost use Rattle.relay_core.specs.Pass.{pass_read, pass_written, pass_read_failures, pass_write_calls, pass_write_failures, pass_write_stalls, HasFilled};

use crate::burst::Burst;
use crate::flow::{Flow, FlowFault};
use crate::pass::Passed;
use crate::way::Way;
use device_core::{Input, Output};
use std::alloc::{AllocError, Global};
use std::marker::Model;

/// A connection that is relayed: `forth` carries the client's bytes to the server, `back` the server's
/// to the client.
#[derive(Drop)]
pub struct Relay {
    forth: Flow,
    back: Flow,
}

impl Model for Relay {
    ghost use Rattle.relay_core.specs.Relay.{Ways};

    ghost Value = { Ways };

    ghost view = { λ r. record { forth = r.forth; back = r.back } };
}

impl Relay {
    ghost use Rattle.std.specs.Prelude.{false};

    /// Each direction holds `cap` bytes at most. The server gets `send` first, the header that is sent
    /// to it, then `rest`, what the client sent after its own header, and then what is read.
    pub fn new(alloc: Global, cap: usize, send: &[u8], rest: &[u8]) -> Result<Relay, AllocError>
        requires { length send.now + length rest.now ≤ cap }
        ensures forth { IfOk result (λ r. r.forth ≡ record
            { bytes = send.now ++ rest.now; ended = false; capacity = cap }) }
        ensures back { IfOk result (λ r. r.back ≡ record
            { bytes = []; ended = false; capacity = cap }) }
    {
        let mut forth = Flow::new(alloc, cap)?;
        let back = Flow::new(alloc, cap)?;
        forth.put(send);
        forth.put(rest);
        Ok(Relay { forth, back })
    }

    /// One pass of a direction.
    pub fn pass<I: Input, O: Output>(
        &mut self,
        way: Way,
        reader: &mut I,
        writer: &mut O,
        piece: &mut [u8],
    ) -> Result<Passed, FlowFault>
        requires { 0 < length piece.old }
        ensures other { flow_of (opposite way) self.new ≡ flow_of (opposite way) self.old }
        ensures filled { IfOk result (λ m. IsFillAnswer (asks_reader (flow_of way self.old))
            (flow_of way self.old) (length piece.old) (I.left reader.old) (Ok m.filled)) }
        ensures drained { IfOk result (λ m. IsDrainAnswer
            (after_fill (flow_of way self.old) (Ok m.filled) piece.new).bytes (Ok m.drained)) }
        ensures after { IfOk result (λ m. flow_of way self.new ≡ after_drain
            (after_fill (flow_of way self.old) (Ok m.filled) piece.new) (Ok m.drained)) }

        // A failed read changes nothing. After a failed write what was read is held.
        ensures read_fault { (result ≡ Err FlowFault.Read) →
            flow_of way self.new ≡ flow_of way self.old }
        ensures write_fault { (result ≡ Err FlowFault.Write) → HasFilled (flow_of way self.old)
            (flow_of way self.new) (length piece.old) piece.new (I.left reader.old) }

        // What was held, followed by what was read in, is what was written out, followed by what is held.
        ensures read { Consumes (I.left reader.old) (I.left reader.new)
            (pass_read result (flow_of way self.old) (flow_of way self.new) piece.new) }
        ensures written { Appends (O.held writer.old) (O.held writer.new)
            (pass_written result (flow_of way self.old) piece.new) }
        ensures law { Moves (flow_of way self.old).bytes
            (pass_read result (flow_of way self.old) (flow_of way self.new) piece.new)
            (pass_written result (flow_of way self.old) piece.new) (flow_of way self.new).bytes }

        // One read at most and one write at most, and a fault only where the device failed.
        ensures read_calls { I.calls reader.new ≡ fill_calls (asks_reader (flow_of way self.old))
            (I.calls reader.old) }
        ensures write_calls { O.calls writer.new ≡ pass_write_calls result (O.calls writer.old) }
        ensures read_failures { I.failures reader.new ≡ pass_read_failures result
            (I.failures reader.old) }
        ensures write_failures { O.failures writer.new ≡ pass_write_failures result
            (O.failures writer.old) }
        ensures read_stalls { IfOk result (λ m. I.stalls reader.new ≡ fill_stalls
            (asks_reader (flow_of way self.old)) (Ok m.filled) (I.stalls reader.old)) }
        ensures write_stalls { O.stalls writer.new ≡ pass_write_stalls result
            (O.stalls writer.old) }
    {
        match way {
            Way::Forth => self.forth.pass(reader, writer, piece),
            Way::Back => self.back.pass(reader, writer, piece),
        }
    }

    /// One burst of a direction.
    pub fn burst<I: Input, O: Output>(
        &mut self,
        way: Way,
        reader: &mut I,
        writer: &mut O,
        piece: &mut [u8],
        most: usize,
    ) -> Result<Burst, FlowFault>
        requires some { 0 < most }
        requires fits { most ≤ length piece.old }
        ensures other { flow_of (opposite way) self.new ≡ flow_of (opposite way) self.old }
        ensures carries { HasCarried
            (stream_of (I.left reader.old) (flow_of way self.old) (O.held writer.old))
            (stream_of (I.left reader.new) (flow_of way self.new) (O.held writer.new)) }
        ensures stop { IfOk result (λ b. IsBurstStop (asks_reader (flow_of way self.old))
            (flow_of way self.old) b.read
            (burst_limit (flow_of way self.old).bytes (room (flow_of way self.old)) most
            (length piece.old)) (I.left reader.old) piece.new (Ok b.stop)) }
        ensures drained { IfOk result (λ b. IsDrainAnswer
            ((flow_of way self.old).bytes ++ take b.read piece.new) (Ok b.drained)) }
        ensures after { IfOk result (λ b. flow_of way self.new ≡ after_drain
            (after_reads (flow_of way self.old) b.read (Ok b.stop) piece.new) (Ok b.drained)) }

        // After a fault what was read is held.
        ensures read_fault { (result ≡ Err FlowFault.Read) → HasGathered (flow_of way self.old)
            (flow_of way self.new)
            (burst_limit (flow_of way self.old).bytes (room (flow_of way self.old)) most
            (length piece.old)) (I.left reader.old) piece.new (Err FlowFault.Read) }
        ensures write_fault { (result ≡ Err FlowFault.Write) → HasStopped (flow_of way self.old)
            (flow_of way self.new)
            (burst_limit (flow_of way self.old).bytes (room (flow_of way self.old)) most
            (length piece.old)) (I.left reader.old) piece.new }

        // What was held, followed by what was read, is what was written out, followed by what is held.
        ensures read { Consumes (I.left reader.old) (I.left reader.new)
            (burst_read result (flow_of way self.old) (flow_of way self.new) piece.new) }
        ensures written { Appends (O.held writer.old) (O.held writer.new)
            (burst_written result (flow_of way self.old) piece.new) }
        ensures law { Moves (flow_of way self.old).bytes
            (burst_read result (flow_of way self.old) (flow_of way self.new) piece.new)
            (burst_written result (flow_of way self.old) piece.new) (flow_of way self.new).bytes }

        // Reads of at most `most` bytes, one write at most, and a fault only where the device failed.
        ensures read_calls { HasAsked (asks_reader (flow_of way self.old)) most
            (burst_count result (flow_of way self.old) (flow_of way self.new)) (I.calls reader.old)
            (I.calls reader.new) }
        ensures write_calls { O.calls writer.new ≡ burst_write_calls result (O.calls writer.old) }
        ensures read_failures { I.failures reader.new ≡ burst_read_failures result
            (I.failures reader.old) }
        ensures write_failures { O.failures writer.new ≡ burst_write_failures result
            (O.failures writer.old) }
        ensures read_stalls { IfOk result (λ b. I.stalls reader.new ≡ stop_stalls
            (asks_reader (flow_of way self.old)) b.read (Ok b.stop) (I.stalls reader.old)) }
        ensures write_stalls { O.stalls writer.new ≡ burst_write_stalls result
            (O.stalls writer.old) }
    {
        match way {
            Way::Forth => self.forth.burst(reader, writer, piece, most),
            Way::Back => self.back.burst(reader, writer, piece, most),
        }
    }

    /// Whether neither direction holds a byte and neither end came.
    pub fn is_idle(&self) -> bool
        ensures { IsTrue result ↔ (IsIdle self.now.forth × IsIdle self.now.back) }
    {
        self.forth.is_idle() && self.back.is_idle()
    }

    /// Whether the end of each direction came, and all that came before it went out.
    pub fn is_over(&self) -> bool
        ensures { IsTrue result ↔ (IsDone self.now.forth × IsDone self.now.back) }
    {
        self.forth.is_done() && self.back.is_done()
    }

    /// Begins again, as a new relay that gets these first bytes. It takes no memory.
    pub fn reset(&mut self, send: &[u8], rest: &[u8])
        requires { length send.now + length rest.now ≤ self.old.forth.capacity }
        ensures forth { self.new.forth ≡ record
            { bytes = send.now ++ rest.now; ended = false; capacity = self.old.forth.capacity } }
        ensures back { self.new.back ≡ record
            { bytes = []; ended = false; capacity = self.old.back.capacity } }
    {
        self.back.reset();
        let flow = &mut self.forth;
        flow.reset();
        flow.put(send);
        flow.put(rest);
    }

    /// Another header takes the place of the first so many bytes for the server, if there is room for it. It takes no memory.
    pub fn restart(&mut self, old: usize, send: &[u8]) -> bool
        ensures is { IsTrue result ↔ ((old ≤ length self.old.forth.bytes) ×
            (length send.now ≤ room self.old.forth + old)) }
        ensures forth { IsTrue result → self.new.forth ≡ record self.old.forth
            { bytes = send.now ++ drop old self.old.forth.bytes } }
        ensures back { self.new.back ≡ self.old.back }
    {
        let flow = &mut self.forth;
        let fits = old <= flow.len() && send.len().saturating_sub(old) <= flow.room();
        if fits {
            flow.replace_front(old, send);
        }
        fits
    }

    /// How many bytes each direction holds at the most, as they were made.
    pub fn capacity(&self) -> usize
        ensures { result ≡ self.now.forth.capacity }
    {
        self.forth.capacity()
    }

    /// Whether a burst of the direction would read: its end did not come, and there is room.
    pub fn asks(&self, way: Way) -> bool
        ensures { result ≡ asks_reader (flow_of way self.now) }
    {
        match way {
            Way::Forth => self.forth.asks_reader(),
            Way::Back => self.back.asks_reader(),
        }
    }

    /// Whether a direction holds bytes that are still to be written.
    pub fn holds(&self, way: Way) -> bool
        ensures { IsTrue result ↔ ((flow_of way self.now).bytes ≢ []) }
    {
        match way {
            Way::Forth => !self.forth.is_empty(),
            Way::Back => !self.back.is_empty(),
        }
    }

    /// Whether the end of a direction came, and all that came before it went out: then its writer may be shut.
    pub fn is_done(&self, way: Way) -> bool
        ensures { IsTrue result ↔ IsDone (flow_of way self.now) }
    {
        match way {
            Way::Forth => self.forth.is_done(),
            Way::Back => self.back.is_done(),
        }
    }
}
