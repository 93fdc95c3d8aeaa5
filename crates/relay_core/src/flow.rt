//! A flow: one direction of a connection.
ghost use Rattle.std.specs.Prelude.{◌≡◌, ◌<◌, ◌≤◌, ◌+◌, ◌∷◌, ◌++◌, [], ◌↔◌, IfOk, IsTrue, true, length, take, drop};
ghost use Rattle.std.specs.Io.KnownBytes.{Consumes, Appends};
ghost use Rattle.relay_core.specs.Law.{Moves};
ghost use Rattle.relay_core.specs.Flow.{room, IsDone, IsIdle, asks_reader, IsFillAnswer, read_in, after_fill, fill_calls, fill_failures, fill_stalls, IsDrainAnswer, drained_count, after_drain, drain_calls, drain_failures, drain_stalls};

use crate::once::{read_front, write_once};
use circular_buffer::HeapCircularBuffer;
use device_core::{Input, Output};
use std::alloc::{AllocError, Global};
use std::marker::Model;

/// What a fill did.
#[derive(Clone, Copy, PartialEq, Eq)]
pub enum Filled {
    /// So many bytes came in. Fewer than were asked for, which is the least of the piece's length and
    /// the room, is a short read.
    Bytes(usize),
    /// The reader is at its end, now or since an earlier fill.
    End,
    /// The reader has nothing at this moment.
    Blocked,
    /// There is no room, and the reader was not asked.
    NoRoom,
}

/// What a drain did.
#[derive(Clone, Copy, PartialEq, Eq)]
pub enum Drained {
    /// So many bytes went out.
    Bytes(usize),
    /// The writer takes nothing at this moment.
    Blocked,
    /// Nothing is held, and the writer was not asked.
    Empty,
}

/// Which of the two devices failed.
#[derive(Clone, Copy, PartialEq, Eq)]
pub enum FlowFault {
    Read,
    Write,
}

/// Bytes that were read and wait to be written, in the order in which they came.
#[derive(Drop)]
pub struct Flow {
    ring: HeapCircularBuffer<u8>,
    ended: bool,
}

impl Model for Flow {
    ghost use Rattle.relay_core.specs.Flow.{Held};

    ghost Value = { Held };

    ghost view = { λ f. record { bytes = f.ring.items; ended = f.ended; capacity = f.ring.capacity } };
}

impl Flow {
    ghost use Rattle.std.specs.Prelude.{false};

    /// A flow that holds `cap` bytes at most. No other call takes memory.
    pub fn new(alloc: Global, cap: usize) -> Result<Flow, AllocError>
        ensures { IfOk result (λ f. f ≡ record { bytes = []; ended = false; capacity = cap }) }
    {
        let ring = HeapCircularBuffer::with_capacity(alloc, cap)?;
        Ok(Flow { ring, ended: false })
    }

    /// How many bytes it holds at the most.
    pub fn capacity(&self) -> usize
        ensures { result ≡ self.now.capacity }
    {
        self.ring.capacity()
    }

    /// How many bytes it holds.
    pub fn len(&self) -> usize
        ensures { result ≡ length self.now.bytes }
    {
        self.ring.len()
    }

    /// How many more bytes there is room for.
    pub fn room(&self) -> usize
        ensures { result ≡ room self.now }
    {
        self.ring.capacity() - self.ring.len()
    }

    /// Whether no byte will go out any more: then the write side may be shut.
    pub fn is_done(&self) -> bool
        ensures { IsTrue result ↔ IsDone self.now }
    {
        self.ended && self.is_empty()
    }

    /// Whether nothing is held.
    pub fn is_empty(&self) -> bool
        ensures { IsTrue result ↔ (self.now.bytes ≡ []) }
    {
        self.ring.is_empty()
    }

    /// Whether nothing is held and the end did not come.
    pub fn is_idle(&self) -> bool
        ensures { IsTrue result ↔ IsIdle self.now }
    {
        self.is_empty() && !self.ended
    }

    /// Begins again, with nothing held. The memory stays.
    pub fn reset(&mut self)
        ensures { self.new ≡ record self.old { bytes = []; ended = false } }
    {
        self.ring.clear();
        self.ended = false;
    }

    /// Lets bytes follow those that are held.
    pub fn put(&mut self, bytes: &[u8])
        requires { length bytes.now ≤ room self.old }
        ensures { self.new ≡ record self.old { bytes = self.old.bytes ++ bytes.now } }
    {
        self.ring.fill_from_slice(bytes);
    }

    /// Lets other bytes take the place of the first so many.
    pub fn replace_front(&mut self, old: usize, new: &[u8])
        requires held { old ≤ length self.old.bytes }
        requires fits { length new.now ≤ room self.old + old }
        ensures { self.new ≡ record self.old { bytes = new.now ++ drop old self.old.bytes } }
    {
        let kept = self.ring.len() - old;
        self.ring.truncate_front(kept);
        let mut left = new.len();
        while left > 0 {
            left -= 1;
            self.put_front(new[left]);
        }
    }

    /// Lets a byte precede those that are held.
    fn put_front(&mut self, byte: u8)
        requires { 0 < room self.old }
        ensures { self.new ≡ record self.old { bytes = byte ∷ self.old.bytes } }
    {
        // There is room, so that no byte gives way.
        let _none = self.ring.push_front(byte);
    }

    pub(crate) fn asks_reader(&self) -> bool
        ensures asks { result ≡ asks_reader self.now }
        ensures some { IsTrue result → 0 < room self.now }
    {
        !self.ended && self.room() > 0
    }

    /// Reads once, as much as fits into the piece and there is room for. The piece is lent for the
    /// call; what it held is of no account.
    pub fn fill<I: Input>(&mut self, reader: &mut I, piece: &mut [u8]) -> Result<Filled, FlowFault>
        requires { 0 < length piece.old }
        ensures answer { IsFillAnswer (asks_reader self.old) self.old (length piece.old) (I.left reader.old) result }
        ensures after { self.new ≡ after_fill self.old result piece.new }
        ensures read { Consumes (I.left reader.old) (I.left reader.new) (read_in result piece.new) }
        ensures law { Moves self.old.bytes (read_in result piece.new) [] self.new.bytes }
        ensures calls { I.calls reader.new ≡ fill_calls (asks_reader self.old) (I.calls reader.old) }
        ensures failures { I.failures reader.new ≡ fill_failures result (I.failures reader.old) }
        ensures stalls { I.stalls reader.new ≡ fill_stalls (asks_reader self.old) result (I.stalls reader.old) }
    {
        if !self.asks_reader() {
            return Ok(if self.ended {
                Filled::End
            } else {
                Filled::NoRoom
            });
        }
        let most = self.room().min(piece.len());
        let answer = read_front(reader, piece, most);
        match answer {
            Ok(Filled::Bytes(count)) => {
                self.put(&piece[..count]);
            }
            Ok(Filled::End) => {
                self.end();
            }
            _ => {}
        }
        answer
    }

    pub(crate) fn end(&mut self)
        ensures { self.new ≡ record self.old { ended = true } }
    {
        self.ended = true;
    }

    /// The held bytes as far as they lie side by side, from the first on.
    fn front(&self) -> &[u8]
        ensures front { result.now ≡ take (length result.now) self.now.bytes }
        ensures some { 0 < length self.now.bytes → 0 < length result.now }
    {
        let (front, back) = self.ring.as_slices();
        if front.is_empty() { back } else { front }
    }

    /// Writes once, from the first byte on. What the writer did not take stays held; held bytes that
    /// go round the end of their block go out in two calls.
    pub fn drain<O: Output>(&mut self, writer: &mut O) -> Result<Drained, FlowFault>
        ensures answer { IsDrainAnswer self.old.bytes result }
        ensures after { self.new ≡ after_drain self.old result }
        ensures written { Appends (O.held writer.old) (O.held writer.new) (take (drained_count result) self.old.bytes) }
        ensures law { Moves self.old.bytes [] (take (drained_count result) self.old.bytes) self.new.bytes }
        ensures calls { O.calls writer.new ≡ drain_calls result (O.calls writer.old) }
        ensures failures { O.failures writer.new ≡ drain_failures result (O.failures writer.old) }
        ensures stalls { O.stalls writer.new ≡ drain_stalls result (O.stalls writer.old) }
    {
        if self.is_empty() {
            return Ok(Drained::Empty);
        }
        let answer = write_once(writer, self.front());
        if let Ok(Drained::Bytes(count)) = answer {
            let left = self.ring.len() - count;
            self.ring.truncate_front(left);
        }
        answer
    }
}
