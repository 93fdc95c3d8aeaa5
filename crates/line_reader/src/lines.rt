//! Lines from a reader.
ghost use Rattle.std.specs.Prelude.{◌≡◌, ◌≢◌, ◌+◌, ◌-◌, ◌<◌, ◌≤◌, ◌++◌, [], length, drop, take, IfOk, OnOk, OnErr, Ok, Err, IfErr, true, false};
ghost use Rattle.device_core.specs.Device.{raised_by};
ghost use Rattle.line_reader.specs.Unended.{BeginsTooLong};
ghost use Rattle.text_core.specs.Parts.{BeginsWithLine, IsUnended};

use device_core::{Failed, Input, MOST_READS, Moved, read_on};
use memchr::memchr;
use std::alloc::{AllocError, Global};
use std::marker::Model;

/// How many bytes a line has at most, without its line feed.
pub const MOST_LINE_BYTES: usize = 131_200;

/// How many bytes are read at a time.
const BLOCK_BYTES: usize = 131_072;

/// What came next.
pub enum Next {
    /// A line that its line feed ends.
    Line,
    /// The last line, which lacks its line feed.
    LastLine,
    /// No line: the reader is at its end.
    End,
}

/// Why no line came.
pub enum ReadFault {
    /// The next line is longer than `MOST_LINE_BYTES`.
    TooLong,
    /// The reader failed, or its patience ran out.
    Read,
    NoMemory,
}

/// Reads lines from a reader that is handed in at each call. It makes at most `device_core::MOST_READS` reads.
#[derive(Drop)]
pub struct LineReader {
    block: Vec<u8>,
    at: usize,
    end: usize,
    line: Vec<u8>,
    reads: u32,
}

impl Model for LineReader {
    ghost use Rattle.std.specs.Prelude.{◌-◌, ◌≤◌, ◌<◌, drop, take, vec_len};
    ghost use Rattle.line_reader.specs.Lines.{LineState};

    ghost Value = { LineState };

    ghost view = { λ r. record { line = r.line.items; kept = take (r.end - r.at) (drop r.at r.block.items); reads = r.reads } };

    ghost invariant = { λ r. (r.at ≤ r.end) × (r.end ≤ vec_len r.block) × (0 < vec_len r.block) };
}

impl LineReader {
    ghost use Rattle.std.specs.Io.KnownBytes.{Consumes, Keeps};
    ghost use Rattle.device_core.specs.Patience.{IsUnblocked};
    ghost use Rattle.line_reader.specs.Lines.{ConsumesAll, Gathers, Gives, IsGivenUp};
    ghost use Rattle.line_reader.specs.declared.lines.ReadFault.TheVariants.{NoMemory, Read, TooLong};

    pub fn new(alloc: Global) -> Result<LineReader, AllocError>
        ensures { IfOk result (λ r. r ≡ record { line = []; kept = []; reads = MOST_READS }) }
    {
        Ok(LineReader {
            block: vec![in alloc; 0u8; BLOCK_BYTES]?,
            at: 0,
            end: 0,
            line: Vec::new(alloc),
            reads: MOST_READS,
        })
    }

    /// The line that came last, without its line feed. After a fault it is what was read of the next line.
    pub fn line(&self) -> &[u8]
        ensures { result.now ≡ self.now.line }
    {
        self.line.as_slice()
    }

    /// The bytes that were read and are in no line yet.
    fn kept(&self) -> &[u8]
        ensures { result.now ≡ self.now.kept }
    {
        &self.block[self.at..self.end]
    }

    /// Moves so many of the bytes that are kept to the end of the line, and skips so many more.
    fn take(&mut self, count: usize, skipped: usize) -> Result<(), ReadFault>
        requires { count + skipped ≤ length self.old.kept }
        ensures line { OnOk result (self.new.line ≡ self.old.line ++ take count self.old.kept) }
        ensures kept { OnOk result (self.new.kept ≡ drop (count + skipped) self.old.kept) }
        ensures reads { self.new.reads ≡ self.old.reads }
        ensures fits { OnOk result (length self.new.line ≤ MOST_LINE_BYTES) }
        ensures err { OnErr result (self.new ≡ self.old) }
        ensures too_long { IfErr result (λ f. f ≡ ReadFault.TooLong → MOST_LINE_BYTES < length self.old.line + count) }
        ensures not_read { result ≢ Err ReadFault.Read }
    {
        if self.line.len().saturating_add(count) > MOST_LINE_BYTES {
            return Err(ReadFault::TooLong);
        }
        let from = self.at;
        if self
            .line
            .extend_from_slice(&self.block[from..from + count])
            .is_err()
        {
            return Err(ReadFault::NoMemory);
        }
        self.at += count + skipped;
        Ok(())
    }

    /// Moves to the line what is kept of it, and says whether the line ended.
    fn take_kept(&mut self) -> Result<bool, ReadFault>
        requires { IsUnended self.old.line }
        ensures ended { result ≡ Ok true → BeginsWithLine (self.old.line ++ self.old.kept) self.new.line self.new.kept }
        ensures unended { result ≡ Ok false → IsUnended self.new.line }
        ensures all { result ≡ Ok false → self.new.line ≡ self.old.line ++ self.old.kept }
        ensures none { result ≡ Ok false → self.new.kept ≡ [] }
        ensures reads { self.new.reads ≡ self.old.reads }
        ensures fits { OnOk result (length self.new.line ≤ MOST_LINE_BYTES) }
        ensures err { OnErr result (self.new ≡ self.old) }
        ensures too_long { IfErr result (λ f. f ≡ ReadFault.TooLong → BeginsTooLong (self.old.line ++ self.old.kept)) }
        ensures not_read { result ≢ Err ReadFault.Read }
    {
        match memchr(b'\n', self.kept()) {
            Some(at) => {
                self.take(at, 1)?;
                Ok(true)
            }
            None => {
                let count = self.kept().len();
                self.take(count, 0)?;
                Ok(false)
            }
        }
    }

    /// Reads the next block, where nothing is kept of the last one, and says whether there is one.
    fn read_block<I: Input>(&mut self, reader: &mut I) -> Result<bool, ReadFault>
        requires { self.old.kept ≡ [] }
        ensures some { result ≡ Ok true → Consumes (I.left reader.old) (I.left reader.new) self.new.kept }
        ensures end { result ≡ Ok false → ConsumesAll (I.left reader.old) (I.left reader.new) [] }
        ensures none { result ≢ Ok true → self.new.kept ≡ [] }
        ensures line { self.new.line ≡ self.old.line }
        ensures err { IfErr result (λ f. f ≡ ReadFault.Read) }
        ensures err_moved { OnErr result (Keeps (I.left reader.old) (I.left reader.new)) }
        ensures failures { OnOk result (I.failures reader.new ≡ I.failures reader.old) }
        ensures stalls { OnOk result (I.stalls reader.new ≡ 0) }
        ensures given_up { OnErr result (IsGivenUp (I.failures reader.old) (I.failures reader.new) (I.stalls reader.old) (I.stalls reader.new) self.new.reads) }
        ensures calls { I.calls reader.new ≡ raised_by (self.old.reads - self.new.reads) (I.calls reader.old) }
        ensures no_more { self.new.reads ≤ self.old.reads }
        ensures fewer { OnOk result (self.new.reads < self.old.reads) }
    {
        self.at = 0;
        self.end = 0;
        match read_on(reader, self.block.as_mut_slice(), &mut self.reads) {
            Ok(Moved::Bytes(count)) => {
                self.end = count;
                Ok(true)
            }
            Ok(Moved::End) => Ok(false),
            Err(Failed) => Err(ReadFault::Read),
        }
    }

    /// Takes the next line, which `line` then gives. Nothing is lost by a fault; but the next line would begin after
    /// what was read until then, so a caller ends there.
    pub fn advance<I: Input>(&mut self, reader: &mut I) -> Result<Next, ReadFault>
        ensures gives { IfOk result (λ next. Gives next self.old self.new (I.left reader.old) (I.left reader.new)) }
        ensures err { OnErr result (Gathers self.old self.new (I.left reader.old) (I.left reader.new)) }
        ensures too_long { IfErr result (λ f. f ≡ ReadFault.TooLong → BeginsTooLong (self.new.line ++ self.new.kept)) }

        // Each read is counted, and one that failed is reported.
        ensures calls { I.calls reader.new ≡ raised_by (self.old.reads - self.new.reads) (I.calls reader.old) }
        ensures no_more { self.new.reads ≤ self.old.reads }
        ensures failures { result ≢ Err ReadFault.Read → I.failures reader.new ≡ I.failures reader.old }
        ensures stalls { result ≢ Err ReadFault.Read → IsUnblocked (I.stalls reader.old) (I.stalls reader.new) }
        ensures given_up { result ≡ Err ReadFault.Read →
            IsGivenUp (I.failures reader.old) (I.failures reader.new) (I.stalls reader.old) (I.stalls reader.new) self.new.reads }
    {
        self.line.clear();
        loop {
            if self.take_kept()? {
                return Ok(Next::Line);
            }
            if !self.read_block(reader)? {
                if self.line.is_empty() {
                    return Ok(Next::End);
                }
                return Ok(Next::LastLine);
            }
        }
    }
}
