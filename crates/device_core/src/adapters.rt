//! The readers and writers of `std` as devices.
ghost use Rattle.std.specs.Prelude.{◌≡◌, ◌↔◌, IsTrue};
ghost use Rattle.device_core.specs.Adapters.{IsPassing, IsReadAnswer, IsWriteAnswer};

use crate::device::{Failed, Got, Input, Output, Put};
use crate::tally::CallTally;
use std::io;
use std::io::{Error, ErrorKind, Read, Write};
use std::marker::Model;

/// A reader or a writer of `std`, with the counts of its calls.
#[derive(Drop)]
pub struct StdDevice<D> {
    inner: D,
    tally: CallTally,
}

/// A reader of `std`. An interrupted read and one that would block are blocked; any other error is a
/// failure.
pub type FromRead<R> = StdDevice<R>;

/// A writer of `std`. An interrupted write and one that would block are blocked; any other error and a
/// write of nothing are failures.
pub type ToWrite<W> = StdDevice<W>;

impl<D> Model for StdDevice<D> {
    ghost use Rattle.device_core.specs.Adapters.{Counted};

    ghost Value = { Counted D };

    ghost view = { λ d. record { device = d.inner; failures = d.tally.failures; calls = d.tally.calls; stalls = d.tally.stalls } };
}

impl<D> StdDevice<D> {
    ghost use Rattle.device_core.specs.Adapters.{fresh};

    pub fn of(inner: D) -> Self
        ensures { result ≡ fresh inner }
    {
        StdDevice {
            inner,
            tally: CallTally::new(),
        }
    }

    /// The reader or writer itself, for what is no read and no write. A read or a write that is made so is not
    /// counted.
    pub fn get_mut(&mut self) -> &mut D
        ensures { result.now ≡ self.old.device }
    {
        &mut self.inner
    }

    pub fn into_inner(self) -> D
        ensures { result ≡ self.device }
    {
        let StdDevice { inner, tally: _ } = self;
        inner
    }
}

impl<R: Read> Input for StdDevice<R> {
    ghost left = { λ d. R.remaining d.device };

    ghost failures = { λ d. d.failures };

    ghost calls = { λ d. d.calls };

    ghost stalls = { λ d. d.stalls };

    fn read(&mut self, buffer: &mut [u8]) -> Result<Got, Failed> {
        let answer = read_answer(self.inner.read(buffer));
        self.tally.count_read(answer);
        answer
    }
}

impl<W: Write> Output for StdDevice<W> {
    ghost held = { λ d. W.contents d.device };

    ghost failures = { λ d. d.failures };

    ghost calls = { λ d. d.calls };

    ghost stalls = { λ d. d.stalls };

    fn write(&mut self, bytes: &[u8]) -> Result<Put, Failed> {
        let answer = write_answer(self.inner.write(bytes));
        self.tally.count_write(answer);
        answer
    }
}

fn is_passing(error: &Error) -> bool
    ensures { IsTrue result ↔ IsPassing error.now }
{
    error.kind() == ErrorKind::Interrupted || error.kind() == ErrorKind::WouldBlock
}

fn read_answer(read: io::Result<usize>) -> Result<Got, Failed>
    ensures { IsReadAnswer read result }
{
    match read {
        Ok(0) => Ok(Got::End),
        Ok(count) => Ok(Got::Bytes(count)),
        Err(e) if is_passing(&e) => Ok(Got::Blocked),
        Err(_) => Err(Failed),
    }
}

fn write_answer(written: io::Result<usize>) -> Result<Put, Failed>
    ensures { IsWriteAnswer written result }
{
    match written {
        Ok(0) => Err(Failed),
        Ok(count) => Ok(Put::Bytes(count)),
        Err(e) if is_passing(&e) => Ok(Put::Blocked),
        Err(_) => Err(Failed),
    }
}
