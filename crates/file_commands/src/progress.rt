//! How far a long record has been read, on standard error.
use std::io::Read;
use std::rt::Files;
use std::time::Instant;
use std::{fs, io, rt};

/// A record is long if it takes more ms than these to read it. Of another one nothing is reported.
const LONG: u64 = 250;

/// The time between two reports, in ms. The last one of a record does not wait, so at most ten come in a second.
const PAUSE: u64 = 125;

/// Moves to the row of the last report, and empties it.
const LAST_ROW: &str = "\x1b[A\x1b[2K";

/// Which of the standard streams are terminals.
#[derive(Clone, Copy)]
pub struct Terminals {
    pub output: bool,
    pub errors: bool,
}

/// What of the line of a record was read.
#[derive(Drop)]
enum Column {
    Nothing,
    /// An equals sign. A space after it makes this the reply of an entry.
    EqualsSign,
    More,
}

/// What was read of a record, and when that is reported next.
#[derive(Drop)]
struct Progress<'a, R: rt::Clock> {
    rt: &'a R,
    record: &'a str,
    /// What is done to its entries.
    verb: &'a str,
    /// How many bytes it has, if it is a file.
    size: u64,
    bytes: u64,
    entries: u64,
    column: Column,
    begun: Instant,
    /// The time of the next report, in ms.
    due: u64,
    is_reported: bool,
}

impl<'a, R: rt::Clock + Eprint> Progress<'a, R> {
    /// The ms since its reading began, or 0 if the system gives no time.
    fn elapsed(&self) -> u64 {
        match self.begun.elapsed(self.rt) {
            Ok(since) => u64::try_from(since.as_millis()).unwrap_or(u64::MAX),
            Err(_) => 0,
        }
    }

    fn count(&mut self, bytes: &[u8], count: usize) {
        for byte in bytes.iter().take(count) {
            self.bytes = self.bytes.saturating_add(1);
            self.column = match (&self.column, *byte) {
                (_, b'\n') => Column::Nothing,
                (Column::Nothing, b'=') => Column::EqualsSign,
                (Column::EqualsSign, b' ') => {
                    self.entries = self.entries.saturating_add(1);
                    Column::More
                }
                _ => Column::More,
            };
        }
    }

    fn report(&mut self) {
        let last = if self.is_reported { LAST_ROW } else { "" };
        let Progress {
            record,
            entries,
            verb,
            ..
        } = self;
        let _written = match self.bytes.saturating_mul(100).checked_div(self.size) {
            Some(percent) => {
                eprintln!(self.rt;
                    "{last}l4proxy: {record}: {entries} entries {verb}, {percent} % of its bytes"
                )
            }
            None => eprintln!(self.rt; "{last}l4proxy: {record}: {entries} entries {verb}"),
        };
        self.is_reported = true;
    }

    /// Counts what was read, and reports it if that is due. Nothing more is read after no bytes.
    fn take(&mut self, bytes: &[u8], count: usize) {
        self.count(bytes, count);
        let now = self.elapsed();
        if now >= self.due || count == 0 && self.is_reported {
            self.report();
            self.due = now.saturating_add(PAUSE);
        }
    }
}

/// The reader of a record, whose progress may be reported.
#[derive(Drop)]
pub struct Watched<'a, F, R: rt::Clock> {
    file: F,
    progress: Option<Progress<'a, R>>,
}

impl<'a, F, R: rt::Clock + Files> Watched<'a, F, R> {
    /// The reader of that record, whose entries are counted as `checked` or the like. Nothing is reported if it is not to be,
    /// or if the system gives no time.
    pub fn new(rt: &'a R, file: F, record: &'a str, verb: &'a str, reports: bool) -> Self {
        let begun = if reports { Instant::now(rt).ok() } else { None };
        let size = match fs::metadata(rt, record) {
            Ok(known) => known.len(),
            Err(_) => 0,
        };
        Watched {
            file,
            progress: begun.map(|begun| Progress {
                rt,
                record,
                verb,
                size,
                bytes: 0,
                entries: 0,
                column: Column::Nothing,
                begun,
                due: LONG,
                is_reported: false,
            }),
        }
    }
}

impl<'a, F: Read, R: rt::Clock + Eprint> Read for Watched<'a, F, R> {
    ghost remaining = { λ w. F.remaining w.file };

    fn read(&mut self, buf: &mut [u8]) -> io::Result<usize> {
        let count = self.file.read(buf)?;
        if let Some(progress) = &mut self.progress {
            progress.take(buf, count);
        }
        Ok(count)
    }
}
