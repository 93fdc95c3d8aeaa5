//! The records of a book, by their numbers.
ghost use Rattle.std.specs.Prelude.{◌≡◌, ◌+◌, ◌↔◌, IsTrue};
ghost use Rattle.std.specs.Option.{option_copied};
ghost use Rattle.desk_core.specs.Receipts.{record_at, record_from, record_listed, IsChain};

use record_core::{Record, Segment};
use std::marker::Model;

/// The record of that number in records of which the first has the number `first`.
fn find_at(first: u64, records: &[Record], number: u64) -> Option<&Record>
    ensures { option_copied result ≡ record_at first records.now number }
{
    if number < first {
        None
    } else {
        records.get((number - first) as usize)
    }
}

/// Whether each segment follows the one before it.
fn are_chained(segments: &[Segment]) -> bool
    ensures { IsTrue result ↔ IsChain segments.now }
{
    for at in 1..segments.len() {
        let before = &segments[at - 1];
        let segment = &segments[at];
        if !segment.follows(before) {
            return false;
        }
    }
    true
}

/// The record of that number in the first listed segment that has it.
fn find_listed(segments: &[Segment], number: u64) -> Option<&Record>
    ensures { option_copied result ≡ record_listed segments.now number }
{
    for segment in segments {
        if let Some(record) = find_at(segment.first, segment.records.as_slice(), number) {
            return Some(record);
        }
    }
    None
}

/// The same where each segment follows the one before it, by halving.
fn find_chained(segments: &[Segment], number: u64) -> Option<&Record>
    requires { IsChain segments.now }
    ensures { option_copied result ≡ record_listed segments.now number }
{
    let mut low = 0usize;
    let mut high = segments.len();
    while low < high {
        let middle = low + (high - low) / 2;
        let segment = &segments[middle];
        if number < segment.first {
            high = middle;
        } else {
            match find_at(segment.first, segment.records.as_slice(), number) {
                Some(record) => return Some(record),
                None => low = middle + 1,
            }
        }
    }
    None
}

/// The records of a book, in segments and in its journal. A contract sees where they are found.
#[derive(Drop)]
pub(crate) struct Records<'a> {
    segments: &'a [Segment],
    /// Whether each segment follows the one before it.
    chained: bool,
    /// How many records were made before those of the journal.
    before: u64,
    journal: &'a [Record],
}

impl<'a> Model for Records<'a> {
    ghost use Rattle.std.specs.Prelude.{◌+◌, IsTrue};
    ghost use Rattle.desk_core.specs.Receipts.{IsChain, RecordSources};

    ghost Value = { RecordSources };

    ghost view = { λ r. record { segments = r.segments.now; first = r.before + 1; journal = r.journal.now } };

    ghost invariant = { λ r. IsTrue r.chained → IsChain r.segments.now };
}

impl<'a> Records<'a> {
    /// The records of segments, and of a journal whose first record was made after so many others.
    pub fn new(segments: &'a [Segment], before: u64, journal: &'a [Record]) -> Records<'a>
        ensures { result ≡ record { segments = segments.now; first = before + 1; journal = journal.now } }
    {
        Records {
            segments,
            chained: are_chained(segments),
            before,
            journal,
        }
    }

    /// The record of that number. The journal is searched by how many records were made before it: the number of its first
    /// record would be 2^64, where all were handed on.
    pub fn find(&self, number: u64) -> Option<&Record>
        ensures { option_copied result ≡ record_from self.now number }
    {
        let found = if self.chained {
            find_chained(self.segments, number)
        } else {
            find_listed(self.segments, number)
        };
        match found {
            Some(record) => Some(record),
            None => find_at(1, self.journal, number.saturating_sub(self.before)),
        }
    }
}
