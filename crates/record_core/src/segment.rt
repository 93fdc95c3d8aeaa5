//! Records in a row.
ghost use Rattle.std.specs.Prelude.{◌≡◌, ◌↔◌, ◌+◌, length, IsTrue};

use crate::record::Record;
use list_core::Seq;

/// Records in a row, the oldest first.
#[derive(Debug, Drop)]
pub struct Segment {
    /// The number of the first record.
    pub first: u64,
    pub records: Seq<Record>,
}

impl Segment {
    /// Whether its records come next after those of that segment.
    pub fn follows(&self, before: &Segment) -> bool
        ensures { IsTrue result ↔ (self.now.first ≡ before.now.first + length before.now.records) }
    {
        match self.first.checked_sub(before.first) {
            Some(count) => count == before.records.len() as u64,
            None => false,
        }
    }
}
