//! A sink in memory.

use crew_core::{Sink, SinkFault};
use record_core::Segment;
use std::alloc::Global;

/// Keeps the segments that it takes. It refuses so many before the first of them.
#[derive(Drop)]
pub struct Shelf {
    pub segments: Vec<Segment>,
    /// How many records they have.
    pub records: u64,
    /// How many of them do not follow the one before.
    pub gaps: u64,
    refusals: u32,
}

impl Shelf {
    pub fn new(alloc: Global, refusals: u32) -> Shelf {
        Shelf {
            segments: Vec::new(alloc),
            records: 0,
            gaps: 0,
            refusals,
        }
    }

    /// Whether the segment is the next after those that are kept.
    fn is_next(&self, segment: &Segment) -> bool {
        match self.segments.last() {
            Some(last) => segment.follows(last),
            None => true,
        }
    }
}

impl Sink for Shelf {
    ghost takes = { λ old segment new. Unit {0} };

    ghost refuses = { λ old segment new. Unit {0} };

    fn take(&mut self, segment: Segment) -> Result<(), SinkFault> {
        if self.refusals > 0 {
            self.refusals -= 1;
            return Err(SinkFault);
        }
        if !self.is_next(&segment) {
            self.gaps = self.gaps.saturating_add(1);
        }
        let records = segment.records.len() as u64;
        if self.segments.push(segment).is_err() {
            return Err(SinkFault);
        }
        self.records = self.records.saturating_add(records);
        Ok(())
    }
}
