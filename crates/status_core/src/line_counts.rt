//! Counts by the lines of a configuration.
use std::alloc::Global;
use std::collections::BTreeMap;

/// Of so many lines each has a number of its own.
const MOST_LINES: usize = 4_096;

/// Counts by line. Where there are too many lines, or no memory for one more, its events are counted together with those
/// of others like it, so that none is lost.
#[derive(Drop)]
pub(crate) struct LineCounts {
    counts: BTreeMap<u32, u64>,
    other: u64,
}

impl LineCounts {
    pub(crate) fn new(alloc: Global) -> LineCounts {
        LineCounts {
            counts: BTreeMap::new(alloc),
            other: 0,
        }
    }

    /// By line, in rising order.
    pub(crate) fn lines(&self) -> &BTreeMap<u32, u64> {
        &self.counts
    }

    /// Of all lines that have no number of their own.
    pub(crate) fn other(&self) -> u64 {
        self.other
    }

    /// So many more of a line.
    pub(crate) fn add(&mut self, line: u32, more: u64) {
        let has_room = self.counts.len() < MOST_LINES || self.counts.contains_key(&line);
        if !has_room || !self.add_own(line, more) {
            self.other = self.other.saturating_add(more);
        }
    }

    /// Adds to the number of a line; whether there was memory for it.
    fn add_own(&mut self, line: u32, more: u64) -> bool {
        match self.counts.entry(line) {
            Ok(entry) => {
                let count = entry.or_insert(0);
                *count = count.saturating_add(more);
                true
            }
            Err(_full) => false,
        }
    }

    /// Adds the counts of another tally.
    pub(crate) fn add_all(&mut self, more: &LineCounts) {
        for (line, count) in more.counts.iter() {
            self.add(*line, *count);
        }
        self.other = self.other.saturating_add(more.other);
    }
}
