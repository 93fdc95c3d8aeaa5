//! What a run should come to.
use crate::tests::play::{Play, Seen, Word, run};
use crew_core::{Backlog, Summary};
use desk_core::{SettleFault, Settled};
use std::alloc::Global;
use std::sync::Wait;
use std::thread::Threads;
use std::time::Clock;

/// What a run should come to. What is `None` is not asked for.
#[derive(Clone, Copy, Debug)]
pub struct Outcome {
    pub settled: Result<Settled, SettleFault>,
    pub summary: Option<Summary>,
    pub calls: Option<u64>,
    /// Whether the server and the client have all bytes.
    pub bytes: Option<(bool, bool)>,
    pub reloads: (u32, u32),
    pub warned: Option<Backlog>,
}

/// A run that makes so many records, of which no connection is left.
pub fn made(records: u64) -> Outcome {
    Outcome {
        settled: Ok(Settled {
            made: records,
            live: 0,
        }),
        summary: None,
        calls: None,
        bytes: None,
        reloads: (0, 0),
        warned: None,
    }
}

/// A run in which so many connections come and are taken, of which so many are closed, and all records go out.
pub fn counted(records: u64, taken: u64, closed: u64) -> Outcome {
    Outcome {
        summary: Some(Summary {
            accepted: taken,
            taken,
            closed,
            recorded: records,
            sink_failed: 0,
            began: true,
        }),
        ..made(records)
    }
}

impl Outcome {
    /// The same, where the server and the client have all bytes or not.
    pub fn with_bytes(self, served: bool, answered: bool) -> Outcome {
        Outcome {
            bytes: Some((served, answered)),
            ..self
        }
    }
}

impl Seen {
    /// What is not as it should be, if anything is not.
    pub fn difference(&self, wanted: &Outcome) -> Option<&'static str> {
        if self.fault.is_some() {
            return Some("it does not run");
        }
        if self.settled != wanted.settled {
            return Some("what is settled");
        }
        if wanted.summary.is_some() && Some(self.summary) != wanted.summary {
            return Some("the summary");
        }
        if wanted.calls.is_some() && Some(self.calls) != wanted.calls {
            return Some("the calls");
        }
        self.other_difference(wanted)
    }

    /// What is wrong with the bytes, or with what is reported to the door.
    fn other_difference(&self, wanted: &Outcome) -> Option<&'static str> {
        let bytes = Some((self.is_served, self.is_answered));
        if self.is_wrong || (wanted.bytes.is_some() && bytes != wanted.bytes) {
            return Some("the bytes");
        }
        if self.reloads != wanted.reloads {
            return Some("the reloads");
        }
        if self.warned != wanted.warned {
            return Some("the warning");
        }
        None
    }
}

/// What is wrong with a run, which should make these records, if anything is.
pub fn fault_of<R: Threads + Wait + Sync, H: Clock + Copy + Send + Sync + Drop>(
    rt: &R,
    alloc: Global,
    sleeper: H,
    play: &Play<'_>,
    words: &[Word],
    wanted: &Outcome,
) -> Option<&'static str> {
    let Some(ended) = run(rt, alloc, sleeper, play) else {
        return Some("there is no memory");
    };
    if ended.words.as_slice() != words {
        return Some("the records");
    }
    ended.seen.difference(wanted)
}
