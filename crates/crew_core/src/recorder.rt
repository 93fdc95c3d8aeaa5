//! The thread that hands segments on while a crew works.
ghost use Rattle.std.specs.Prelude.{◌≡◌};
ghost use Rattle.crew_core.specs.Outlets.{HasHandedOn};

use crate::calls::WorkerContext;
use crate::outlet::{Outlet, Sink, drain};
use book_core::CutFault;
use desk_core::Opening;
use link_core::{Backlog, Clock, Gate};
use std::sync::Wait;
use std::sync::atomic::{AtomicBool, AtomicU64, Ordering};
use std::sync::ledger::Ledger;
use std::thread::Parker;
use std::time::Duration;

/// Where fewer records come than a segment has, those in memory are handed on after so many ms.
const LONGEST: u64 = 1_000;

/// A record whose number is a multiple of this one ends a segment.
const SEGMENT: u64 = 256;

/// What wakes the recorder, what ends it, what it has to report, how many threads began, and whether all did.
#[derive(Drop)]
pub(crate) struct Alert {
    parker: Parker,
    is_over: AtomicBool,
    /// How many segments the sink refused so far.
    refused: AtomicU64,
    /// Whether some thread cuts the records in memory.
    is_cutting: AtomicBool,
    /// How many records at least are in memory because the ring had no room at the latest cut. Only the thread that cuts
    /// changes it.
    waiting: AtomicU64,
    /// How many workers began their work, and the recorder.
    began: AtomicU64,
    /// Whether all of them began, so that connections may be taken.
    is_open: AtomicBool,
}

impl Alert {
    pub(crate) fn new() -> Alert {
        Alert {
            parker: Parker::new(),
            is_over: AtomicBool::new(false),
            refused: AtomicU64::new(0),
            is_cutting: AtomicBool::new(false),
            waiting: AtomicU64::new(0),
            began: AtomicU64::new(0),
            is_open: AtomicBool::new(false),
        }
    }

    /// A worker or the recorder begins its work.
    pub(crate) fn begin(&self) {
        let _before = self.began.fetch_add(1, Ordering::SeqCst);
    }

    /// How many workers began their work, and the recorder.
    pub(crate) fn began(&self) -> u64 {
        self.began.load(Ordering::SeqCst)
    }

    /// All workers began, and the recorder.
    pub(crate) fn open(&self) {
        self.is_open.store(true, Ordering::SeqCst);
    }

    /// Whether connections may be taken.
    pub(crate) fn is_open(&self) -> bool {
        self.is_open.load(Ordering::SeqCst)
    }

    /// The crew's work is over.
    pub(crate) fn end(&self) {
        self.is_over.store(true, Ordering::SeqCst);
        self.parker.unpark();
    }

    /// How many segments the sink refused so far.
    pub(crate) fn refused(&self) -> u64 {
        self.refused.load(Ordering::SeqCst)
    }

    /// What keeps the record from going out, if anything does.
    pub(crate) fn backlog(&self) -> Option<Backlog> {
        let backlog = Backlog {
            refused: self.refused.load(Ordering::SeqCst),
            waiting: self.waiting.load(Ordering::SeqCst),
        };
        if backlog.refused == 0 && backlog.waiting == 0 {
            None
        } else {
            Some(backlog)
        }
    }
}

impl<'a, M: Ledger, O: Ledger, B: Opening, G: Gate, C: Clock> WorkerContext<'a, M, O, B, G, C> {
    /// A record of that number was made. If it ends a segment, those in memory are handed to the recorder.
    pub(crate) fn note<R: Wait>(&self, rt: &R, number: u64) {
        self.meters.note_made();
        if number % SEGMENT == 0 {
            self.cut(rt, SEGMENT);
        }
    }

    /// Hands the records in memory to the recorder. If the ring has no room they stay in memory, so many more than
    /// before, and are handed on with a later segment. While another thread cuts, this one leaves them to the next cut and
    /// does not wait: two cuts at once could be counted in another order than they were made in.
    fn cut<R: Wait>(&self, rt: &R, more: u64) {
        if self.alert.is_cutting.swap(true, Ordering::SeqCst) {
            return;
        }
        match self.desk.cut(rt) {
            Ok(()) => {
                self.meters.note_cut();
                self.alert.waiting.store(0, Ordering::SeqCst);
                self.alert.parker.unpark();
            }
            Err(CutFault::Full) => {
                self.alert.waiting.fetch_add(more, Ordering::SeqCst);
            }
            Err(CutFault::Nothing) => self.alert.waiting.store(0, Ordering::SeqCst),
        }
        self.alert.is_cutting.store(false, Ordering::SeqCst);
    }

    /// Waits for a segment, and cuts the records in memory if few of them come. It is handed, and gives back, the moment
    /// of its last cut, in ms.
    fn wait_for_segment<R: Wait>(&self, rt: &R, latest: u64) -> u64 {
        let now = self.clock.now();
        let left = LONGEST.saturating_sub(now.saturating_sub(latest));
        if left > 0 {
            let pause = Duration::from_millis(left);
            self.alert.parker.park_timeout(rt, pause);
            return latest;
        }
        self.cut(rt, 0);
        now
    }

    /// Hands the segments of the ring to the sink until the crew's work is over. How many of them the sink refused.
    pub(crate) fn hand_on<S: Sink, R: Wait>(&self, rt: &R, outlet: Outlet<S>) -> (Outlet<S>, u64)
        ensures { HasHandedOn S.takes S.refuses 0 outlet result.1 result.0 }
    {
        self.alert.begin();
        let mut outlet = outlet;
        let mut refused = 0u64;
        let mut latest = self.clock.now();
        for _round in rt.forever() {
            refused = drain(rt, self.meters, &mut outlet, refused);
            self.alert.refused.store(refused, Ordering::SeqCst);
            if self.alert.is_over.load(Ordering::SeqCst) {
                return (outlet, refused);
            }
            latest = self.wait_for_segment(rt, latest);
        }
        unreachable!()
    }
}
