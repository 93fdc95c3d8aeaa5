//! What the fakes of one run share: marks, which they set and wait for, and the time.

use crew_core::{Clock, Gate};
use std::sync::Arc;
use std::sync::atomic::{AtomicBool, AtomicU64, Ordering};
use std::time::Duration;
use std::{thread, time};

/// What has happened in a run.
#[derive(Clone, Copy, Debug, PartialEq, Eq)]
pub enum Mark {
    /// The first call of worker 1 has left its gate.
    FirstCallLeft,
    /// The server has all bytes that it should be sent.
    Served,
    /// The client has all bytes that it should be sent.
    Answered,
    /// A link was sent something else.
    Wrong,
    /// The link of the first client was dropped.
    FirstOver,
    /// The link of the second client was dropped.
    SecondOver,
    /// The door was told that the record does not go out as it should.
    Warned,
}

/// The marks and the time.
#[derive(Drop)]
pub struct Stage {
    first_call_left: AtomicBool,
    served: AtomicBool,
    answered: AtomicBool,
    wrong: AtomicBool,
    first_over: AtomicBool,
    second_over: AtomicBool,
    warned: AtomicBool,
    now: AtomicU64,
    /// By how many ms the time goes on when a dial waits.
    step: u64,
}

impl Stage {
    pub fn new(step: u64) -> Stage {
        Stage {
            first_call_left: AtomicBool::new(false),
            served: AtomicBool::new(false),
            answered: AtomicBool::new(false),
            wrong: AtomicBool::new(false),
            first_over: AtomicBool::new(false),
            second_over: AtomicBool::new(false),
            warned: AtomicBool::new(false),
            now: AtomicU64::new(0),
            step,
        }
    }

    fn place(&self, mark: Mark) -> &AtomicBool {
        match mark {
            Mark::FirstCallLeft => &self.first_call_left,
            Mark::Served => &self.served,
            Mark::Answered => &self.answered,
            Mark::Wrong => &self.wrong,
            Mark::FirstOver => &self.first_over,
            Mark::SecondOver => &self.second_over,
            Mark::Warned => &self.warned,
        }
    }

    pub fn set(&self, mark: Mark) {
        self.place(mark).store(true, Ordering::SeqCst);
    }

    pub fn has(&self, mark: Mark) -> bool {
        self.place(mark).load(Ordering::SeqCst)
    }

    /// Whether a mark is set that is waited for, if one is.
    pub fn has_come(&self, mark: Option<Mark>) -> bool {
        match mark {
            Some(mark) => self.has(mark),
            None => true,
        }
    }

    /// The time goes on.
    pub fn go_on(&self) {
        self.now.fetch_add(self.step, Ordering::SeqCst);
    }
}

/// The time of a stage. A thread that has nothing to do sleeps for 1 ms.
#[derive(Drop)]
pub struct FakeClock<H: time::Clock> {
    pub sleeper: H,
    pub stage: Arc<Stage>,
}

impl<H: time::Clock> Clock for FakeClock<H> {
    fn now(&self) -> u64 {
        self.stage.now.load(Ordering::SeqCst)
    }

    fn rest(&self) {
        sleep(&self.sleeper);
    }
}

/// Sleeps for 1 ms.
pub fn sleep<H: time::Clock>(sleeper: &H) {
    thread::sleep(sleeper, Duration::from_millis(1));
}

/// A gate that lets each worker make so many calls.
#[derive(Drop)]
pub struct FakeGate<H: time::Clock> {
    pub sleeper: H,
    pub stage: Arc<Stage>,
    pub calls: u64,
    /// Whether the first call of worker 1, to which the first connection of two workers goes, waits until that of worker 0
    /// has left, for 10,000 turns of 1 ms at the most.
    pub holds: bool,
}

impl<H: time::Clock> Gate for FakeGate<H> {
    fn enter(&self, worker: u16, nth: u64) -> bool {
        if self.holds && worker == 1 && nth == 0 {
            for _turn in 0..10_000u32 {
                if self.stage.has(Mark::FirstCallLeft) {
                    break;
                }
                sleep(&self.sleeper);
            }
        }
        nth < self.calls
    }

    fn leave(&self, worker: u16, nth: u64) {
        if worker == 0 && nth == 0 {
            self.stage.set(Mark::FirstCallLeft);
        }
    }
}
