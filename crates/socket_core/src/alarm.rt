//! How the door wakes a worker.
use mio::Waker;
use std::sync::atomic::{AtomicBool, AtomicU64, Ordering};

/// What ends the wait of a worker from another thread. The system is asked only while the worker waits: one that works
/// learns of it before it waits again.
#[derive(Drop)]
pub struct Alarm {
    waker: Waker,
    /// How many times it was set off.
    rings: AtomicU64,
    /// Whether the worker waits, or is about to.
    is_waiting: AtomicBool,
}

impl Alarm {
    pub fn new(waker: Waker) -> Alarm {
        Alarm {
            waker,
            rings: AtomicU64::new(0),
            is_waiting: AtomicBool::new(false),
        }
    }

    /// Ends the wait of the worker, or else its next one.
    pub fn set_off(&self) {
        // In this order: either the worker that begins to wait sees the ring, or this sees that it waits.
        let _rings = self.rings.fetch_add(1, Ordering::SeqCst);
        if self.is_waiting.load(Ordering::SeqCst) {
            let _woken = self.waker.wake();
        }
    }

    /// The worker asks its poll, and waits there if it says so. How many times the alarm was set off until now.
    pub fn begin(&self, waits: bool) -> u64 {
        if waits {
            self.is_waiting.store(true, Ordering::SeqCst);
        }
        self.rings.load(Ordering::SeqCst)
    }

    /// Whether the worker waits, or is about to. One that was woken does so until it runs.
    pub fn is_waiting(&self) -> bool {
        self.is_waiting.load(Ordering::SeqCst)
    }

    /// The worker does not wait any more.
    pub fn end(&self) {
        self.is_waiting.store(false, Ordering::SeqCst);
    }
}
