//! The time of the system.
use link_core::Clock;
use std::sync::atomic::{AtomicU64, Ordering};
use std::time::{Duration, Instant};
use std::{io, rt, thread};

/// How long a rest is, in ms.
const REST: u64 = 1;

/// Counts ms since it was started, by the system's monotonic clock.
#[derive(Drop)]
pub struct SystemClock<'a, R: rt::Clock> {
    rt: &'a R,
    start: Instant,
    // The greatest moment that was given.
    latest: AtomicU64,
}

impl<'a, R: rt::Clock> SystemClock<'a, R> {
    /// Fails where the system gives no time.
    pub fn start(rt: &'a R) -> io::Result<SystemClock<'a, R>> {
        Ok(SystemClock {
            rt,
            start: Instant::now(rt)?,
            latest: AtomicU64::new(0),
        })
    }
}

impl<'a, R: rt::Clock> Clock for SystemClock<'a, R> {
    /// In ms. Where the system gives no time, it is the greatest moment that was given.
    fn now(&self) -> u64 {
        let latest = self.latest.load(Ordering::SeqCst);
        let Ok(since) = self.start.elapsed(self.rt) else {
            return latest;
        };
        let now = u64::try_from(since.as_millis()).unwrap_or(u64::MAX);
        if now <= latest {
            return latest;
        }
        self.latest.fetch_max(now, Ordering::SeqCst).max(now)
    }

    fn rest(&self) {
        thread::sleep(self.rt, Duration::from_millis(REST));
    }
}
