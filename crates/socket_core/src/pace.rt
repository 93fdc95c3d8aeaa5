//! How often the log speaks of a cause.
ghost use Rattle.std.specs.Prelude.{◌≡◌, ◌↔◌, ◌≤◌, ◌+◌, IsTrue, IfSome, Some};

use std::sync::atomic::{AtomicU64, Ordering};

/// How long a cause is not spoken of again, in ms.
pub const SILENCE: u64 = 1000;

/// When one cause was last spoken of, so that a cause that goes on does not fill the log.
#[derive(Clone, Copy, Debug)]
pub struct Pace {
    /// The moment of the last line, in ms.
    pub last: Option<u64>,
}

impl Pace {
    /// Of a cause that was not spoken of yet.
    pub const fn new() -> Pace {
        Pace { last: None }
    }

    /// Whether a line may be written at that moment, in ms. If so, it is the last one from now on.
    pub fn allows(&mut self, now: u64) -> bool
        ensures due { IsTrue result ↔ IfSome self.old.last (λ last. last + SILENCE ≤ now) }
        ensures spoken { IsTrue result → self.new.last ≡ Some now }
        ensures silent { ¬ IsTrue result → self.new ≡ self.old }
    {
        let is_due = match self.last {
            None => true,
            Some(last) => now.saturating_sub(last) >= SILENCE,
        };
        if is_due {
            self.last = Some(now);
        }
        is_due
    }
}

/// The same of a cause that several threads speak of.
#[derive(Drop)]
pub struct SharedPace {
    /// From when on a line may be written, in ms.
    next: AtomicU64,
}

impl SharedPace {
    /// Of a cause that was not spoken of yet.
    pub fn new() -> SharedPace {
        SharedPace {
            next: AtomicU64::new(0),
        }
    }

    /// Whether a line may be written at that moment, in ms. Of several threads that ask at one time only one may.
    pub fn allows(&self, now: u64) -> bool {
        let next = self.next.load(Ordering::SeqCst);
        next <= now
            && self
                .next
                .fetch_max(now.saturating_add(SILENCE), Ordering::SeqCst)
                == next
    }
}
