//! How the calls of a device in memory go.
ghost use Rattle.std.specs.Prelude.{◌≡◌};
ghost use Rattle.device_core.specs.Schedule.{is_among};

use std::alloc::{AllocError, Global};
use std::marker::Model;

/// Calls by their numbers, the first call of a device being 0: from `from` on, and below `to`.
#[derive(Clone, Copy)]
pub struct Calls {
    pub from: u64,
    pub to: u64,
}

/// How one call goes.
#[derive(Clone, Copy)]
pub(crate) enum Turn {
    Fails,
    Blocks,
    Moves,
}

/// How the calls of a device in memory go: which of them fail, which others are blocked, and how many
/// bytes one of the rest moves at most.
#[derive(Drop)]
pub struct Schedule {
    per_call: usize,
    blocked: Vec<Calls>,
    failing: Vec<Calls>,
}

impl Model for Schedule {
    ghost use Rattle.std.specs.Prelude.{◌<◌};
    ghost use Rattle.device_core.specs.Schedule.{Turns};

    ghost Value = { Turns };

    ghost view = { λ s. record { per_call = s.per_call; blocked = s.blocked.items; failing = s.failing.items } };

    ghost invariant = { λ s. 0 < s.per_call };
}

impl Schedule {
    ghost use Rattle.std.specs.Prelude.{◌<◌, [], IfOk};
    ghost use Rattle.device_core.specs.Schedule.{turn_of};

    /// No call fails or is blocked, and each moves as much as it can.
    pub fn plain(alloc: Global) -> Schedule
        ensures { result ≡ record { per_call = usize.MAX; blocked = []; failing = [] } }
    {
        Schedule {
            per_call: usize::MAX,
            blocked: Vec::new(alloc),
            failing: Vec::new(alloc),
        }
    }

    /// A call that is both among `failing` and among `blocked` fails.
    pub fn new(
        alloc: Global,
        per_call: usize,
        blocked: &[Calls],
        failing: &[Calls],
    ) -> Result<Schedule, AllocError>
        requires { 0 < per_call }
        ensures { IfOk result (λ s. s ≡ record { per_call = per_call; blocked = blocked.now; failing = failing.now }) }
    {
        let mut schedule = Schedule {
            per_call,
            blocked: Vec::new(alloc),
            failing: Vec::new(alloc),
        };
        schedule.blocked.extend_from_slice(blocked)?;
        schedule.failing.extend_from_slice(failing)?;
        Ok(schedule)
    }

    pub(crate) fn per_call(&self) -> usize
        ensures per_call { result ≡ self.now.per_call }
        ensures some { 0 < result }
    {
        self.per_call
    }

    pub(crate) fn turn(&self, number: u64) -> Turn
        ensures { result ≡ turn_of self.now number }
    {
        if is_among(&self.failing, number) {
            Turn::Fails
        } else if is_among(&self.blocked, number) {
            Turn::Blocks
        } else {
            Turn::Moves
        }
    }
}

fn is_among(spans: &[Calls], number: u64) -> bool
    ensures { result ≡ is_among spans.now number }
{
    spans
        .iter()
        .any(|span| span.from <= number && number < span.to)
}
