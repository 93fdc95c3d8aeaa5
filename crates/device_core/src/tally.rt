//! What was counted of a device's calls.
ghost use Rattle.std.specs.Prelude.{◌≡◌};
ghost use Rattle.device_core.specs.Device.{raised, failures_after, read_stalls, write_stalls};

use crate::device::{Failed, Got, Put};

/// How often a device failed, how many calls were made, and how many of the last in a row were
/// blocked. Each count stays at the greatest `u64`.
#[derive(Clone, Copy)]
pub struct CallTally {
    pub failures: u64,
    pub calls: u64,
    pub stalls: u64,
}

impl CallTally {
    pub fn new() -> CallTally
        ensures { result ≡ record { failures = 0; calls = 0; stalls = 0 } }
    {
        CallTally {
            failures: 0,
            calls: 0,
            stalls: 0,
        }
    }

    pub fn count_read(&mut self, answer: Result<Got, Failed>)
        ensures failures { self.new.failures ≡ failures_after answer self.old.failures }
        ensures calls { self.new.calls ≡ raised self.old.calls }
        ensures stalls { self.new.stalls ≡ read_stalls answer self.old.stalls }
    {
        self.calls = self.calls.saturating_add(1);
        match answer {
            Ok(Got::Blocked) => self.stalls = self.stalls.saturating_add(1),
            Ok(_) => self.stalls = 0,
            Err(Failed) => {
                self.failures = self.failures.saturating_add(1);
                self.stalls = 0;
            }
        }
    }

    pub fn count_write(&mut self, answer: Result<Put, Failed>)
        ensures failures { self.new.failures ≡ failures_after answer self.old.failures }
        ensures calls { self.new.calls ≡ raised self.old.calls }
        ensures stalls { self.new.stalls ≡ write_stalls answer self.old.stalls }
    {
        self.calls = self.calls.saturating_add(1);
        match answer {
            Ok(Put::Blocked) => self.stalls = self.stalls.saturating_add(1),
            Ok(_) => self.stalls = 0,
            Err(Failed) => {
                self.failures = self.failures.saturating_add(1);
                self.stalls = 0;
            }
        }
    }
}
