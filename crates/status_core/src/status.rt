//! All that is told of a running proxy.
ghost use Rattle.std.specs.Prelude.{◌≡◌, if◌then◌else◌};
ghost use Rattle.status_core.specs.Tally.{raised};

use crate::counts::{Sent, raise};
use crate::outline::Outline;
use crate::tally::Tally;
use std::alloc::Global;
use std::sync::Arc;

/// The records of decisions.
#[derive(Clone, Copy, Debug, PartialEq, Eq)]
pub struct Records {
    /// How many were made.
    pub made: u64,
    /// How many were written.
    pub written: u64,
    /// How many are neither written nor lost yet.
    pub waiting: u64,
    /// How many segments wait to be written. One that is being written counts as well.
    pub segments_waiting: u64,
    /// How many segments could not be written, and are lost.
    pub segments_refused: u64,
}

/// What became of reloads.
#[derive(Clone, Copy, Debug, PartialEq, Eq)]
pub struct Reloads {
    pub accepted: u64,
    pub refused: u64,
}

impl Reloads {
    /// None yet.
    pub const NONE: Reloads = Reloads {
        accepted: 0,
        refused: 0,
    };

    /// Counts one more.
    pub fn note(&mut self, is_accepted: bool)
        ensures accepted { self.new.accepted ≡ if is_accepted then raised self.old.accepted else self.old.accepted }
        ensures refused { self.new.refused ≡ if is_accepted then self.old.refused else raised self.old.refused }
    {
        if is_accepted {
            raise(&mut self.accepted);
        } else {
            raise(&mut self.refused);
        }
    }
}

/// What the workers do beside their decisions.
#[derive(Clone, Copy, Debug, PartialEq, Eq)]
pub struct Traffic {
    pub sent: Sent,
    /// How many dials a server refused, or did not answer in time.
    pub failed_dials: u64,
    /// How many of them were tried again.
    pub retries: u64,
}

/// The state of a crew.
#[derive(Drop)]
pub struct CrewStatus {
    /// How many connections are open to each that was asked for, in that order.
    pub connections: Vec<u64>,
    /// How many entries of each stick table that was asked for are in memory.
    pub entries: Vec<u64>,
    /// How many versions of the configuration are kept.
    pub versions: u64,
    /// What the records have that went to standard output so far.
    pub tally: Tally,
    pub traffic: Traffic,
    pub records: Records,
    pub reloads: Reloads,
}

/// A server that is checked, by its numbers, and whether it is up.
#[derive(Clone, Copy, Debug, PartialEq, Eq)]
pub struct ServerHealth {
    pub backend: u16,
    pub server: u16,
    pub is_up: bool,
}

/// The state of a running proxy.
#[derive(Drop)]
pub struct ProxyStatus {
    /// The sections of the configuration in force.
    pub outline: Arc<Outline, Global>,
    /// The number of its version.
    pub version: u64,
    pub health: Vec<ServerHealth>,
    pub crew: CrewStatus,
}
