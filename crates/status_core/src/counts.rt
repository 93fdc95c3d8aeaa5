//! Counts of events, one for each kind. Each stays at 2^64 - 1 once it is there.
ghost use Rattle.std.specs.Prelude.{◌≡◌};
ghost use Rattle.status_core.specs.Tally.{raised_by, with_close, with_fault, with_report};

use conn_model::event::{Health, Why};
use pp_any::HeaderFault;

/// How many connections were closed, by the note of the record.
#[derive(Clone, Copy, Debug, PartialEq, Eq)]
pub struct Closes {
    pub done: u64,
    pub fault: u64,
    pub stopped: u64,
    pub failed: u64,
    pub client_timeout: u64,
    pub server_timeout: u64,
}

impl Closes {
    /// None yet.
    pub const NONE: Closes = Closes {
        done: 0,
        fault: 0,
        stopped: 0,
        failed: 0,
        client_timeout: 0,
        server_timeout: 0,
    };
}

/// How many PROXY headers had a fault, by its kind.
#[derive(Clone, Copy, Debug, PartialEq, Eq)]
pub struct HeaderFaults {
    pub not_proxy: u64,
    pub too_long: u64,
    pub bad_line: u64,
    pub bad_address: u64,
    pub bad_port: u64,
    pub bad_version: u64,
    pub bad_command: u64,
    pub bad_family: u64,
    pub short_block: u64,
}

impl HeaderFaults {
    /// None yet.
    pub const NONE: HeaderFaults = HeaderFaults {
        not_proxy: 0,
        too_long: 0,
        bad_line: 0,
        bad_address: 0,
        bad_port: 0,
        bad_version: 0,
        bad_command: 0,
        bad_family: 0,
        short_block: 0,
    };
}

/// How often servers were reported down or up.
#[derive(Clone, Copy, Debug, PartialEq, Eq)]
pub struct Reports {
    pub down: u64,
    pub up: u64,
}

impl Reports {
    /// None yet.
    pub const NONE: Reports = Reports { down: 0, up: 0 };
}

/// How many bytes were written.
#[derive(Clone, Copy, Debug, PartialEq, Eq)]
pub struct Sent {
    pub to_servers: u64,
    pub to_clients: u64,
}

impl Sent {
    /// None yet.
    pub const NONE: Sent = Sent {
        to_servers: 0,
        to_clients: 0,
    };

    /// Whether there are none.
    pub fn is_none(&self) -> bool {
        self.to_servers == 0 && self.to_clients == 0
    }

    /// Adds what was written besides.
    pub fn add(&mut self, more: Sent)
        ensures servers { self.new.to_servers ≡ raised_by more.to_servers self.old.to_servers }
        ensures clients { self.new.to_clients ≡ raised_by more.to_clients self.old.to_clients }
    {
        self.to_servers = self.to_servers.saturating_add(more.to_servers);
        self.to_clients = self.to_clients.saturating_add(more.to_clients);
    }
}

/// One more.
pub(crate) fn raise(count: &mut u64)
    ensures { count.new ≡ raised_by 1 count.old }
{
    *count = count.saturating_add(1);
}

/// One connection more was closed, for that reason.
pub(crate) fn note_close(closes: &mut Closes, why: Why)
    ensures { closes.new ≡ with_close why closes.old }
{
    match why {
        Why::Done => raise(&mut closes.done),
        Why::Fault => raise(&mut closes.fault),
        Why::Stopped => raise(&mut closes.stopped),
        Why::Failed => raise(&mut closes.failed),
        Why::ClientTimeout => raise(&mut closes.client_timeout),
        Why::ServerTimeout => raise(&mut closes.server_timeout),
    }
}

/// One header more had that fault.
pub(crate) fn note_fault(faults: &mut HeaderFaults, fault: HeaderFault)
    ensures { faults.new ≡ with_fault fault faults.old }
{
    match fault {
        HeaderFault::NotProxy => raise(&mut faults.not_proxy),
        HeaderFault::TooLong => raise(&mut faults.too_long),
        HeaderFault::BadLine => raise(&mut faults.bad_line),
        HeaderFault::BadAddress => raise(&mut faults.bad_address),
        HeaderFault::BadPort => raise(&mut faults.bad_port),
        HeaderFault::BadVersion => raise(&mut faults.bad_version),
        HeaderFault::BadCommand => raise(&mut faults.bad_command),
        HeaderFault::BadFamily => raise(&mut faults.bad_family),
        HeaderFault::ShortBlock => raise(&mut faults.short_block),
    }
}

/// One server more was reported so.
pub(crate) fn note_report(reports: &mut Reports, health: Health)
    ensures { reports.new ≡ with_report health reports.old }
{
    match health {
        Health::Down => raise(&mut reports.down),
        Health::Up => raise(&mut reports.up),
    }
}
