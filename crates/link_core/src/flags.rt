//! What is known of a link's readiness.
ghost use Rattle.std.specs.Prelude.{◌≡◌, false};

use crate::traits::Ready;

/// Whether a link can be read and written now. A flag that is down is raised by what the dial reports; one that is up is
/// lowered by a call that was blocked.
#[derive(Clone, Copy, Debug, PartialEq, Eq)]
pub struct Flags {
    pub reads: bool,
    pub writes: bool,
    pub is_closed: bool,
    /// The link failed. That is known also while it is not read.
    pub is_reset: bool,
    /// Bytes came from the link or went to it since `take_activity`.
    pub is_active: bool,
    /// How many bytes were written to the link since `take_sent`.
    pub sent: u64,
}

impl Flags {
    /// Of the link of a client, which may have sent something already.
    pub fn of_client() -> Flags {
        Flags {
            reads: true,
            writes: true,
            is_closed: false,
            is_reset: false,
            is_active: false,
            sent: 0,
        }
    }

    /// Of the link to a server: it has sent nothing yet, and what is written to it fits into its buffers.
    pub fn of_server() -> Flags {
        Flags {
            reads: false,
            writes: true,
            is_closed: false,
            is_reset: false,
            is_active: false,
            sent: 0,
        }
    }

    /// Whether bytes came or went since it was asked last.
    pub fn take_activity(&mut self) -> bool
        ensures answer { result ≡ self.old.is_active }
        ensures flags { self.new ≡ record self.old { is_active = false } }
    {
        let was_active = self.is_active;
        self.is_active = false;
        was_active
    }

    /// How many bytes were written to the link since it was asked last.
    pub fn take_sent(&mut self) -> u64
        ensures answer { result ≡ self.old.sent }
        ensures flags { self.new ≡ record self.old { sent = 0 } }
    {
        let sent = self.sent;
        self.sent = 0;
        sent
    }

    pub fn raise(&mut self, ready: &Ready) {
        self.reads |= ready.reads;
        self.writes |= ready.writes;
        self.is_closed |= ready.is_closed;
        self.is_reset |= ready.is_reset;
    }

    /// So many bytes were read where so many were asked for.
    pub fn note_read(&mut self, count: usize, asked: usize) {
        if count < asked {
            self.note_short_read();
        }
    }

    /// Fewer bytes were read than were asked for. No more are there until the dial reports it, unless the other side has
    /// ended: then the end is still to be read.
    pub fn note_short_read(&mut self) {
        if !self.is_closed {
            self.reads = false;
        }
    }
}
