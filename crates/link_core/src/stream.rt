//! The directions of a relayed connection, as far as its readiness decides what is done next.
ghost use Rattle.std.specs.Prelude.{◌≡◌};
ghost use Rattle.relay_core.specs.Flow.{IsDone};
ghost use Rattle.relay_core.specs.Law.{HasCarried};
ghost use Rattle.relay_core.specs.Relay.{flow_of, opposite, stream_of};

use crate::flags::Flags;
use crate::traits::Link;
use device_core::PIECE_BYTES;
use relay_core::{Burst, BurstStop, Drained, Relay, Way};

/// How many bytes each direction of a connection holds at the most. The buffer of a worker holds as many.
pub const FLOW: usize = 65_536;

/// How many bursts a direction makes before other connections have their turn.
const ROUNDS: u32 = 2;

/// What came of some bursts.
#[derive(Clone, Copy, Debug, PartialEq, Eq)]
pub enum Progress {
    /// Nothing more can be done until the dial reports something.
    Idle,
    /// More can be done.
    More,
    /// A link failed.
    Fault,
}

impl Progress {
    /// What came of both directions.
    pub fn and(self, other: Progress) -> Progress {
        match (self, other) {
            (Progress::Fault, _) | (_, Progress::Fault) => Progress::Fault,
            (Progress::More, _) | (_, Progress::More) => Progress::More,
            (Progress::Idle, Progress::Idle) => Progress::Idle,
        }
    }
}

/// Whether a burst of a direction would move bytes, as far as both links are ready.
fn can_move(relay: &Relay, way: Way, input: &Flags, output: &Flags) -> bool {
    let reads = input.reads && relay.asks(way);
    reads || output.writes && relay.holds(way)
}

/// Lowers what a burst found not to be ready, and notes which of the links moved bytes, and how many were written.
fn note(burst: &Burst, input: &mut Flags, output: &mut Flags) {
    match burst.stop {
        BurstStop::Full | BurstStop::NoRoom => {}
        BurstStop::Short => input.note_short_read(),
        BurstStop::Blocked | BurstStop::End => input.reads = false,
    }
    input.is_active |= burst.read > 0;
    match burst.drained {
        Drained::Bytes(count) => {
            output.is_active = true;
            output.sent = output.sent.saturating_add(count as u64);
        }
        Drained::Blocked => output.writes = false,
        Drained::Empty => {}
    }
}

/// Ends the writing of a direction that is over; whether that went well. Where the other direction is over too, the
/// connection ends, and with it both links.
fn end_writing<K: Link>(relay: &Relay, way: Way, output: &mut K) -> bool
    requires { IsDone (flow_of way relay.now) }
    ensures { K.held output.new ≡ K.held output.old }
{
    if relay.is_over() {
        return true;
    }
    output.shut()
}

/// Some bursts of a direction, as far as both links are ready, and at the end of the reader the end of the writing.
pub fn pump<K: Link>(
    relay: &mut Relay,
    way: Way,
    input: &mut K,
    output: &mut K,
    input_flags: &mut Flags,
    output_flags: &mut Flags,
    buffer: &mut [u8],
) -> Progress
    ensures carries { HasCarried (stream_of (K.left input.old) (flow_of way relay.old) (K.held output.old)) (stream_of (K.left input.new) (flow_of way relay.new) (K.held output.new)) }
    ensures other { flow_of (opposite way) relay.new ≡ flow_of (opposite way) relay.old }
{
    if buffer.len() < PIECE_BYTES {
        return Progress::Fault;
    }
    for _round in 0..ROUNDS {
        if !can_move(relay, way, input_flags, output_flags) {
            return Progress::Idle;
        }
        let Ok(burst) = relay.burst(way, input, output, buffer, PIECE_BYTES) else {
            return Progress::Fault;
        };
        note(&burst, input_flags, output_flags);
        if relay.is_done(way) {
            if !end_writing(relay, way, output) {
                return Progress::Fault;
            }
            return Progress::Idle;
        }
    }
    Progress::More
}
