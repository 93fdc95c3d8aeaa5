//! What open connections track.
ghost use Rattle.std.specs.Prelude.{◌≡◌, ◌++◌, ◌<◌, None, Some, option_map, IfOk, OnOk};
ghost use Rattle.proxy_types.specs.declared.limits.TheConstants.{COUNTERS};
ghost use Rattle.rule_engine.specs.Meaning.{present};
ghost use Rattle.conn_tables.specs.Tracks.{at_counter, no_trackings, on_counter, plain_tracks, slots_of, track_by, track_on};

use addr_core::PackedNumber;
use list_core::Seq;
use plan_types::{TableId, Track};
use rule_engine::Tracks;
use std::alloc::{AllocError, Global};
use std::marker::Model;
use std::mem;
use stick_core::TrackToken;

/// What a counter tracks: a key of a table. It cannot be dropped: it ends in its table.
pub struct Tracking {
    pub table: TableId,
    pub token: TrackToken,
}

/// A tracking in 28 bytes, where a `Tracking` takes 40, for what keeps many of them.
pub struct PackedTracking {
    version: PackedNumber,
    position: u16,
    token: TrackToken,
}

impl Model for PackedTracking {
    ghost use Rattle.conn_tables.specs.declared.tracking.Tracking.{Tracking};

    ghost Value = { Tracking };

    ghost view = { λ p. record { table = record { version = p.version; position = p.position }; token = p.token } };
}

impl PackedTracking {
    fn of(tracking: Tracking) -> PackedTracking
        ensures { result ≡ tracking }
    {
        let Tracking { table, token } = tracking;
        PackedTracking {
            version: PackedNumber::of(table.version),
            position: table.position,
            token,
        }
    }

    /// The tracking, as its table takes it back.
    pub fn into_tracking(self) -> Tracking
        ensures { result ≡ self }
    {
        let table = self.table();
        let PackedTracking {
            version: _version,
            position: _,
            token,
        } = self;
        Tracking { table, token }
    }

    fn table(&self) -> TableId
        ensures { result ≡ self.now.table }
    {
        TableId {
            version: self.version.number(),
            position: self.position,
        }
    }

    /// The same as plain data, by a counter.
    fn track(&self, counter: u8) -> Track
        ensures { result ≡ track_by counter self.now }
    {
        Track {
            counter,
            table: self.table(),
            key: self.token.key(),
        }
    }
}

/// What a connection tracks, by counter.
pub struct Trackings {
    pub sc0: Option<PackedTracking>,
    pub sc1: Option<PackedTracking>,
    pub sc2: Option<PackedTracking>,
}

impl Trackings {
    /// No counter tracks.
    pub fn none() -> Trackings
        ensures { result ≡ no_trackings }
    {
        Trackings {
            sc0: None,
            sc1: None,
            sc2: None,
        }
    }

    /// What each counter tracks.
    pub fn slots(&self) -> Tracks
        ensures slots { result ≡ slots_of (plain_tracks self.now) }
        ensures present { present result ≡ plain_tracks self.now }
    {
        [
            track_on(0, &self.sc0),
            track_on(1, &self.sc1),
            track_on(2, &self.sc2),
        ]
    }

    /// Lets a counter that tracks nothing track.
    pub fn put(&mut self, counter: u8, tracking: Tracking)
        requires counter { counter < COUNTERS }
        requires free { on_counter counter self.old ≡ None }
        ensures { self.new ≡ at_counter counter tracking self.old }
    {
        let packed = PackedTracking::of(tracking);
        if counter == 0 {
            fill(&mut self.sc0, packed);
        } else if counter == 1 {
            fill(&mut self.sc1, packed);
        } else {
            fill(&mut self.sc2, packed);
        }
    }

    /// The same as plain data, in the order of counters.
    pub fn plain(&self, alloc: Global) -> Result<Seq<Track>, AllocError>
        ensures { IfOk result (λ tracks. tracks ≡ plain_tracks self.now) }
    {
        let mut tracks = Seq::new(alloc);
        push_track(&mut tracks, 0, &self.sc0)?;
        push_track(&mut tracks, 1, &self.sc1)?;
        push_track(&mut tracks, 2, &self.sc2)?;
        Ok(tracks)
    }
}

/// What a counter tracks.
fn track_on(counter: u8, tracking: &Option<PackedTracking>) -> Option<Track>
    ensures { result ≡ option_map (track_by counter) tracking.now }
{
    match tracking {
        Some(tracking) => Some(tracking.track(counter)),
        None => None,
    }
}

fn fill(place: &mut Option<PackedTracking>, tracking: PackedTracking)
    requires { place.old ≡ None }
    ensures { place.new ≡ Some tracking }
{
    match mem::replace(place, Some(tracking)) {
        Some(_) => unreachable!(),
        None => {}
    }
}

/// Adds what a counter tracks, if it tracks something.
fn push_track(
    tracks: &mut Seq<Track>,
    counter: u8,
    tracking: &Option<PackedTracking>,
) -> Result<(), AllocError>
    ensures { OnOk result (tracks.new ≡ tracks.old ++ track_on counter tracking.now) }
{
    if let Some(tracking) = tracking {
        tracks.push(tracking.track(counter))?;
    }
    Ok(())
}
