//! What a step tracks.
ghost use Rattle.std.specs.Prelude.{◌≡◌, ◌==◌, ◌≤◌, ◌↔◌, find, [], IsSome, IsTrue};
ghost use Rattle.addr_core.specs.declared.addr.Addr.{Addr};
ghost use Rattle.rule_engine.specs.Meaning.{present};
ghost use Rattle.conn_model.specs.Tables.{is_of, open_tracks, trackers, tracks_at, with_tracks};
ghost use Rattle.conn_model.specs.Words.{row_at};
ghost use Rattle.conn_model.specs.Changes.{with_conn};
ghost use Rattle.conn_core.specs.Tracking.{row_with, ArePossible, AreSorted};

use addr_core::Addr;
use arrayvec::ArrayVec;
use conn_model::event::ConnId;
use conn_rows::Rows;
use plan_types::{TableId, Track};
use proxy_types::COUNTERS;
use rule_engine::Tracks;

/// The most tracks that a step makes: one by each counter, so it is `COUNTERS`.
pub const STEP_TRACKS: u64 = 3;

/// What a counter tracks.
pub fn track_by(tracks: &Tracks, counter: u8) -> Option<Track>
    ensures { result ≡ find (λ track. track.counter == counter) (present tracks.now) }
{
    for slot in tracks {
        if let Some(track) = slot {
            if track.counter == counter {
                return Some(*track);
            }
        }
    }
    None
}

/// How many of the tracks are of a key of a table.
pub fn trackers(tracks: &Tracks, id: TableId, key: &Addr) -> u64
    ensures value { result ≡ trackers (present tracks.now) id key.now }
    ensures few { result ≤ COUNTERS }
{
    let mut count = 0;
    for slot in tracks {
        if let Some(track) = slot {
            if is_of(track, id, key) {
                count += 1;
            }
        }
    }
    count
}

fn is_of(track: &Track, id: TableId, key: &Addr) -> bool
    ensures { result ≡ is_of id key.now track.now }
{
    track.table.version == id.version
        && track.table.position == id.position
        && track.key.is_same(key)
}

/// The tracks there are, in the order of counters.
pub fn present_tracks(tracks: &Tracks) -> ArrayVec<Track, COUNTERS>
    ensures { result ≡ record { items = present tracks.now } }
{
    let mut all = ArrayVec::new();
    for slot in tracks {
        if let Some(track) = slot {
            match all.try_push(*track) {
                Ok(()) => {}
                Err(_) => unreachable!(),
            }
        }
    }
    all
}

/// Whether no counter tracks.
pub fn tracks_nothing(tracks: &Tracks) -> bool
    ensures { IsTrue result ↔ present tracks.now ≡ [] }
{
    tracks.iter().all(|slot| slot.is_none())
}

/// Lets an open connection track those too.
pub fn track_all(rows: &mut Rows, id: ConnId, tracks: &Tracks)
    requires there { IsSome (row_at rows.old.frontends id) }
    requires sorted { AreSorted rows.old.frontends id }
    requires can { (source : Addr) × ArePossible (open_tracks rows.old.frontends) rows.old.tables (tracks_at rows.old.frontends id) source tracks.now }
    requires room { STEP_TRACKS ≤ rows.old.spare }
    ensures frontends { rows.new.frontends ≡ with_conn id (row_with (present tracks.now)) rows.old.frontends }
    ensures versions { rows.new.versions ≡ rows.old.versions }
    ensures clock { rows.new.clock ≡ rows.old.clock }
    ensures tables { rows.new.tables ≡ with_tracks rows.old.clock (open_tracks rows.old.frontends) (present tracks.now) rows.old.tables }
    ensures down { rows.new.down ≡ rows.old.down }
{
    for slot in tracks {
        if let Some(track) = slot {
            rows.track(id, *track);
        }
    }
}
