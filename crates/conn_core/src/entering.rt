//! Connections that come in.
ghost use Rattle.std.specs.Prelude.{◌≡◌, ◌≤◌, OnOk, OnErr};
ghost use Rattle.rule_engine.specs.Meaning.{present};
ghost use Rattle.conn_model.specs.declared.plain.FrontendRows.{FrontendRows};
ghost use Rattle.conn_model.specs.History.{tables_passed};
ghost use Rattle.conn_model.specs.Tables.{open_tracks, with_tracks};
ghost use Rattle.conn_model.specs.Changes.{with_item};
ghost use Rattle.conn_rows.specs.Value.{rows_passed, state_of};
ghost use Rattle.conn_core.specs.Changes.{entered, settled_versions, with_newcomer, CanOffer, IsComing};
ghost use Rattle.conn_core.specs.Outcome.{reply_by};
ghost use Rattle.conn_core.specs.Tracking.{CanTrackFirst};

use crate::outcome::{Outcome, TrackedOutcome};
use crate::tracking::{STEP_TRACKS, track_all, tracks_nothing};
use addr_core::Pair;
use conn_model::event::ConnId;
use conn_rows::Rows;
use rule_engine::Tracks;
use std::alloc::AllocError;

/// A connection that came to a listener.
#[derive(Drop)]
pub struct SessionStart {
    /// The version of the configuration that judges it.
    pub version: u64,
    /// Its peer and its local end.
    pub real: Pair,
    /// The moment of its accept, in ms.
    pub accepted: u64,
}

/// Keeps what becomes of a connection at the moment of its accept, under the next serial of its frontend.
#[inline(always)]
pub fn enter(
    rows: &mut Rows,
    id: ConnId,
    arrival: &SessionStart,
    decision: &TrackedOutcome,
) -> Result<(), AllocError>
    requires coming { (own : FrontendRows) × IsComing rows.old.frontends id own }
    requires later { rows.old.clock ≤ arrival.now.accepted }
    requires can { CanTrackFirst (rows_passed arrival.now.accepted rows.old) decision.now.tracks }
    requires offers { CanOffer rows.old.versions arrival.now.version decision.now.outcome }
    ensures ok { OnOk result (state_of rows.new ≡ record (state_of rows.old) {
      frontends = with_item id.frontend (entered rows.old.versions arrival.now decision.now) rows.old.frontends;
      versions = settled_versions arrival.now.version decision.now.outcome rows.old.versions;
      tables = tables_passed arrival.now.accepted rows.old.frontends rows.old.tables (reply_by id 0 decision.now);
    }) }
    ensures clock { OnOk result (rows.new.clock ≡ arrival.now.accepted) }
    ensures err { OnErr result (state_of rows.new ≡ state_of rows.old) }
    ensures clock_err { OnErr result (rows.new.clock ≡ rows.old.clock) }
{
    match &decision.outcome {
        Outcome::Wait => insert(rows, id, arrival, &decision.tracks),
        Outcome::Offer(offer) => {
            insert(rows, id, arrival, &decision.tracks)?;
            rows.offer(id, arrival.version, offer.seat);
            Ok(())
        }
        Outcome::Refuse(_) => {
            if tracks_nothing(&decision.tracks) {
                rows.pass(arrival.accepted);
                rows.skip(id.frontend);
                return Ok(());
            }
            insert(rows, id, arrival, &decision.tracks)?;
            rows.remove(id);
            Ok(())
        }
    }
}

/// Opens a connection that tracks those from the moment of its accept on.
#[inline(always)]
fn insert(
    rows: &mut Rows,
    id: ConnId,
    arrival: &SessionStart,
    tracks: &Tracks,
) -> Result<(), AllocError>
    requires coming { (own : FrontendRows) × IsComing rows.old.frontends id own }
    requires later { rows.old.clock ≤ arrival.now.accepted }
    requires can { CanTrackFirst (rows_passed arrival.now.accepted rows.old) tracks.now }
    ensures ok { OnOk result (state_of rows.new ≡ record (state_of rows.old) {
      frontends = with_item id.frontend (with_newcomer arrival.now (present tracks.now)) rows.old.frontends;
      tables = with_tracks arrival.now.accepted (open_tracks rows.old.frontends) (present tracks.now)
          (rows_passed arrival.now.accepted rows.old).tables;
    }) }
    ensures clock { OnOk result (rows.new.clock ≡ arrival.now.accepted) }
    ensures err { OnErr result (state_of rows.new ≡ state_of rows.old) }
    ensures clock_err { OnErr result (rows.new.clock ≡ rows.old.clock) }
{
    rows.reserve(STEP_TRACKS)?;
    let _serial = rows.insert(id.frontend, arrival.version, arrival.real, arrival.accepted)?;
    rows.pass(arrival.accepted);
    track_all(rows, id, tracks);
    Ok(())
}
