//! Pieces of the headers of connections that wait.
ghost use Rattle.std.specs.Prelude.{◌≡◌, ◌≤◌, ℕ, true, false, List, Ok, Some, IfSome, IfNone, IsSome, slice_get};
ghost use Rattle.pp_any.specs.declared.rest.Rest.{Rest};
ghost use Rattle.rule_engine.specs.Judging.{no_tracks};
ghost use Rattle.rule_engine.specs.Meaning.{present};
ghost use Rattle.conn_model.specs.declared.event.OwnedEvent.{OwnedEvent};
ghost use Rattle.conn_model.specs.declared.event.OwnedEvent.TheVariants.{Piece};
ghost use Rattle.conn_model.specs.declared.plain.FrontendRows.{FrontendRows};
ghost use Rattle.conn_model.specs.declared.plain.Plain.{Plain};
ghost use Rattle.conn_model.specs.declared.plain.Row.{Row};
ghost use Rattle.conn_model.specs.Answer.{candidate_of, decision, judged_pair, piece_answer, row_at, waiting_row};
ghost use Rattle.conn_model.specs.History.{tables_by, with_said};
ghost use Rattle.conn_model.specs.Tables.{open_tracks, tracks_at};
ghost use Rattle.conn_rows.specs.Summaries.{summary_of};
ghost use Rattle.conn_rows.specs.Value.{state_of};
ghost use Rattle.conn_core.specs.Changes.{settled, settled_tables, settled_versions, spoken, CanOffer, IsJudged, Judge};
ghost use Rattle.conn_core.specs.Counts.{IsSeen, IsSorted, IsStateOf};
ghost use Rattle.conn_core.specs.Machine.{AreSound};
ghost use Rattle.conn_core.specs.Outcome.{reply_by};
ghost use Rattle.conn_core.specs.Seeing.{SeesOpen};
ghost use Rattle.conn_core.specs.Tracking.{ArePossible, AreSorted};
ghost use Rattle.conn_core.specs.declared.tracking.TheConstants.{STEP_TRACKS};

use crate::facts::RuleFacts;
use crate::judging;
use crate::outcome::{Outcome, TrackedOutcome, plain_reply, reply};
use crate::tracking::track_all;
use addr_core::Pair;
use conn_model::event::ConnId;
use conn_model::reply::{Cause, Reply, Said};
use conn_rows::{HeaderStatus, RowSummary, Rows, frontend_near};
use pp_v1::Meaning;
use rule_engine::{NO_TRACKS, Tracks};

/// Whether there is what judges a connection of that version: the version, and its frontend in it.
pub fn can_judge(rows: &Rows, id: ConnId, version: u64) -> bool
    requires { AreSound rows.now.versions }
    ensures yes { result ≡ true → Judge rows.now.frontends rows.now.versions id version }
    ensures no { result ≡ false → Judge rows.now.frontends rows.now.versions id version → ⊥ }
{
    let Some(own) = rows.frontend(id.frontend) else {
        return false;
    };
    let Some(version) = rows.version(version) else {
        return false;
    };
    match frontend_near(&version.plan, id.frontend, own.name) {
        Some(_) => true,
        None => false,
    }
}

/// What rules see at a moment of an open connection of that version, which is judged by that pair.
pub fn facts_of(
    rows: &Rows,
    id: ConnId,
    version: u64,
    judged: Pair,
    moment: u64,
) -> Option<RuleFacts<'_>>
    requires { AreSound rows.now.versions }
    ensures some { IfSome result (λ facts. SeesOpen rows.now id version judged moment facts) }
    ensures none { IfNone result (Judge rows.now.frontends rows.now.versions id version → ⊥) }
{
    let Some(own) = rows.frontend(id.frontend) else {
        return None;
    };
    let Some(version) = rows.version(version) else {
        return None;
    };
    let Some(frontend) = frontend_near(&version.plan, id.frontend, own.name) else {
        return None;
    };
    Some(RuleFacts {
        rows,
        moment,
        version,
        frontend,
        name: own.name,
        connections: own.connections,
        arriving: false,
        own: tracks_of(rows, id),
        source: judged.source().addr,
    })
}

/// What becomes of a connection whose header is whole.
#[inline(always)]
fn decision(rows: &Rows, id: ConnId, version: u64, judged: Pair) -> Option<TrackedOutcome>
    requires { AreSound rows.now.versions }
    ensures some { IfSome result (λ d. (judge : Judge rows.now.frontends rows.now.versions id version) × ((state : Plain) (used : ℕ) → IsSeen id state rows.now →
        reply_by id used d ≡ decision (candidate_of state id judge.version judge.frontend) used judged no_tracks)) }
    ensures can { IfSome result (λ d. IsSome (row_at rows.now.frontends id) → ArePossible (open_tracks rows.now.frontends) rows.now.tables (tracks_at rows.now.frontends id) judged.source.addr d.tracks) }
    ensures offers { IfSome result (λ d. CanOffer rows.now.versions version d.outcome) }
    ensures none { IfNone result (Judge rows.now.frontends rows.now.versions id version → ⊥) }
{
    let Some(facts) = facts_of(rows, id, version, judged, rows.clock()) else {
        return None;
    };
    // Nothing is decided yet, and this step has tracked nothing so far: `decide` writes both fields.
    let mut decision = TrackedOutcome {
        outcome: Outcome::Wait,
        tracks: NO_TRACKS,
    };
    judging::decide(judged, &facts, &mut decision);
    Some(decision)
}

/// What a connection tracks since earlier steps, by counter.
fn tracks_of(rows: &Rows, id: ConnId) -> Tracks
    ensures { present result ≡ tracks_at rows.now.frontends id }
{
    match rows.tracks(id) {
        Some(tracks) => tracks,
        None => NO_TRACKS,
    }
}

/// The pair by which a connection is judged.
fn judged_pair(real: Pair, meaning: Meaning) -> Pair
    ensures { result ≡ judged_pair real meaning }
{
    match meaning {
        Meaning::Real => real,
        Meaning::Declared(pair) => pair,
    }
}

/// Judges a connection whose header is whole: it is offered a server, or ends.
#[inline(always)]
fn decide(rows: &mut Rows, id: ConnId, version: u64, judged: Pair, used: u64) -> Reply
    requires there { IsJudged rows.old.frontends id version }
    requires sorted { AreSorted rows.old.frontends id }
    requires judge { Judge rows.old.frontends rows.old.versions id version }
    requires sound { AreSound rows.old.versions }
    requires room { STEP_TRACKS ≤ rows.old.spare }
    ensures reply { (judge : Judge rows.old.frontends rows.old.versions id version) (state : Plain) → IsSeen id state rows.old →
        result ≡ decision (candidate_of state id judge.version judge.frontend) used judged no_tracks }
    ensures clock { rows.new.clock ≡ rows.old.clock }
    ensures new { (bytes : List ℕ) → state_of rows.new ≡ record (state_of rows.old) {
      frontends = spoken rows.old.versions (Piece id bytes) id result rows.old.frontends;
      versions = with_said version result.said rows.old.versions;
      tables = tables_by rows.old.clock rows.old.frontends rows.old.tables result;
    } }
{
    let Some(decision) = decision(rows, id, version, judged) else {
        unreachable!()
    };
    track_all(rows, id, &decision.tracks);
    settle(rows, id, version, &decision.outcome);
    reply(id, used, &decision)
}

/// Keeps what becomes of a connection that waited, and that the version of that number judges.
#[inline(always)]
fn settle(rows: &mut Rows, id: ConnId, version: u64, outcome: &Outcome)
    requires there { IsJudged rows.old.frontends id version }
    requires offers { CanOffer rows.old.versions version outcome.now }
    ensures { rows.new ≡ record rows.old {
      frontends = settled rows.old.versions id outcome.now rows.old.frontends;
      versions = settled_versions version outcome.now rows.old.versions;
      tables = settled_tables rows.old.clock id outcome.now rows.old.frontends rows.old.tables;
    } }
{
    match outcome {
        Outcome::Wait => {}
        Outcome::Offer(offer) => rows.offer(id, version, offer.seat),
        Outcome::Refuse(_) => rows.remove(id),
    }
}

/// Feeds a piece to a connection that waits, and says what becomes of it.
#[inline(always)]
pub fn receive(rows: &mut Rows, id: ConnId, row: &RowSummary, piece: &[u8]) -> Reply
    requires waits { (found : Row × Rest) × (waiting_row rows.old.frontends id ≡ Ok found) × (row.now ≡ summary_of found.0) }
    requires judge { Judge rows.old.frontends rows.old.versions id row.now.version }
    requires sorted { (own : FrontendRows) → slice_get rows.old.frontends id.frontend ≡ Some own → IsSorted own }
    requires sound { AreSound rows.old.versions }
    requires room { STEP_TRACKS ≤ rows.old.spare }
    ensures reply { (p : Plain) → IsStateOf p rows.old → piece_answer p id piece.now ≡ Ok result }
    ensures clock { rows.new.clock ≡ rows.old.clock }
    ensures new { state_of rows.new ≡ record (state_of rows.old) {
      frontends = spoken rows.old.versions (Piece id piece.now) id result rows.old.frontends;
      versions = with_said row.now.version result.said rows.old.versions;
      tables = tables_by rows.old.clock rows.old.frontends rows.old.tables result;
    } }
{
    match rows.feed(id, piece) {
        HeaderStatus::Wait => plain_reply(Said::Wait {
            id,
            used: piece.len() as u64,
        }),
        HeaderStatus::Bad(fault, used) => {
            rows.remove(id);
            plain_reply(Said::Refuse {
                id,
                used: used as u64,
                cause: Cause::Header(fault),
            })
        }
        HeaderStatus::Whole(meaning, used) => {
            let judged = judged_pair(row.real, meaning);
            decide(rows, id, row.version, judged, used as u64)
        }
    }
}
