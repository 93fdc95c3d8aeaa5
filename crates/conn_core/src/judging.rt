//! How a connection is judged.
ghost use Rattle.std.specs.Prelude.{◌≡◌, ◌||◌, ℕ, Some, find};
ghost use Rattle.std.specs.Option.{option_copied};
ghost use Rattle.acl_core.specs.Truth.{applies};
ghost use Rattle.rule_engine.specs.Meaning.{present};
ghost use Rattle.conn_model.specs.Rules.{backend_for, rejection, view_of, worth};
ghost use Rattle.conn_model.specs.Answer.{admission, candidate_of, server_for, server_unless, version_at};
ghost use Rattle.conn_model.specs.declared.plain.Plain.{Plain};
ghost use Rattle.conn_model.specs.declared.event.ConnId.{ConnId};
ghost use Rattle.conn_core.specs.Judging.{decided, facts_view, result_of, server_at, AreAllowed};
ghost use Rattle.conn_core.specs.Outcome.{outcome_of, reply_by};

use crate::facts::RuleFacts;
use crate::outcome::{Outcome, TrackedOutcome, offer_of};
use acl_core::When;
use addr_core::Pair;
use conn_model::reply::Cause;
use conn_rows::item;
use plan_types::{Backend, Choice, Frontend, Server};
use rule_engine::{Judged, NO_TRACKS, Tracks, TracksSoFar, judge, judge_after};

/// A server for a connection, or why it gets none.
#[derive(Drop)]
pub enum ServerVerdict<'a> {
    /// The server, with its number in its backend.
    Assigned(u16, &'a Server),
    Refused(Cause),
}

/// Whether the condition is true once the step made those tracks.
fn applies(when: &When, facts: &RuleFacts<'_>, tracks: &Tracks) -> bool
    ensures { result ≡ applies facts.now.frontend.now.acls (worth (facts_view facts.now (present tracks.now))) when.now }
{
    when.applies(&TracksSoFar {
        scene: facts,
        tracks,
    })
}

/// The line that rejects the connection, if the list does.
fn rejecting_line(says: &Judged) -> Option<u32>
    ensures { result ≡ rejection says.now }
{
    match says.verdict {
        rule_engine::Verdict::Accept | rule_engine::Verdict::On => None,
        rule_engine::Verdict::Reject => Some(says.line),
    }
}

/// The first `use_backend` line that applies.
fn choice<'a>(choices: &'a [Choice], facts: &RuleFacts<'_>, tracks: &Tracks) -> Option<&'a Choice>
    ensures { option_copied result ≡ find (λ choice. applies facts.now.frontend.now.acls (worth (facts_view facts.now (present tracks.now))) choice.when) choices.now }
{
    choices
        .iter()
        .find(|choice| applies(&choice.when, facts, tracks))
}

/// The number of the backend: that of the first `use_backend` line that applies, or else the default one.
fn backend_number(facts: &RuleFacts<'_>, tracks: &Tracks) -> Option<u16>
    ensures { result ≡ backend_for (worth (facts_view facts.now (present tracks.now))) facts.now.frontend.now }
{
    match choice(facts.frontend.choices.as_slice(), facts, tracks) {
        Some(choice) => Some(choice.backend),
        None => facts.frontend.default,
    }
}

/// The server that is picked for a connection, of its backend.
fn assign<'a>(facts: &RuleFacts<'a>, tracks: &Tracks) -> ServerVerdict<'a>
    requires { version_at facts.now.rows.now.versions facts.now.version.now.number ≡ Some facts.now.version.now }
    ensures { result_of result ≡ server_for (facts_view facts.now (present tracks.now)) }
{
    let Some(number) = backend_number(facts, tracks) else {
        return ServerVerdict::Refused(Cause::NoBackend(facts.frontend.line));
    };
    let Some(backend) = item(facts.version.plan.backends.as_slice(), number) else {
        return ServerVerdict::Refused(Cause::NoBackend(facts.frontend.line));
    };
    let turn = facts.rows.pick(facts.version.number, number, &facts.source);
    picked(backend, turn)
}

/// The server of that number, if one was picked.
fn picked(backend: &Backend, turn: Option<u16>) -> ServerVerdict<'_>
    ensures { result_of result ≡ server_at backend.now turn }
{
    let Some(number) = turn else {
        return ServerVerdict::Refused(Cause::NoServer(backend.line));
    };
    match item(backend.servers.as_slice(), number) {
        Some(server) => ServerVerdict::Assigned(number, server),
        None => ServerVerdict::Refused(Cause::NoServer(backend.line)),
    }
}

/// A server for a connection after its session rules.
#[inline(always)]
fn session_verdict<'a>(facts: &RuleFacts<'a>, says: &Judged) -> ServerVerdict<'a>
    requires { version_at facts.now.rows.now.versions facts.now.version.now.number ≡ Some facts.now.version.now }
    ensures { result_of result ≡ server_unless (facts_view facts.now (present says.now.tracks)) (rejection says.now) }
{
    match rejecting_line(says) {
        Some(line) => ServerVerdict::Refused(Cause::Line(line)),
        None => assign(facts, &says.tracks),
    }
}

#[inline(always)]
fn outcome(verdict: ServerVerdict<'_>, judged: Pair) -> Outcome
    ensures { result ≡ outcome_of judged (result_of verdict.entry) }
{
    match verdict {
        ServerVerdict::Assigned(number, server) => Outcome::Offer(offer_of(number, server, judged)),
        ServerVerdict::Refused(cause) => Outcome::Refuse(cause),
    }
}

/// Decides what becomes of a connection of that judged pair, where the step made the tracks that are in the decision:
/// the session rules first, then the backend and its server.
#[inline(always)]
pub fn decide(judged: Pair, facts: &RuleFacts<'_>, decision: &mut TrackedOutcome)
    requires { version_at facts.now.rows.now.versions facts.now.version.now.number ≡ Some facts.now.version.now }
    ensures reply { (id : ConnId) (used : ℕ) → reply_by id used decision.new ≡ decided (facts_view facts.now) facts.now.frontend.now id used judged decision.old.tracks }
    ensures can { AreAllowed facts.now decision.old.tracks → AreAllowed facts.now decision.new.tracks }
{
    let says = judge_after(
        facts.frontend.session_rules.as_slice(),
        facts,
        decision.tracks,
    );
    decision.tracks = says.tracks;
    decision.outcome = outcome(session_verdict(facts, &says), judged);
}

/// Whether a header has to come first: the listener takes one, or a connection rule that was tried expects one.
fn demands_header(accept_proxy: bool, says: &Judged) -> bool
    ensures { result ≡ (accept_proxy || says.now.expects_header) }
{
    accept_proxy || says.expects_header
}

/// Decides what becomes of a connection at its accept, where so many others of its frontend are open: the limit of the
/// frontend first, then the connection rules, then it waits where its listener or one of those rules demands a header.
#[inline(always)]
pub fn admission(
    accept_proxy: bool,
    real: Pair,
    others: u64,
    facts: &RuleFacts<'_>,
    decision: &mut TrackedOutcome,
)
    requires { version_at facts.now.rows.now.versions facts.now.version.now.number ≡ Some facts.now.version.now }
    ensures reply { (state : Plain) (id : ConnId) → view_of (candidate_of state id facts.now.version.now facts.now.frontend.now) real.source.addr ≡ facts_view facts.now →
        reply_by id 0 decision.new ≡ admission (candidate_of state id facts.now.version.now facts.now.frontend.now) accept_proxy real others }
    ensures can { AreAllowed facts.now decision.new.tracks }
{
    if others >= facts.frontend.limit {
        decision.tracks = NO_TRACKS;
        decision.outcome = Outcome::Refuse(Cause::Line(facts.frontend.limit_line));
        return;
    }
    let says = judge(facts.frontend.connection_rules.as_slice(), facts);
    decision.tracks = says.tracks;
    let outcome = match rejecting_line(&says) {
        Some(line) => Outcome::Refuse(Cause::Line(line)),
        None => {
            if !demands_header(accept_proxy, &says) {
                return decide(real, facts, decision);
            }
            Outcome::Wait
        }
    };
    decision.outcome = outcome;
}
