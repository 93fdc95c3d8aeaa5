//! Going through a list of rules.
ghost use Rattle.std.specs.Prelude.{◌≡◌, ◌<◌, false, IsTrue};
ghost use Rattle.proxy_types.specs.declared.limits.TheConstants.{COUNTERS};
ghost use Rattle.rule_engine.specs.Meaning.{present};
ghost use Rattle.rule_engine.specs.Judging.{is_true, is_free, after_rule, after_track, judged, judged_after};

use crate::scene::{NO_TRACKS, Scene, Tracks};
use acl_core::{Acl, Criterion, Value, View};
use plan_types::{Action, Rule, Track};

/// What a list of rules decides.
#[derive(Clone, Copy, Debug, PartialEq, Eq)]
pub enum Verdict {
    Accept,
    Reject,
    /// No rule decided.
    On,
}

/// What a list of rules says of a connection.
#[derive(Clone, Copy, Debug, PartialEq, Eq)]
pub struct Judged {
    pub verdict: Verdict,
    /// The line of the rule that decided, or 0.
    pub line: u32,
    /// The tracks made, by counter.
    pub tracks: Tracks,
    /// Whether a PROXY header has to come first: a rule that was tried expects one.
    pub expects_header: bool,
}

/// A connection once those tracks are made, as conditions see it.
#[derive(Drop)]
pub struct TracksSoFar<'a, S> {
    pub scene: &'a S,
    pub tracks: &'a Tracks,
}

impl<'a, S: Scene> View for TracksSoFar<'a, S> {
    ghost worth = { λ moment. (S.meaning moment.scene.now).worth (present moment.tracks.now) };

    ghost acls = { λ moment. (S.meaning moment.scene.now).acls };

    fn value(&self, criterion: &Criterion) -> Value {
        self.scene.value(self.tracks, criterion)
    }

    fn acls(&self) -> &[Acl] {
        self.scene.acls()
    }
}

/// Whether the condition of the rule is true once those tracks are made.
pub fn is_true<S: Scene>(scene: &S, tracks: &Tracks, rule: &Rule) -> bool
    ensures { result ≡ is_true (S.meaning scene.now) tracks.now rule.now }
{
    rule.when.applies(&TracksSoFar { scene, tracks })
}

/// Whether the counter tracks nothing.
fn is_free<S: Scene>(scene: &S, tracks: &Tracks, counter: u8) -> bool
    ensures free { result ≡ is_free (S.meaning scene.now) tracks.now counter }
    ensures inside { IsTrue result → counter < COUNTERS }
{
    match tracks.get(usize::from(counter)) {
        Some(slot) => slot.is_none() && scene.is_free(counter),
        None => false,
    }
}

/// The tracks once the counter tracks in the table of that number too, where it is free and there is a
/// key to track.
fn track<S: Scene>(scene: &S, tracks: Tracks, counter: u8, number: u16) -> Tracks
    ensures { result ≡ after_track (S.meaning scene.now) tracks counter number }
{
    if !is_free(scene, &tracks, counter) {
        return tracks;
    }
    let mut tracks = tracks;
    if let Some((table, key)) = scene.key(&tracks, number) {
        tracks[usize::from(counter)] = Some(Track {
            counter,
            table,
            key,
        });
    }
    tracks
}

/// The tracks after a rule was tried.
pub fn after_rule<S: Scene>(scene: &S, tracks: Tracks, rule: &Rule) -> Tracks
    ensures { result ≡ after_rule (S.meaning scene.now) tracks rule.now }
{
    if !is_true(scene, &tracks, rule) {
        return tracks;
    }
    match rule.action {
        Action::Track(counter, number) => track(scene, tracks, counter, number),
        Action::Accept | Action::Reject | Action::ExpectProxy => tracks,
    }
}

fn outcome(verdict: Verdict, line: u32, tracks: Tracks, expects_header: bool) -> Judged
    ensures { result ≡ record { verdict = verdict; line = line; tracks = tracks; expects_header = expects_header } }
{
    Judged {
        verdict,
        line,
        tracks,
        expects_header,
    }
}

/// What the list of rules says of the connection (HAProxy manual, `tcp-request connection`): the first
/// rule decides that accepts or rejects and whose condition is true by then. The rules before it are tried:
/// where its condition is true, one tracks if its counter is free and there is a key to track, and another
/// expects a PROXY header. A condition sees what was tracked before its rule.
pub fn judge<S: Scene>(rules: &[Rule], scene: &S) -> Judged
    ensures { result ≡ judged (S.meaning scene.now) rules.now }
{
    judge_after(rules, scene, NO_TRACKS)
}

/// The same where earlier lists made those tracks.
pub fn judge_after<S: Scene>(rules: &[Rule], scene: &S, earlier: Tracks) -> Judged
    ensures { result ≡ judged_after (S.meaning scene.now) earlier rules.now }
{
    let mut tracks = earlier;
    let mut expects_header = false;
    for rule in rules {
        if is_true(scene, &tracks, rule) {
            match rule.action {
                Action::Accept => {
                    return outcome(Verdict::Accept, rule.line, tracks, expects_header);
                }
                Action::Reject => {
                    return outcome(Verdict::Reject, rule.line, tracks, expects_header);
                }
                Action::Track(counter, number) => tracks = track(scene, tracks, counter, number),
                Action::ExpectProxy => expects_header = true,
            }
        }
    }
    outcome(Verdict::On, 0, tracks, expects_header)
}
