//! What is tried for one connection, and what it is answered.
ghost use Rattle.std.specs.Prelude.{◌≡◌, ◌⊎◌, ◌≤◌, ◌∷◌, ◌++◌, ℕ, [], List, length, IfOk, IfErr, IfSome, IsOk, MatchOption, Ok, Err, None, Some, slice_get};
ghost use Rattle.std.specs.Option.{option_copied};
ghost use Rattle.conf_text.specs.Lines.{lines_of};
ghost use Rattle.conf_text.specs.declared.line.Line.{Line};
ghost use Rattle.plan_types.specs.declared.plan.Plan.{Plan};
ghost use Rattle.config_core.specs.Meaning.{meaning};
ghost use Rattle.conn_model.specs.declared.event.OwnedEvent.TheVariants.{Accept, Piece};
ghost use Rattle.conn_model.specs.declared.event.TheConstants.{PIECE_LIMIT};
ghost use Rattle.conn_model.specs.Answer.{answer_in, frontend_in, judged_pair};
ghost use Rattle.conn_model.specs.HandedIn.{HasPieceInLimit};
ghost use Rattle.conn_model.specs.Rules.{rejection};
ghost use Rattle.conn_model.specs.History.{after, entry, opening, owned_event};
ghost use Rattle.conn_core.specs.Machine.{IsOpened};
ghost use Rattle.explain_core.specs.Listeners.{HasNone, Takes};
ghost use Rattle.explain_core.specs.Text.{accept_text};
ghost use Rattle.explain_core.specs.Explained.{choices_unless, entry_tried, goes_on, header_status, is_full, waiting_in, AreTried, AreTriedAt, AreTriedLater, IsDecided, IsExplained, IsTriedNext};

use crate::listeners::{frontend_number, listener_number};
use crate::showing::{Shower, write_header};
use crate::tried::{Tried, TriedChoice, try_choices, try_rules};
use addr_core::Pair;
use conf_text::Lines;
use conn_core::{Core, OpenFault, RuleFacts};
use conn_model::event::{ConnId, Event};
use conn_model::plain::Listener;
use conn_model::reply::{Reply, Said, StepFault};
use event_text::write_reply;
use pp_any::{Fed, Parser};
use pp_v1::Meaning;
use rule_engine::{Judged, NO_TRACKS, Tracks, TracksSoFar, Verdict, judge, judge_after};
use std::alloc::{AllocError, Global};
use thiserror::Error;

/// Why nothing is explained.
#[derive(Clone, Copy, Debug, Error)]
pub enum ExplainFault {
    /// The configuration is refused.
    #[error(transparent)]
    Config(OpenFault),
    /// The configuration has no frontend of the name.
    #[error("no such frontend")]
    NoFrontend,
    #[error("no memory")]
    NoMemory,
}

/// What is tried once it is known who the client is.
#[derive(Debug, Drop)]
pub struct Trials {
    /// The session rules that are tried.
    pub session: Vec<Tried>,
    /// The `use_backend` lines that are tried: none where a session rule rejects.
    pub choices: Vec<TriedChoice>,
    /// What the session rules say.
    pub says: Judged,
}

/// What is tried for a connection, and what it is answered.
#[derive(Debug, Drop)]
pub struct Explanation {
    /// The number of the listener that takes it.
    pub listener: u16,
    /// The connection rules that are tried: none where its frontend is full.
    pub entry: Vec<Tried>,
    /// What is tried after them: nothing where it is refused or waits before.
    pub trials: Option<Trials>,
    /// The last reply to it.
    pub reply: Reply,
    /// All of this as lines, the last of which is the reply.
    pub text: Vec<u8>,
}

/// Whether the frontend has no place for the connection.
fn is_full(facts: &RuleFacts<'_>) -> bool
    ensures { result ≡ is_full facts.now }
{
    facts.frontend.limit < facts.connections
}

/// The connection rules that are tried.
fn try_entry(alloc: Global, facts: &RuleFacts<'_>) -> Result<Vec<Tried>, AllocError>
    ensures { IfOk result (λ list. list.items ≡ entry_tried facts.now) }
{
    if is_full(facts) {
        return Ok(Vec::new(alloc));
    }
    try_rules(
        alloc,
        facts.frontend.connection_rules.as_slice(),
        facts,
        NO_TRACKS,
    )
}

/// The `use_backend` lines that are tried, unless the session rules reject.
fn try_backends(
    alloc: Global,
    facts: &RuleFacts<'_>,
    says: &Judged,
) -> Result<Vec<TriedChoice>, AllocError>
    ensures { IfOk result (λ list. list.items
        ≡ choices_unless (rejection says.now) facts.now says.now.tracks) }
{
    match says.verdict {
        Verdict::Reject => Ok(Vec::new(alloc)),
        Verdict::Accept | Verdict::On => {
            let moment = TracksSoFar {
                scene: facts,
                tracks: &says.tracks,
            };
            try_choices(alloc, facts.frontend.choices.as_slice(), &moment)
        }
    }
}

/// The session rules and `use_backend` lines that are tried, where the step tracks those before.
fn try_session(alloc: Global, facts: &RuleFacts<'_>, earlier: Tracks) -> Result<Trials, AllocError>
    ensures { IfOk result (λ trials. AreTried facts.now earlier trials) }
{
    let rules = facts.frontend.session_rules.as_slice();
    let session = try_rules(alloc, rules, facts, earlier)?;
    let says = judge_after(rules, facts, earlier);
    let choices = try_backends(alloc, facts, &says)?;
    Ok(Trials {
        session,
        choices,
        says,
    })
}

/// Whether the connection rules let the connection in, and no header has to come.
fn goes_on(accept_proxy: bool, says: &Judged) -> bool
    ensures { result ≡ goes_on accept_proxy says.now }
{
    match says.verdict {
        Verdict::Reject => false,
        Verdict::Accept | Verdict::On => !(accept_proxy || says.expects_header),
    }
}

/// What the accept tries after the connection rules.
fn try_at_accept(
    alloc: Global,
    facts: &RuleFacts<'_>,
    accept_proxy: bool,
) -> Result<Option<Trials>, AllocError>
    ensures { IfOk result (λ trials. AreTriedAt accept_proxy facts.now trials) }
{
    if is_full(facts) {
        return Ok(None);
    }
    let says = judge(facts.frontend.connection_rules.as_slice(), facts);
    if !goes_on(accept_proxy, &says) {
        return Ok(None);
    }
    let trials = try_session(alloc, facts, says.tracks)?;
    Ok(Some(trials))
}

/// The pair by which a connection is judged.
fn judged_pair(real: Pair, meaning: Meaning) -> Pair
    ensures { result ≡ judged_pair real meaning }
{
    match meaning {
        Meaning::Real => real,
        Meaning::Declared(pair) => pair,
    }
}

/// The connection that a reply lets wait.
fn waiting_in(reply: &Reply) -> Option<ConnId>
    ensures { result ≡ waiting_in reply.now.said }
{
    match &reply.said {
        Said::Wait { id, .. } => Some(*id),
        _ => None,
    }
}

/// The reply of a balancer at moment 0 to an event that has one.
fn step(core: &mut Core, event: &Event<'_>) -> Result<Reply, AllocError>
    requires answers { IsOk (answer_in core.old 0 (owned_event event.now)) }
    requires piece { HasPieceInLimit (owned_event event.now) }
    ensures reply { IfOk result (λ reply.
        answer_in core.old 0 (owned_event event.now) ≡ Ok reply) }
    ensures plain { IfOk result (λ reply.
        core.new ≡ after core.old (entry 0 (owned_event event.now) reply ∷ [])) }
{
    match core.step(0, event) {
        Ok(reply) => Ok(reply),
        Err(StepFault::NoMemory) => Err(AllocError),
        Err(_) => unreachable!(),
    }
}

impl Shower<'_, '_> {
    /// What the accept of the connection tries.
    fn explain_accept(
        &self,
        core: &Core,
        number: u16,
        at: &Listener,
        real: Pair,
        text: &mut Vec<u8>,
    ) -> Result<(Vec<Tried>, Option<Trials>), AllocError>
        requires { IsOk (answer_in core.now 0 (Accept number real)) }
        ensures { IfOk result (λ it.
            (next : IsTriedNext core.now number real at.now.accept_proxy it.0.items it.1)
            × (text.new.items ≡ text.old.items
            ++ accept_text self.now.lines.now next.facts at.now it.0.items it.1)) }
    {
        let Some(facts) = core.arriving(number, real, 0) else {
            unreachable!()
        };
        let entry = try_entry(self.alloc, &facts)?;
        let trials = try_at_accept(self.alloc, &facts, at.accept_proxy)?;
        self.show_accept(text, &facts, at, entry.as_slice(), &trials)?;
        Ok((entry, trials))
    }

    /// What is tried for a connection that waits, once it has that header.
    fn explain_header(
        &self,
        core: &Core,
        id: ConnId,
        real: Pair,
        header: &[u8],
        text: &mut Vec<u8>,
    ) -> Result<Option<Trials>, AllocError>
        requires { IsOk (answer_in core.now 0 (Piece id header.now)) }
        ensures { IfOk result (λ trials. (more : List ℕ)
            × (text.new.items ≡ text.old.items ++ more)
            × AreTriedLater core.now self.now.lines.now id real header.now
            (header_status header.now) trials more) }
    {
        match Parser::new().feed(header) {
            Fed::More(_parser) => Ok(None),
            Fed::Bad(_, _) => Ok(None),
            Fed::Whole(meaning, used) => {
                let judged = judged_pair(real, meaning);
                let Some(facts) = core.waiting(id, judged, 0) else {
                    unreachable!()
                };
                let trials = try_session(self.alloc, &facts, NO_TRACKS)?;
                write_header(text, header, used, &judged)?;
                self.show_trials(text, &facts, &trials)?;
                Ok(Some(trials))
            }
        }
    }

    /// What is tried after the connection rules, and the last reply: those of the accept, or of the header where the
    /// connection waits for one that came.
    fn explain_rest(
        &self,
        core: &mut Core,
        real: Pair,
        header: Option<&[u8]>,
        first: Reply,
        at_accept: Option<Trials>,
        text: &mut Vec<u8>,
    ) -> Result<(Option<Trials>, Reply), AllocError>
        requires answers { (id : ConnId) (header : List ℕ) →
            waiting_in first.said ≡ Some id →
            IsOk (answer_in core.old 0 (Piece id header)) }
        requires header { IfSome header (λ bytes. length bytes.now ≤ PIECE_LIMIT) }
        ensures { IfOk result (λ it. (more : List ℕ)
            × (text.new.items ≡ text.old.items ++ more)
            × IsDecided core.old self.now.lines.now real first at_accept
            (waiting_in first.said) (option_copied header.entry) it.0 it.1 more) }
    {
        let Some(id) = waiting_in(&first) else {
            return Ok((at_accept, first));
        };
        let Some(header) = header else {
            return Ok((at_accept, first));
        };
        let trials = self.explain_header(core, id, real, header, text)?;
        let reply = step(core, &Event::Piece(id, header))?;
        Ok((trials, reply))
    }

    /// What is tried for the connection, and what it is answered.
    fn explain(
        &self,
        core: &mut Core,
        number: u16,
        at: &Listener,
        real: Pair,
        header: Option<&[u8]>,
    ) -> Result<Explanation, AllocError>
        requires opening { (plan : Plan) × (core.old ≡ opening plan 0) }
        requires listens { slice_get core.old.listeners number ≡ Some at.now }
        requires header { IfSome header (λ bytes. length bytes.now ≤ PIECE_LIMIT) }
        ensures explained { IfOk result (λ e.
            IsExplained core.old self.now.lines.now real (option_copied header.entry) e) }
        ensures listener { IfOk result (λ e. e.listener ≡ number) }
    {
        let mut text = Vec::new(self.alloc);
        let (entry, at_accept) = self.explain_accept(core, number, at, real, &mut text)?;
        let first = step(core, &Event::Accept(number, real))?;
        let (trials, reply) = self.explain_rest(core, real, header, first, at_accept, &mut text)?;
        write_reply(&mut text, &reply)?;
        Ok(Explanation {
            listener: number,
            entry,
            trials,
            reply,
            text,
        })
    }
}

/// The listener of the frontend of that name that takes the connection, with its number. None where no frontend has the
/// name: each one has a listener.
fn find_listener(
    core: &Core,
    name: &[u8],
    real: Pair,
) -> Result<Option<(u16, Listener)>, AllocError>
    requires { (plan : Plan) × (core.now ≡ opening plan 0) }
    ensures found { IfOk result (λ found. MatchOption found (HasNone core.now name.now) (λ it.
        (slice_get core.now.listeners it.0 ≡ Some it.1) × Takes core.now name.now real it.0)) }
{
    let plain = core.plain()?;
    let Some(frontend) = frontend_number(plain.frontends.as_slice(), name) else {
        return Ok(None);
    };
    let listeners = plain.listeners.as_slice();
    let Some(number) = listener_number(listeners, frontend, &real.destination()) else {
        unreachable!()
    };
    Ok(Some((number as u16, listeners[number])))
}

/// The lines of a configuration that was read before.
fn lines_of(alloc: Global, config: &str) -> Result<Lines<'_>, AllocError>
    ensures { IfOk result (λ lines. lines_of config.now ≡ Ok lines) }
{
    match Lines::of(alloc, config) {
        Ok(lines) => Ok(lines),
        Err(_) => Err(AllocError),
    }
}

/// A core on the configuration.
fn open_core(alloc: Global, config: &str) -> Result<Core, ExplainFault>
    ensures ok { IfOk result (λ core. IsOpened config.now 0 core) }
    ensures fault { IfErr result (λ f. (f ≡ ExplainFault.NoMemory)
        ⊎ ((o : OpenFault) × (f ≡ ExplainFault.Config o) × (meaning config.now ≡ Err o))) }
{
    match Core::open(alloc, config) {
        Ok(core) => Ok(core),
        Err(OpenFault::NoMemory) => Err(ExplainFault::NoMemory),
        Err(fault) => Err(ExplainFault::Config(fault)),
    }
}

/// What is tried for the connection, and what it is answered: nothing where no frontend has the name.
fn explain_in(
    alloc: Global,
    core: &mut Core,
    config: &str,
    name: &[u8],
    real: Pair,
    header: Option<&[u8]>,
) -> Result<Option<Explanation>, AllocError>
    requires opening { (plan : Plan) × (core.old ≡ opening plan 0) }
    requires header { IfSome header (λ bytes. length bytes.now ≤ PIECE_LIMIT) }
    ensures explained { IfOk result (λ o. MatchOption o (HasNone core.old name.now) (λ e.
        (lines : List Line) × (lines_of config.now ≡ Ok lines)
        × Takes core.old name.now real e.listener
        × IsExplained core.old lines real (option_copied header.entry) e)) }
{
    let lines = lines_of(alloc, config)?;
    let Some((number, at)) = find_listener(core, name, real)? else {
        return Ok(None);
    };
    let shower = Shower {
        alloc,
        lines: &lines,
    };
    let explained = shower.explain(core, number, &at, real, header)?;
    Ok(Some(explained))
}

/// What is tried for the connection of a pair that comes to the frontend of a name, in a balancer that has just opened
/// the configuration: nothing else is open. The listener is that of the frontend that is bound to the pair's
/// destination, or to all addresses with its port, or else the first one. The header is what the connection begins
/// with, where it has to begin with one; bytes after it are its own.
pub fn explain(
    alloc: Global,
    config: &str,
    name: &[u8],
    real: Pair,
    header: Option<&[u8]>,
) -> Result<Explanation, ExplainFault>
    requires header { IfSome header (λ bytes. length bytes.now ≤ PIECE_LIMIT) }
    ensures ok { IfOk result (λ e. (plan : Plan) × (lines : List Line)
        × (meaning config.now ≡ Ok plan) × (lines_of config.now ≡ Ok lines)
        × Takes (opening plan 0) name.now real e.listener
        × IsExplained (opening plan 0) lines real (option_copied header.entry) e) }
    ensures refused { (fault : OpenFault) → result ≡ Err (ExplainFault.Config fault) →
        meaning config.now ≡ Err fault }
    ensures no_frontend { result ≡ Err ExplainFault.NoFrontend →
        (plan : Plan) × (meaning config.now ≡ Ok plan) × (frontend_in plan name.now ≡ None) }
{
    let mut core = open_core(alloc, config)?;
    let explained = explain_in(alloc, &mut core, config, name, real, header);
    core.end();
    match explained {
        Ok(Some(explained)) => Ok(explained),
        Ok(None) => Err(ExplainFault::NoFrontend),
        Err(_) => Err(ExplainFault::NoMemory),
    }
}
