//! The decision core.
ghost use Rattle.std.specs.Prelude.{◌≡◌, ◌≢◌, ◌⊎◌, ◌+◌, ◌-◌, ◌^◌, ◌<◌, ◌≤◌, ℕ, true, List, [], ◌∷◌, length, option_and_then, option_map, Option, Some, IfSome, IfNone, IfOk, IfErr, IsErr, OnOk, OnErr, nat_le, Ok, Err, None};
ghost use Rattle.std.specs.Option.{option_copied};
ghost use Rattle.plan_types.specs.Sound.{IsSoundPlan};
ghost use Rattle.pp_any.specs.declared.rest.Rest.{Rest};
ghost use Rattle.conn_model.specs.declared.event.TheConstants.{HEADER_WAIT};
ghost use Rattle.conn_model.specs.declared.plain.Row.{Row};
ghost use Rattle.conn_model.specs.declared.reply.Said.{Said};
ghost use Rattle.conn_model.specs.declared.reply.Said.TheVariants.{Reloaded};
ghost use Rattle.conn_model.specs.Servers.{identity_in};
ghost use Rattle.conn_model.specs.HandedIn.{HasPieceInLimit};
ghost use Rattle.conn_model.specs.Answer.{answer_in, at_moment, reload_answer, reply_of, row_at, server_answer, waiting_row, checked_server, failure_answer};
ghost use Rattle.conn_rows.specs.Needed.{versions_needed, AreTracksHeld};
ghost use Rattle.conn_rows.specs.Summaries.{names_in, names_of, summary_of};
ghost use Rattle.conn_model.specs.Counts.{counts_in, newest_backend, newest_table, server_of, AreInMemory};
ghost use Rattle.conn_model.specs.History.{after, answer, counts, owned_event, opening, entry, is_last, NeedsNoMemory, IsFault, IsLegal, IsWell, Entry};
ghost use Rattle.conn_model.specs.declared.event.OwnedEvent.TheVariants as owned;
ghost use Rattle.conn_model.specs.declared.plain.FrontendRows.{FrontendRows};
ghost use Rattle.conn_model.specs.declared.plain.Plain.{Plain};
ghost use Rattle.config_core.specs.Meaning.{meaning};
ghost use Rattle.conn_model.specs.Settings.{settings_in};
ghost use Rattle.conn_model.specs.Tables.{open_tracks};
ghost use Rattle.conn_core.specs.Changes.{forgotten, CanOffer};
ghost use Rattle.conn_core.specs.Outcome.{reply_by};
ghost use Rattle.conn_core.specs.Tracking.{ArePossible};
ghost use Rattle.conn_core.specs.Checked.{checked_in, checked_numbers, known_by};
ghost use Rattle.conn_core.specs.Moving.{HasOther};
ghost use Rattle.conn_core.specs.Machine.{AreSound, IsOpened, IsNext, IsNextVersion};
ghost use Rattle.conn_core.specs.Seeing.{IsKept, SeesNext, SeesWaiting};

use crate::checked::{CheckedServer, ServerNumbers, numbers_in};
use crate::entering::{SessionStart, enter};
use crate::facts::RuleFacts;
use crate::judging::admission;
use crate::moving::other_offer;
use crate::opening::listeners;
use crate::outcome::{Offer, Outcome, TrackedOutcome, offer_said, plain_reply, reply};
use crate::receiving::{can_judge, facts_of, receive};
use crate::tracking::STEP_TRACKS;
use addr_core::Pair;
use config_core::{OpenFault, read_plan};
use conn_model::ask::{Ask, Counts};
use conn_model::event::{ConnId, Event, HEADER_WAIT, Health, Why};
use conn_model::plain::{Listener, Plain};
use conn_model::reply::{Cause, Reply, Said, StepFault};
use conn_model::settings::Settings;
use conn_rows::{RowSummary, Rows, ServerNames, frontend_near, item};
use list_core::{Duplicate, Seq};
use plan_core::same_binds;
use plan_types::{Backend, Plan, Server};
use proxy_types::ServerIdentity;
use rule_engine::NO_TRACKS;
use std::alloc::{AllocError, Global};
use std::marker::Model;

/// A balancer's decisions, and what it keeps for them. It cannot be dropped: it ends by `end`.
pub struct Core {
    alloc: Global,
    listeners: Seq<Listener>,
    rows: Rows,
}

impl Model for Core {
    ghost use Rattle.conn_model.specs.declared.plain.Plain.{Plain};
    ghost use Rattle.conn_core.specs.Machine.{IsCoreState, state_of};

    ghost Value = { Plain };

    ghost view = { λ c. state_of c.listeners c.rows };

    ghost invariant = { λ c. IsCoreState (state_of c.listeners c.rows) };
}

impl Core {
    /// A core at the opening of a configuration's text: nothing is open, and the first serial of each
    /// frontend is 1.
    pub fn open(alloc: Global, text: &str) -> Result<Core, OpenFault>
        // It is opened exactly where the text has no fault.
        ensures ok { IfOk result (λ core. IsOpened text.now 0 core) }
        ensures fault { IfErr result (λ f. (f ≡ OpenFault.NoMemory) ⊎ (meaning text.now ≡ Err f)) }

        // So every history can be continued from there.
        ensures well { IfOk result IsWell }
    {
        let plan = read_plan(alloc, text)?;
        Core::start(alloc, plan, 0)
    }

    /// A core at the opening of a configuration's text, where the first serial of each frontend is that
    /// number.
    pub fn open_at(alloc: Global, text: &str, first_serial: u64) -> Result<Core, OpenFault>
        requires { 1 ≤ first_serial }
        ensures ok { IfOk result (λ core. IsOpened text.now (first_serial - 1) core) }
        ensures fault { IfErr result (λ f. (f ≡ OpenFault.NoMemory) ⊎ (meaning text.now ≡ Err f)) }
        ensures well { IfOk result IsWell }
    {
        let plan = read_plan(alloc, text)?;
        Core::start(alloc, plan, first_serial - 1)
    }

    fn start(alloc: Global, plan: Plan, last: u64) -> Result<Core, OpenFault>
        requires { IsSoundPlan plan }
        ensures ok { IfOk result (λ core. core ≡ opening plan last) }
        ensures well { IfOk result IsWell }
        ensures fault { IfErr result (λ f. f ≡ OpenFault.NoMemory) }
    {
        let listeners = listeners(alloc, plan.frontends.as_slice())?;
        let rows = Rows::new(alloc, plan, last)?;
        Ok(Core {
            alloc,
            listeners,
            rows,
        })
    }

    /// Answers one event. After a fault nothing is changed.
    pub fn step(&mut self, moment: u64, event: &Event) -> Result<Reply, StepFault>
        requires piece { HasPieceInLimit (owned_event event.now) }

        // Where the core is the state after a history, the reply is the answer after it, and the core is
        // then the state after one entry more.
        ensures reply { IfOk result (λ r. (p : Plain) (h : List Entry) → IsWell p → IsLegal p h → self.old ≡ after p h →
            (answer p h moment (owned_event event.now) ≡ Ok r) × (self.new ≡ after p (entry moment (owned_event event.now) r ∷ h))) }

        // A fault is the answer, or there was no memory for a reply, or to read a new configuration.
        ensures fault { IfErr result (λ f. (p : Plain) (h : List Entry) → self.old ≡ after p h → IsFault (owned_event event.now) (answer p h moment (owned_event event.now)) f) }
        ensures err { OnErr result (self.new ≡ self.old) }

        // The same of the state alone.
        ensures plain_reply { IfOk result (λ r. answer_in self.old moment (owned_event event.now) ≡ Ok r) }
        ensures plain_new { IfOk result (λ r. self.new ≡ after self.old (entry moment (owned_event event.now) r ∷ [])) }
        ensures plain_fault { IfErr result (λ f. IsFault (owned_event event.now) (answer_in self.old moment (owned_event event.now)) f) }
        ensures no_memory { NeedsNoMemory event.now → result ≢ Err StepFault.NoMemory }

        // Every history can be continued from there.
        ensures well { IsWell self.new }
    {
        let reply = self.dispatch(moment, event);
        let _clock = self.clock();
        reply
    }

    /// What is counted of that which is asked for, if there is such a thing.
    pub fn counts(&self, ask: &Ask) -> Option<Counts>
        // Where the core is the state after a history, they are the counts after it.
        ensures history { (p : Plain) (h : List Entry) → self.now ≡ after p h → result ≡ counts p h ask.now }

        // The same of the state alone.
        ensures plain { result ≡ counts_in self.now ask.now }
    {
        match *ask {
            Ask::Frontend(number) => {
                let cur = self.rows.open_in(number)?;
                Some(Counts { cur, cnt: 0 })
            }
            Ask::Backend(number) => {
                let backend = self.backend(number)?;
                let cur = self.rows.offered_to(backend.name.as_slice());
                Some(Counts { cur, cnt: 0 })
            }
            Ask::Server(number, place) => {
                let cur = self.rows.served_at(number, place)?;
                Some(Counts { cur, cnt: 0 })
            }
            Ask::Entry(number, addr) => {
                let version = self.rows.newest()?;
                let id = item(version.tables.as_slice(), number)?;
                self.rows.counts(*id, &addr, self.rows.clock())
            }
        }
    }

    /// How many entries of the stick table of that number in the newest version are in memory, if there is such a table.
    pub fn entries(&self, number: u16) -> Option<u64>
        ensures { AreInMemory (newest_table self.now.versions self.now.tables number) result }
    {
        self.rows.entries(number)
    }

    /// How many versions are kept: the newest, and each that judges an open connection.
    pub fn versions(&self) -> u64
        ensures { result ≡ length self.now.versions }
    {
        self.rows.versions()
    }

    /// The names of the server that an open connection was offered, as the version that judged it has them.
    pub fn server(&self, id: ConnId) -> Option<ServerNames<'_>>
        ensures { option_map names_in result ≡ option_map names_of (option_and_then (λ row. server_of row.phase) (row_at self.now.frontends id)) }
    {
        self.rows.server(id)
    }

    /// How an open connection is served, by the version that judges it.
    pub fn settings(&self, id: ConnId) -> Option<Settings>
        ensures { result ≡ settings_in self.now.frontends self.now.versions id }
    {
        self.rows.settings(id)
    }

    /// The server of that number in the backend of that number, in the newest version, if it is checked.
    pub fn checked(&self, number: u16, place: u16) -> Option<CheckedServer<'_>>
        ensures { option_map checked_in result ≡ checked_server self.now.versions number place }
    {
        let Some(backend) = self.backend(number) else {
            return None;
        };
        let Some(server) = item(backend.servers.as_slice(), place) else {
            return None;
        };
        let Some(_check) = server.check else {
            return None;
        };
        Some(CheckedServer { backend, server })
    }

    /// The numbers, in the newest version, of the checked server that is known by the names and the address of that one.
    pub fn checked_numbers(&self, known: &CheckedServer<'_>) -> Option<ServerNumbers>
        ensures { result ≡ checked_numbers self.now.versions (known_by known.now) }
    {
        let version = self.rows.newest()?;
        numbers_in(&version.plan, known)
    }

    /// What rules see of the connection of that pair, if it comes to that listener next, at that moment. None exactly
    /// where its accept has no listener.
    pub fn arriving(&self, listener: u16, real: Pair, moment: u64) -> Option<RuleFacts<'_>>
        ensures some { IfSome result (λ facts. SeesNext (at_moment moment self.now) listener real facts) }
        ensures kept { IfSome result (λ facts. IsKept facts) }
        ensures none { IfNone result ((later : ℕ) →
            answer_in self.now later (owned.Accept listener real) ≡ Err StepFault.NoListener) }
    {
        let Some(at) = item(self.listeners.as_slice(), listener) else {
            return None;
        };
        let Some(own) = self.rows.frontend(at.frontend) else {
            return None;
        };
        let Some(version) = self.rows.newest() else {
            return None;
        };
        let Some(judge) = frontend_near(&version.plan, at.frontend, own.name) else {
            return None;
        };
        let connections = own.connections + 1;
        let source = real.source();
        Some(RuleFacts {
            rows: &self.rows,
            moment,
            version,
            frontend: judge,
            name: own.name,
            connections,
            arriving: true,
            own: NO_TRACKS,
            source: source.addr,
        })
    }

    /// What rules see of a connection that waits for its header, once that states the pair, at that moment. None exactly
    /// where no connection of that name waits: each piece of it has a fault for an answer.
    pub fn waiting(&self, id: ConnId, judged: Pair, moment: u64) -> Option<RuleFacts<'_>>
        ensures some { IfSome result (λ facts. SeesWaiting (at_moment moment self.now) id judged facts) }
        ensures kept { IfSome result (λ facts. IsKept facts) }
        ensures none { IfNone result ((later : ℕ) (piece : List ℕ) →
            IsErr (answer_in self.now later (owned.Piece id piece))) }
    {
        let Ok(row) = self.waiting_row(id) else {
            return None;
        };
        facts_of(&self.rows, id, row.version, judged, moment)
    }

    /// The state of the core.
    pub fn plain(&self) -> Result<Plain, AllocError>
        ensures plain { IfOk result (λ plain. plain ≡ self.now) }
        ensures well { IsWell self.now }
        ensures plans { AreSound self.now.versions }
    {
        let rows = self.rows.plain(self.alloc)?;
        Ok(Plain {
            clock: self.clock(),
            listeners: self.listeners.duplicate(self.alloc)?,
            frontends: rows.frontends,
            versions: rows.versions,
            tables: rows.tables,
            down: rows.down,
        })
    }

    /// Ends the core with all that it holds.
    pub fn end(self) {
        let Core {
            alloc: _,
            listeners: _listeners,
            rows,
        } = self;
        rows.end();
    }

    /// The backend of that number in the newest version.
    fn backend(&self, number: u16) -> Option<&Backend>
        ensures { option_copied result ≡ newest_backend self.now.versions number }
    {
        let version = self.rows.newest()?;
        item(version.plan.backends.as_slice(), number)
    }

    /// The greatest moment so far, in ms. Of each core it is known that every history can be continued, and that its
    /// plans are sound.
    fn clock(&self) -> u64
        ensures value { result ≡ self.now.clock }
        ensures well { IsWell self.now }
        ensures plans { AreSound self.now.versions }
    {
        self.rows.clock()
    }

    #[inline(always)]
    fn dispatch(&mut self, moment: u64, event: &Event<'_>) -> Result<Reply, StepFault>
        ensures reply { IfOk result (λ r. answer_in self.old moment (owned_event event.now) ≡ Ok r) }
        ensures new { IfOk result (λ r. self.new ≡ after self.old (entry moment (owned_event event.now) r ∷ [])) }
        ensures fault { IfErr result (λ f. IsFault (owned_event event.now) (answer_in self.old moment (owned_event event.now)) f) }
        ensures err { OnErr result (self.new ≡ self.old) }
        ensures no_memory { NeedsNoMemory event.now → result ≢ Err StepFault.NoMemory }
    {
        match *event {
            Event::Accept(listener, real) => self.accept(moment, listener, real),
            Event::Piece(id, piece) => self.piece(moment, id, piece),
            Event::Connected(id) => self.connected(moment, id),
            Event::ConnectFailed(id) => self.connect_failed(moment, id),
            Event::Close(id, why) => self.close(moment, id, why),
            Event::Expire(id) => self.expire(moment, id),
            Event::Reload(text) => self.reload(moment, text),
            Event::Mark(number, place, health) => self.mark(moment, number, place, health),
        }
    }

    #[inline(always)]
    fn accept(&mut self, moment: u64, listener: u16, real: Pair) -> Result<Reply, StepFault>
        ensures reply { IfOk result (λ r. answer_in self.old moment (owned.Accept listener real) ≡ Ok r) }
        ensures new { IfOk result (λ r. self.new ≡ after self.old (entry moment (owned.Accept listener real) r ∷ [])) }
        ensures fault { IfErr result (λ f. IsFault (owned.Accept listener real) (answer_in self.old moment (owned.Accept listener real)) f) }
        ensures err { OnErr result (self.new ≡ self.old) }
    {
        let now = self.clock().max(moment);
        // Nothing is decided yet: `admit` writes both fields, unless it answers with a fault.
        let mut decision = TrackedOutcome {
            outcome: Outcome::Wait,
            tracks: NO_TRACKS,
        };
        let Admission { id, version } = self.admit(moment, listener, real, &mut decision)?;
        let arrival = SessionStart {
            version,
            real,
            accepted: now,
        };
        let Ok(()) = enter(&mut self.rows, id, &arrival, &decision) else {
            return Err(StepFault::NoMemory);
        };
        Ok(reply(id, 0, &decision))
    }

    /// Decides what becomes of a connection at the moment of its accept.
    #[inline(always)]
    fn admit(
        &self,
        moment: u64,
        listener: u16,
        real: Pair,
        decision: &mut TrackedOutcome,
    ) -> Result<Admission, StepFault>
        ensures reply { IfOk result (λ a. answer_in self.now moment (owned.Accept listener real) ≡ Ok (reply_by a.id 0 decision.new)) }
        ensures can { OnOk result (ArePossible (open_tracks self.now.frontends) (at_moment moment self.now).tables [] real.source.addr decision.new.tracks) }
        ensures offers { IfOk result (λ a. CanOffer self.now.versions a.version decision.new.outcome) }
        ensures fault { IfErr result (λ f. answer_in self.now moment (owned.Accept listener real) ≡ Err f) }
        ensures next { IfOk result (λ a. (own : FrontendRows) × IsNext self.now a own) }
    {
        let Some(listener) = item(self.listeners.as_slice(), listener) else {
            return Err(StepFault::NoListener);
        };
        let Some(own) = self.rows.frontend(listener.frontend) else {
            return Err(StepFault::NoListener);
        };
        let Some(version) = self.rows.newest() else {
            return Err(StepFault::NoListener);
        };
        let Some(frontend) = frontend_near(&version.plan, listener.frontend, own.name) else {
            return Err(StepFault::NoListener);
        };
        let Some(serial) = next_number(own.serial) else {
            return Err(StepFault::Exhausted);
        };
        let facts = RuleFacts {
            rows: &self.rows,
            moment,
            version,
            frontend,
            name: own.name,
            connections: own.connections + 1,
            arriving: true,
            own: NO_TRACKS,
            source: real.source().addr,
        };
        admission(
            listener.accept_proxy,
            real,
            own.connections,
            &facts,
            decision,
        );
        Ok(Admission {
            id: ConnId {
                frontend: listener.frontend,
                serial,
            },
            version: version.number,
        })
    }

    #[inline(always)]
    fn piece(&mut self, moment: u64, id: ConnId, piece: &[u8]) -> Result<Reply, StepFault>
        ensures reply { IfOk result (λ r. answer_in self.old moment (owned.Piece id piece.now) ≡ Ok r) }
        ensures new { IfOk result (λ r. self.new ≡ after self.old (entry moment (owned.Piece id piece.now) r ∷ [])) }
        ensures fault { IfErr result (λ f. IsFault (owned.Piece id piece.now) (answer_in self.old moment (owned.Piece id piece.now)) f) }
        ensures err { OnErr result (self.new ≡ self.old) }
    {
        let now = self.clock().max(moment);
        let row = self.waiting_row(id)?;
        if !can_judge(&self.rows, id, row.version) {
            return Err(StepFault::NoSuch);
        }
        let Ok(()) = self.rows.reserve(STEP_TRACKS) else {
            return Err(StepFault::NoMemory);
        };
        self.rows.pass(now);
        let reply = receive(&mut self.rows, id, &row, piece);
        forget_after(&mut self.rows, &reply.said);
        Ok(reply)
    }

    /// The open connection of that name, which has to wait for its header.
    fn waiting_row(&self, id: ConnId) -> Result<RowSummary, StepFault>
        ensures ok { IfOk result (λ summary. (found : Row × Rest) × (waiting_row self.now.frontends id ≡ Ok found) × (summary ≡ summary_of found.0)) }
        ensures fault { IfErr result (λ f. waiting_row self.now.frontends id ≡ Err f) }
        ensures no_memory { result ≢ Err StepFault.NoMemory }
    {
        let Some(row) = self.rows.row(id) else {
            return Err(StepFault::NoSuch);
        };
        if !row.waits {
            return Err(StepFault::NotWaiting);
        }
        Ok(row)
    }

    /// Whether the connection of that name waits for its server to take it.
    fn check_awaits_server(&self, id: ConnId) -> Result<(), StepFault>
        ensures ok { OnOk result ((said : Said) → server_answer self.now id said ≡ Ok (reply_of said)) }
        ensures fault { IfErr result (λ f. (said : Said) → server_answer self.now id said ≡ Err f) }
        ensures no_memory { result ≢ Err StepFault.NoMemory }
    {
        let Some(row) = self.rows.row(id) else {
            return Err(StepFault::NoSuch);
        };
        if !row.awaits_server {
            return Err(StepFault::NotOffered);
        }
        Ok(())
    }

    #[inline(always)]
    fn connected(&mut self, moment: u64, id: ConnId) -> Result<Reply, StepFault>
        ensures reply { IfOk result (λ r. answer_in self.old moment (owned.Connected id) ≡ Ok r) }
        ensures new { IfOk result (λ r. self.new ≡ after self.old (entry moment (owned.Connected id) r ∷ [])) }
        ensures fault { IfErr result (λ f. answer_in self.old moment (owned.Connected id) ≡ Err f) }
        ensures no_memory { result ≢ Err StepFault.NoMemory }
        ensures err { OnErr result (self.new ≡ self.old) }
    {
        let now = self.clock().max(moment);
        self.check_awaits_server(id)?;
        self.rows.pass(now);
        self.rows.up(id);
        Ok(plain_reply(Said::Up { id }))
    }

    /// What a connection was offered, which has to wait for its server to take it, and another server for it, if it may be
    /// moved.
    fn other_offer(&self, id: ConnId) -> Result<Option<MovedOffer>, StepFault>
        ensures ok { IfOk result (HasOther self.now id) }
        ensures fault { IfErr result (λ f. failure_answer self.now id ≡ Err f) }
        ensures no_memory { result ≢ Err StepFault.NoMemory }
    {
        let Some(_open) = self.rows.row(id) else {
            return Err(StepFault::NoSuch);
        };
        let Some(pending) = self.rows.pending(id) else {
            return Err(StepFault::NotOffered);
        };
        match other_offer(&self.rows, &pending) {
            Some(offer) => Ok(Some(MovedOffer {
                version: pending.version,
                offer,
            })),
            None => Ok(None),
        }
    }

    #[inline(always)]
    fn connect_failed(&mut self, moment: u64, id: ConnId) -> Result<Reply, StepFault>
        ensures reply { IfOk result (λ r. answer_in self.old moment (owned.ConnectFailed id) ≡ Ok r) }
        ensures new { IfOk result (λ r. self.new ≡ after self.old (entry moment (owned.ConnectFailed id) r ∷ [])) }
        ensures fault { IfErr result (λ f. answer_in self.old moment (owned.ConnectFailed id) ≡ Err f) }
        ensures no_memory { result ≢ Err StepFault.NoMemory }
        ensures err { OnErr result (self.new ≡ self.old) }
    {
        let now = self.clock().max(moment);
        let other = self.other_offer(id)?;
        self.rows.pass(now);
        let Some(MovedOffer { version, offer }) = other else {
            self.rows.remove(id);
            self.rows.forget();
            return Ok(plain_reply(Said::Closed {
                id,
                why: Why::Failed,
            }));
        };
        self.rows.move_to(id, version, offer.seat);
        Ok(plain_reply(offer_said(id, 0, &offer)))
    }

    #[inline(always)]
    fn close(&mut self, moment: u64, id: ConnId, why: Why) -> Result<Reply, StepFault>
        ensures reply { IfOk result (λ r. answer_in self.old moment (owned.Close id why) ≡ Ok r) }
        ensures new { IfOk result (λ r. self.new ≡ after self.old (entry moment (owned.Close id why) r ∷ [])) }
        ensures fault { IfErr result (λ f. answer_in self.old moment (owned.Close id why) ≡ Err f) }
        ensures no_memory { result ≢ Err StepFault.NoMemory }
        ensures err { OnErr result (self.new ≡ self.old) }
    {
        let now = self.clock().max(moment);
        let Some(_row) = self.rows.row(id) else {
            return Err(StepFault::NoSuch);
        };
        self.rows.pass(now);
        self.rows.remove(id);
        self.rows.forget();
        Ok(plain_reply(Said::Closed { id, why }))
    }

    #[inline(always)]
    fn expire(&mut self, moment: u64, id: ConnId) -> Result<Reply, StepFault>
        ensures reply { IfOk result (λ r. answer_in self.old moment (owned.Expire id) ≡ Ok r) }
        ensures new { IfOk result (λ r. self.new ≡ after self.old (entry moment (owned.Expire id) r ∷ [])) }
        ensures fault { IfErr result (λ f. answer_in self.old moment (owned.Expire id) ≡ Err f) }
        ensures no_memory { result ≢ Err StepFault.NoMemory }
        ensures err { OnErr result (self.new ≡ self.old) }
    {
        let now = self.clock().max(moment);
        let row = self.waiting_row(id)?;
        if !is_due(row.accepted, now) {
            return Err(StepFault::NotDue);
        }
        self.rows.pass(now);
        self.rows.remove(id);
        self.rows.forget();
        Ok(plain_reply(Said::Refuse {
            id,
            used: 0,
            cause: Cause::Expired,
        }))
    }

    /// Brings a configuration into force, if it has no fault and binds the same addresses.
    fn reload(&mut self, moment: u64, text: &str) -> Result<Reply, StepFault>
        ensures reply { IfOk result (λ r. answer_in self.old moment (owned.Reload text.now) ≡ Ok r) }
        ensures new { IfOk result (λ r. self.new ≡ after self.old (entry moment (owned.Reload text.now) r ∷ [])) }
        ensures fault { IfErr result (λ f. IsFault (owned.Reload text.now) (answer_in self.old moment (owned.Reload text.now)) f) }
        ensures err { OnErr result (self.new ≡ self.old) }
    {
        let now = self.clock().max(moment);
        let plan = new_plan(self.alloc, text)?;
        let version = self.next_version(&plan)?;
        let Ok(()) = self.rows.reload(self.alloc, version, plan) else {
            return Err(StepFault::NoMemory);
        };
        self.rows.pass(now);
        self.rows.forget();
        Ok(plain_reply(Said::Reloaded { version }))
    }

    /// A server of the newest version that is checked is down from now on, or is not.
    fn mark(
        &mut self,
        moment: u64,
        number: u16,
        place: u16,
        health: Health,
    ) -> Result<Reply, StepFault>
        ensures reply { IfOk result (λ r. answer_in self.old moment (owned.Mark number place health) ≡ Ok r) }
        ensures new { IfOk result (λ r. self.new ≡ after self.old (entry moment (owned.Mark number place health) r ∷ [])) }
        ensures fault { IfErr result (λ f. IsFault (owned.Mark number place health) (answer_in self.old moment (owned.Mark number place health)) f) }
        ensures err { OnErr result (self.new ≡ self.old) }
    {
        let Some(found) = self.checked(number, place) else {
            return Err(StepFault::NotChecked);
        };
        let line = found.server.line;
        let Ok(identity) = identity_of(self.alloc, found.backend, found.server) else {
            return Err(StepFault::NoMemory);
        };
        let now = self.clock().max(moment);
        let Ok(()) = self.rows.mark(health, identity) else {
            return Err(StepFault::NoMemory);
        };
        self.rows.pass(now);
        Ok(plain_reply(Said::Marked { line, health }))
    }

    /// The number that a plan gets if it follows the newest version.
    fn next_version(&self, plan: &Plan) -> Result<u64, StepFault>
        ensures ok { IfOk result (λ n. reload_answer self.now (Ok plan.now) ≡ Ok (reply_of (Reloaded n))) }
        ensures fault { IfErr result (λ f. reload_answer self.now (Ok plan.now) ≡ Err f) }
        ensures next { IfOk result (λ n. IsNextVersion self.now n) }
    {
        let Some(newest) = self.rows.newest() else {
            return Err(StepFault::BindChanged);
        };
        if !same_binds(&newest.plan, plan) {
            return Err(StepFault::BindChanged);
        }
        match next_number(newest.number) {
            Some(number) => Ok(number),
            None => Err(StepFault::Exhausted),
        }
    }
}

/// The name of a server, by which it is known through all versions.
fn identity_of(
    alloc: Global,
    backend: &Backend,
    server: &Server,
) -> Result<ServerIdentity, AllocError>
    ensures { IfOk result (λ identity. identity ≡ identity_in backend.now server.now) }
{
    Ok(ServerIdentity {
        backend: backend.name.duplicate(alloc)?,
        name: server.name.duplicate(alloc)?,
        to: server.to,
    })
}

/// The plan of a configuration that is to come into force.
fn new_plan(alloc: Global, text: &str) -> Result<Plan, StepFault>
    ensures ok { IfOk result (λ plan. meaning text.now ≡ Ok plan) }
    ensures sound { IfOk result IsSoundPlan }
    ensures fault { IfErr result (λ f. (f ≡ StepFault.NoMemory) ⊎ ((p : Plain) → reload_answer p (meaning text.now) ≡ Err f)) }
{
    match read_plan(alloc, text) {
        Ok(plan) => Ok(plan),
        Err(fault) => {
            if matches!(fault, OpenFault::NoMemory) {
                return Err(StepFault::NoMemory);
            }
            Err(StepFault::BadConfig(fault))
        }
    }
}

/// Forgets what is not needed any longer, if that reply ended a connection.
fn forget_after(rows: &mut Rows, said: &Said)
    requires { is_last said.now ≡ true → AreTracksHeld rows.old.frontends (versions_needed rows.old.frontends rows.old.versions) }
    ensures { rows.new ≡ forgotten (is_last said.now) rows.old }
{
    if said.is_last() {
        rows.forget();
    }
}

/// The number after that one, if there is one: of a connection or a version.
fn next_number(last: u64) -> Option<u64>
    ensures next { IfSome result (λ serial. (serial ≡ last + 1) × (last + 1 < 2 ^ 64)) }
    ensures none { IfNone result (last ≡ 0xFFFF_FFFF_FFFF_FFFF) }
{
    if last == u64::MAX {
        None
    } else {
        Some(last + 1)
    }
}

/// Whether a connection may not wait for its header any longer. Moments are in ms.
fn is_due(accepted: u64, now: u64) -> bool
    ensures { result ≡ nat_le (accepted + HEADER_WAIT) now }
{
    match now.checked_sub(accepted) {
        Some(waited) => waited >= HEADER_WAIT,
        None => false,
    }
}

/// Another server for a connection that the version of that number judges.
#[derive(Drop)]
pub struct MovedOffer {
    pub version: u64,
    pub offer: Offer,
}

/// The name that a connection gets at its accept.
#[derive(Drop)]
struct Admission {
    id: ConnId,
    /// The version of the configuration that judges it.
    version: u64,
}
