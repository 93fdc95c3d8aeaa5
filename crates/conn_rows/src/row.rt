//! One open connection.
ghost use Rattle.std.specs.Prelude.{◌≡◌, [], IfOk, IfSome, None, find, option_and_then, option_map};
ghost use Rattle.std.specs.Option.{option_copied, option_map_or};
ghost use Rattle.plan_types.specs.Lines.{has_line, LinesDiffer};
ghost use Rattle.conn_tables.specs.Tracks.{no_trackings};
ghost use Rattle.conn_versions.specs.Versions.{AreSound};
ghost use Rattle.conn_model.specs.Answer.{version_at};
ghost use Rattle.conn_model.specs.History.{identity_at, nobody};
ghost use Rattle.conn_model.specs.Counts.{server_of};
ghost use Rattle.conn_model.specs.Settings.{settings_at};
ghost use Rattle.conn_rows.specs.Summaries.{pending_in, stored_pending, names_in, names_of, stored_summary};
ghost use Rattle.conn_rows.specs.Stored.{assignment_in, awaits, line_of, phase_of, phase_with, plan_at, plain_row, slot_of, stored_arrival, waits};

use crate::packed::PackedChoice;
use crate::settings::{ServerPlace, backend_at, settings_by};
use addr_core::{Endpoint, PackedPair, Pair};
use arrayvec::ArrayVec;
use conn_model::copy_of_lines;
use conn_model::plain::{Assignment, Phase, Row, Version};
use conn_model::settings::Settings;
use conn_tables::Trackings;
use conn_versions::{Slot, item};
use list_core::{Duplicate, Seq};
use plan_types::{Backend, MOST_MOVES, Plan, Server};
use pp_any::Parser;
use proxy_types::ServerIdentity;
use std::alloc::{AllocError, Global};

/// The server that a connection was offered.
#[derive(Clone, Copy, Debug, PartialEq, Eq)]
pub struct ServerChoice {
    /// The number of the server in its backend, from 0.
    pub server: u16,
    /// The line of the server in the configuration.
    pub line: u32,
    pub to: Endpoint,
    /// The source and the destination by which the connection was judged.
    pub judged: Pair,
}

impl ServerChoice {
    /// The server in a plan.
    fn place(&self) -> ServerPlace
        ensures { result ≡ record { line = self.now.line; number = self.now.server } }
    {
        ServerPlace {
            line: self.line,
            number: self.server,
        }
    }
}

/// The server that a connection was offered. It cannot be dropped.
pub struct ServerHold {
    pub seat: PackedChoice,
    /// The connection is one of those that are open to the server.
    pub slot: Slot,
    /// The lines of the servers of its backend that were out of reach for it before, the oldest first.
    pub failed: ArrayVec<u32, MOST_MOVES>,
    /// Whether the server took it.
    pub is_up: bool,
}

/// What is said of an open connection.
#[derive(Clone, Copy, Debug, PartialEq, Eq)]
pub struct RowSummary {
    /// The version of the configuration that judges it.
    pub version: u64,
    /// Its peer and its local end.
    pub real: Pair,
    /// The moment of its accept, in ms.
    pub accepted: u64,
    /// Whether it waits for its PROXY header.
    pub waits: bool,
    /// Whether it was offered a server, which did not take it yet.
    pub awaits_server: bool,
}

/// A connection that was offered a server, which did not take it yet.
#[derive(Clone, Copy, Debug)]
pub struct PendingOffer<'a> {
    /// The version of the configuration that judges the connection.
    pub version: u64,
    /// The line of the server.
    pub line: u32,
    /// The pair by which the connection was judged.
    pub judged: Pair,
    /// The lines of the servers that were out of reach for it before, the oldest first.
    pub failed: &'a [u32],
}

/// The names of a server, as its configuration has them.
#[derive(Clone, Copy, Debug)]
pub struct ServerNames<'a> {
    pub backend: &'a [u8],
    pub server: &'a [u8],
}

/// How far a connection is.
pub enum Stage {
    /// It waits for its PROXY header, or for the rest of it.
    Waiting(Parser),
    /// It was offered a server.
    Offered(ServerHold),
}

impl Stage {
    pub fn waits(&self) -> bool
        ensures { result ≡ waits self.now }
    {
        match self {
            Stage::Waiting(_) => true,
            Stage::Offered(_) => false,
        }
    }

    pub fn awaits(&self) -> bool
        ensures { result ≡ awaits self.now }
    {
        match self {
            Stage::Waiting(_) => false,
            Stage::Offered(held) => !held.is_up,
        }
    }

    /// The server that it was offered.
    fn place(&self) -> Option<ServerPlace>
        ensures { option_map (λ place. place.line) result ≡ line_of self.now }
    {
        match self {
            Stage::Waiting(_) => None,
            Stage::Offered(held) => Some(held.seat.seat().place()),
        }
    }

    /// The same as plain data, by that plan.
    fn plain(&self, alloc: Global, plan: Option<&Plan>) -> Result<Phase, AllocError>
        requires { IfSome plan (λ plan. LinesDiffer plan.now) }
        ensures { IfOk result (λ phase. phase ≡ phase_of (option_copied plan.entry) self.now) }
    {
        match self {
            Stage::Waiting(parser) => Ok(Phase::Waiting(parser.rest())),
            Stage::Offered(held) => Ok(phase(
                assignment(alloc, plan, &held.seat.seat(), held.failed.as_slice())?,
                held.is_up,
            )),
        }
    }

    /// Ends the stage. The slot is still to be given back.
    pub fn end(self) -> Option<Slot>
        ensures { result ≡ slot_of self }
    {
        match self {
            Stage::Waiting(parser) => {
                let _parser = parser;
                None
            }
            Stage::Offered(held) => Some(held.end()),
        }
    }
}

impl ServerHold {
    fn end(self) -> Slot
        ensures { result ≡ self.slot }
    {
        let ServerHold {
            seat: _seat,
            slot,
            failed: _failed,
            is_up: _,
        } = self;
        slot
    }
}

/// What an open connection holds. It cannot be dropped.
pub struct Holdings {
    pub tracks: Trackings,
    pub slot: Option<Slot>,
}

/// An open connection. It cannot be dropped: it ends by `end`.
pub struct StoredRow {
    /// From 1, in the order of the frontend's accepts.
    pub serial: u64,
    /// The version of the configuration that judges it.
    pub version: u64,
    /// Its peer and its local end.
    pub real: PackedPair,
    /// The moment of its accept, in ms.
    pub accepted: u64,
    pub stage: Stage,
    /// What it tracks, by counter.
    pub tracks: Trackings,
}

impl StoredRow {
    /// A connection that waits, of which no byte came yet, and that tracks nothing.
    pub fn new(serial: u64, version: u64, real: Pair, accepted: u64) -> StoredRow
        ensures { result ≡ stored_arrival serial version real accepted }
    {
        StoredRow {
            serial,
            version,
            real: PackedPair::of(&real),
            accepted,
            stage: Stage::Waiting(Parser::new()),
            tracks: Trackings::none(),
        }
    }

    pub fn summary(&self) -> RowSummary
        ensures { result ≡ stored_summary self.now }
    {
        RowSummary {
            version: self.version,
            real: self.real.pair(),
            accepted: self.accepted,
            waits: self.stage.waits(),
            awaits_server: self.stage.awaits(),
        }
    }

    /// What it was offered, if its server did not take it yet.
    pub fn pending(&self) -> Option<PendingOffer<'_>>
        ensures { option_map pending_in result ≡ stored_pending self.now }
    {
        match &self.stage {
            Stage::Offered(held) if !held.is_up => {
                let seat = held.seat.seat();
                Some(PendingOffer {
                    version: self.version,
                    line: seat.line,
                    judged: seat.judged,
                    failed: held.failed.as_slice(),
                })
            }
            _ => None,
        }
    }

    /// The names of the server that it was offered, by the plans of these versions.
    pub fn server<'a>(&self, versions: &'a [Version]) -> Option<ServerNames<'a>>
        requires { AreSound versions.now }
        ensures { option_map names_in result ≡ option_map names_of (server_of (phase_of (plan_at versions.now self.now.version) self.now.stage)) }
    {
        match &self.stage {
            Stage::Waiting(_) => None,
            Stage::Offered(held) => {
                let judged_by = plan_at(versions, self.version);
                Some(names(judged_by, &held.seat.seat()))
            }
        }
    }

    /// How it is served as a connection to the frontend of that name, by the plan of its version. The frontend is looked
    /// for at that number first.
    pub fn settings(&self, number: u16, name: &[u8], versions: &[Version]) -> Option<Settings>
        requires { AreSound versions.now }
        ensures { result ≡ settings_at versions.now self.now.version name.now (line_of self.now.stage) }
    {
        let version = version_at(versions, self.version)?;
        settings_by(number, name, self.stage.place(), &version.plan)
    }

    /// An equal row, as plain data, by the plans of these versions.
    pub fn plain(&self, alloc: Global, versions: &[Version]) -> Result<Row, AllocError>
        requires { AreSound versions.now }
        ensures { IfOk result (λ row. row ≡ plain_row versions.now self.now) }
    {
        let plan = plan_at(versions, self.version);
        Ok(Row {
            serial: self.serial,
            version: self.version,
            real: self.real.pair(),
            accepted: self.accepted,
            phase: self.stage.plain(alloc, plan)?,
            tracks: self.tracks.plain(alloc)?,
        })
    }

    /// Ends the row. What it holds is still to be given back.
    pub fn end(self) -> Holdings
        ensures tracks { result.tracks ≡ self.tracks }
        ensures slot { result.slot ≡ slot_of self.stage }
    {
        let StoredRow {
            serial: _,
            version: _,
            real: _real,
            accepted: _,
            stage,
            tracks,
        } = self;
        Holdings {
            tracks,
            slot: stage.end(),
        }
    }

    /// Ends a row that holds nothing, as one that was just made.
    pub fn end_arrival(self)
        requires tracks { self.tracks ≡ no_trackings }
        requires slot { slot_of self.stage ≡ None }
    {
        let Holdings { tracks, slot } = self.end();
        let Trackings { sc0, sc1, sc2 } = tracks;
        end_none(sc0);
        end_none(sc1);
        end_none(sc2);
        end_none(slot);
    }
}

/// Ends what is not there.
fn end_none<T>(value: Option<T>)
    requires { value ≡ None }
{
    match value {
        Some(_value) => unreachable!(),
        None => {}
    }
}

/// The version of that number.
pub fn version_at(versions: &[Version], number: u64) -> Option<&Version>
    ensures { option_copied result ≡ version_at versions.now number }
{
    versions.iter().find(|version| version.number == number)
}

/// The plan of the version of that number.
fn plan_at(versions: &[Version], number: u64) -> Option<&Plan>
    requires { AreSound versions.now }
    ensures value { option_copied result ≡ plan_at versions.now number }
    ensures lines { IfSome result (λ plan. LinesDiffer plan.now) }
{
    let version = version_at(versions, number)?;
    Some(&version.plan)
}

/// The backend that has a server.
fn backend_of(plan: Option<&Plan>, place: ServerPlace) -> Option<&Backend>
    requires { IfSome plan (λ plan. LinesDiffer plan.now) }
    ensures { option_copied result ≡ option_and_then (λ plan. find (has_line place.line) plan.backends) (option_copied plan.entry) }
{
    let plan = plan?;
    backend_at(plan, place)
}

/// The backend of a plan that has the server of that line.
pub fn backend_in(plan: &Plan, line: u32) -> Option<&Backend>
    ensures { option_copied result ≡ find (has_line line) plan.now.backends }
{
    plan.backends
        .as_slice()
        .iter()
        .find(|backend| has_line(backend, line))
}

fn has_line(backend: &Backend, line: u32) -> bool
    ensures { result ≡ has_line line backend.now }
{
    backend
        .servers
        .as_slice()
        .iter()
        .any(|server| server.line == line)
}

fn phase(assignment: Assignment, is_up: bool) -> Phase
    ensures { result ≡ phase_with is_up assignment }
{
    if is_up {
        Phase::Up(assignment)
    } else {
        Phase::Offered(assignment)
    }
}

fn assignment(
    alloc: Global,
    plan: Option<&Plan>,
    seat: &ServerChoice,
    failed: &[u32],
) -> Result<Assignment, AllocError>
    requires { IfSome plan (λ plan. LinesDiffer plan.now) }
    ensures { IfOk result (λ assignment. assignment ≡ assignment_in (option_copied plan.entry) seat.now failed.now) }
{
    Ok(Assignment {
        server: identity(alloc, backend_of(plan, seat.place()), seat)?,
        line: seat.line,
        judged: seat.judged,
        failed: copy_of_lines(alloc, failed)?,
    })
}

/// The names of a server by a plan, which are empty where the plan has no such server.
fn names<'a>(plan: Option<&'a Plan>, seat: &ServerChoice) -> ServerNames<'a>
    requires { IfSome plan (λ plan. LinesDiffer plan.now) }
    ensures { names_in result ≡ names_of (assignment_in (option_copied plan.entry) seat.now []).server }
{
    match backend_of(plan, seat.place()) {
        Some(backend) => {
            let servers = backend.servers.as_slice();
            ServerNames {
                backend: backend.name.as_slice(),
                server: name_of(item(servers, seat.server)),
            }
        }
        None => ServerNames {
            backend: b"",
            server: b"",
        },
    }
}

fn name_of(server: Option<&Server>) -> &[u8]
    ensures { result.now ≡ option_map_or (λ server. server.name) (option_copied server.entry) [] }
{
    match server {
        Some(server) => server.name.as_slice(),
        None => b"",
    }
}

fn identity(
    alloc: Global,
    backend: Option<&Backend>,
    seat: &ServerChoice,
) -> Result<ServerIdentity, AllocError>
    ensures { IfOk result (λ server. server ≡ option_map_or (identity_at seat.now.server seat.now.to) (option_copied backend.entry) (nobody seat.now.to)) }
{
    let Some(backend) = backend else {
        return Ok(ServerIdentity {
            backend: Seq::new(alloc),
            name: Seq::new(alloc),
            to: seat.to,
        });
    };
    Ok(ServerIdentity {
        backend: backend.name.duplicate(alloc)?,
        name: server_name(alloc, item(backend.servers.as_slice(), seat.server))?,
        to: seat.to,
    })
}

fn server_name(alloc: Global, server: Option<&Server>) -> Result<Seq<u8>, AllocError>
    ensures { IfOk result (λ name. name ≡ option_map_or (λ server. server.name) (option_copied server.entry) []) }
{
    match server {
        Some(server) => server.name.duplicate(alloc),
        None => Ok(Seq::new(alloc)),
    }
}
