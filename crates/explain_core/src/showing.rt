//! The rules that are tried as text.
ghost use Rattle.std.specs.Prelude.{◌≡◌, ◌++◌, ◌==◌, false, [], codes, find, flat_map, None, Some, slice_get, OnOk, if◌then◌else◌};
ghost use Rattle.std.specs.List.{enumerate_from};
ghost use Rattle.acl_core.specs.Truth.{applies};
ghost use Rattle.std.specs.Option.{option_copied, option_map_or};
ghost use Rattle.text_core.specs.Decimal.{decimal};
ghost use Rattle.addr_core.specs.Text.{endpoint_text};
ghost use Rattle.rule_engine.specs.Meaning.{present};
ghost use Rattle.conn_model.specs.Rules.{worth};
ghost use Rattle.conn_core.specs.Judging.{facts_view};
ghost use Rattle.conn_core.specs.Seeing.{IsKept};
ghost use Rattle.explain_core.specs.Text.{accept_text, backend_text, begins_to_track, choice_text, choice_unless, choices_text, chosen_text, effect_text, frontend_text, header_text, is_line, limit_line_text, limit_text, load_text, numbered_text, pair_text, passed_text, picked_in, rule_text, rules_text, section_text, server_text, tracking_text, trials_text, verdict_text, version_text, weight_text};

use crate::explaining::Trials;
use crate::quotes::{item, write_addr_text, write_line, write_seen, write_table};
use crate::tried::{Tried, TriedChoice};
use addr_core::{Addr, Endpoint, Pair, write_endpoint};
use conf_text::Lines;
use conn_core::RuleFacts;
use conn_model::plain::Listener;
use plan_types::{Action, Backend, Choice, Frontend, Rule, Server, Table};
use rule_engine::{Scene, Tracks, TracksSoFar, Verdict};
use std::alloc::{AllocError, Global};
use text_core::decimal::append_decimal;

/// Writes of a connection what is tried.
#[derive(Drop)]
pub struct Shower<'a, 'l> {
    pub alloc: Global,
    pub lines: &'l Lines<'a>,
}

/// Appends the one text or the other.
fn write_either(out: &mut Vec<u8>, is_one: bool, one: &[u8], other: &[u8]) -> Result<(), AllocError>
    ensures { OnOk result (out.new.items
        ≡ out.old.items ++ (if is_one then one.now else other.now)) }
{
    if is_one {
        out.extend_from_slice(one)
    } else {
        out.extend_from_slice(other)
    }
}

/// The kind and the name of a section, with its line.
fn write_section(out: &mut Vec<u8>, kind: &[u8], name: &[u8], line: u32) -> Result<(), AllocError>
    ensures { OnOk result (out.new.items ≡ out.old.items ++ section_text kind.now name.now line) }
{
    out.extend_from_slice(kind)?;
    out.extend_from_slice(name)?;
    out.extend_from_slice(b" line ")?;
    append_decimal(out, u64::from(line))
}

fn write_endpoint_text(out: &mut Vec<u8>, endpoint: &Endpoint) -> Result<(), AllocError>
    ensures { OnOk result (out.new.items ≡ out.old.items ++ endpoint_text endpoint.now) }
{
    out.extend_from_slice(write_endpoint(endpoint).as_str().as_bytes())
}

/// The frontend, and the listener that takes the connection.
fn write_frontend(
    out: &mut Vec<u8>,
    frontend: &Frontend,
    at: &Endpoint,
    accept_proxy: bool,
) -> Result<(), AllocError>
    ensures { OnOk result (out.new.items
        ≡ out.old.items ++ frontend_text frontend.now at.now accept_proxy) }
{
    write_section(out, b"frontend ", frontend.name.as_slice(), frontend.line)?;
    out.extend_from_slice(b" listener ")?;
    write_endpoint_text(out, at)?;
    write_either(out, accept_proxy, b" accept-proxy\n", b"\n")
}

/// Whether a limit decides, where so many are open with the connection.
fn write_limit(out: &mut Vec<u8>, limit: u64, connections: u64) -> Result<(), AllocError>
    ensures { OnOk result (out.new.items ≡ out.old.items ++ passed_text limit connections) }
{
    if limit < connections {
        out.extend_from_slice(b" open, decides\n")
    } else {
        out.extend_from_slice(b" open, goes on\n")
    }
}

/// What a counter begins to track in the table of that number, if it begins to.
fn begins_to_track<S: Scene>(scene: &S, tracks: &Tracks, counter: u8, table: u16) -> Option<Addr>
    ensures { result ≡ begins_to_track (S.meaning scene.now) tracks.now counter table }
{
    match tracks.get(usize::from(counter)) {
        Some(None) => {
            if !scene.is_free(counter) {
                return None;
            }
            match scene.key(tracks, table) {
                Some((_, key)) => Some(key),
                None => None,
            }
        }
        Some(Some(_)) | None => None,
    }
}

/// Appends what is tracked in the table of that number, if something is.
fn write_tracking(
    out: &mut Vec<u8>,
    tables: &[Table],
    table: u16,
    key: &Option<Addr>,
) -> Result<(), AllocError>
    ensures { OnOk result (out.new.items
        ≡ out.old.items ++ tracking_text tables.now table key.now) }
{
    match key {
        Some(key) => {
            out.extend_from_slice(b", tracks ")?;
            write_addr_text(out, key)?;
            out.extend_from_slice(b" in ")?;
            write_table(out, tables, table)
        }
        None => out.extend_from_slice(b", tracks nothing"),
    }
}

/// What a rule does that applies.
fn write_effect<S: Scene>(
    out: &mut Vec<u8>,
    tables: &[Table],
    scene: &S,
    it: &Tried,
) -> Result<(), AllocError>
    ensures { OnOk result (out.new.items ≡ out.old.items
        ++ effect_text tables.now (S.meaning scene.now) it.now.before it.now.action) }
{
    match it.action {
        Action::Accept | Action::Reject => out.extend_from_slice(b", decides"),
        Action::ExpectProxy => out.extend_from_slice(b", a header is expected"),
        Action::Track(counter, table) => {
            let key = begins_to_track(scene, &it.before, counter, table);
            write_tracking(out, tables, table, &key)
        }
    }
}

/// Whether a rule applies, and what it does then.
fn write_verdict<S: Scene>(
    out: &mut Vec<u8>,
    tables: &[Table],
    scene: &S,
    it: &Tried,
) -> Result<(), AllocError>
    ensures { OnOk result (out.new.items
        ≡ out.old.items ++ verdict_text tables.now (S.meaning scene.now) it.now) }
{
    if !it.applies {
        return out.extend_from_slice(b": no");
    }
    out.extend_from_slice(b": yes")?;
    write_effect(out, tables, scene, it)
}

/// The first `use_backend` line that applies.
fn chosen<'a>(choices: &'a [Choice], facts: &RuleFacts<'_>, tracks: &Tracks) -> Option<&'a Choice>
    ensures { option_copied result ≡ find (λ choice. applies facts.now.frontend.now.acls
        (worth (facts_view facts.now (present tracks.now))) choice.when) choices.now }
{
    let moment = TracksSoFar {
        scene: facts,
        tracks,
    };
    choices.iter().find(|choice| choice.when.applies(&moment))
}

/// The number of the server that is picked, of the backend of that number.
fn picked(facts: &RuleFacts<'_>, number: u16, backend: &Backend) -> Option<u16>
    requires kept { IsKept facts.now }
    requires there { slice_get facts.now.version.now.plan.backends number ≡ Some backend.now }
    ensures { result ≡ picked_in (facts_view facts.now []) number backend.now }
{
    facts.rows.pick(facts.version.number, number, &facts.source)
}

/// A word and a number after it.
fn write_number(out: &mut Vec<u8>, word: &[u8], number: u64) -> Result<(), AllocError>
    ensures { OnOk result (out.new.items ≡ out.old.items ++ (word.now ++ decimal number)) }
{
    out.extend_from_slice(word)?;
    append_decimal(out, number)
}

/// How many connections to a server are open, and whether it is picked.
fn write_open(out: &mut Vec<u8>, connections: u64, is_picked: bool) -> Result<(), AllocError>
    ensures { OnOk result (out.new.items ≡ out.old.items ++ (codes ", " ++ decimal connections
        ++ (if is_picked then codes " open: picked\n" else codes " open\n"))) }
{
    write_number(out, b", ", connections)?;
    write_either(out, is_picked, b" open: picked\n", b" open\n")
}

/// The weight of a server, how many connections to it are open, and whether it is picked.
fn write_load(
    out: &mut Vec<u8>,
    weight: u16,
    connections: u64,
    is_picked: bool,
) -> Result<(), AllocError>
    ensures { OnOk result (out.new.items
        ≡ out.old.items ++ weight_text weight connections is_picked) }
{
    write_number(out, b": weight ", u64::from(weight))?;
    write_open(out, connections, is_picked)
}

/// Whether it is that number.
fn is_number(picked: Option<u16>, number: usize) -> bool
    ensures { result ≡ option_map_or (λ turn. turn == number) picked false }
{
    match picked {
        Some(turn) => usize::from(turn) == number,
        None => false,
    }
}

/// Whether a header is a line, which is that of version 1.
fn is_line(header: &[u8]) -> bool
    ensures { result ≡ is_line header.now }
{
    !header.is_empty() && header[0] == b'P'
}

/// The version of a header.
fn write_version(out: &mut Vec<u8>, header: &[u8]) -> Result<(), AllocError>
    ensures { OnOk result (out.new.items ≡ out.old.items ++ version_text header.now) }
{
    if is_line(header) {
        out.extend_from_slice(b"header version 1, ")
    } else {
        out.extend_from_slice(b"header version 2, ")
    }
}

/// A word and an endpoint after it.
fn write_place(out: &mut Vec<u8>, word: &[u8], endpoint: &Endpoint) -> Result<(), AllocError>
    ensures { OnOk result (out.new.items
        ≡ out.old.items ++ (word.now ++ endpoint_text endpoint.now)) }
{
    out.extend_from_slice(word)?;
    write_endpoint_text(out, endpoint)
}

/// The pair by which a connection is judged, to the end of its line.
fn write_pair(out: &mut Vec<u8>, judged: &Pair) -> Result<(), AllocError>
    ensures { OnOk result (out.new.items ≡ out.old.items ++ pair_text judged.now) }
{
    write_place(out, b" bytes: ", &judged.source())?;
    write_place(out, b" to ", &judged.destination())?;
    out.extend_from_slice(b"\n")
}

/// A header that is whole, with the pair by which the connection is judged.
pub fn write_header(
    out: &mut Vec<u8>,
    header: &[u8],
    used: usize,
    judged: &Pair,
) -> Result<(), AllocError>
    ensures { OnOk result (out.new.items
        ≡ out.old.items ++ header_text header.now used judged.now) }
{
    write_version(out, header)?;
    append_decimal(out, used as u64)?;
    write_pair(out, judged)
}

impl Shower<'_, '_> {
    /// The limit of the frontend, where it has a line.
    fn show_limit(
        &self,
        out: &mut Vec<u8>,
        frontend: &Frontend,
        connections: u64,
    ) -> Result<(), AllocError>
        ensures { OnOk result (out.new.items
            ≡ out.old.items ++ limit_text self.now.lines.now frontend.now connections) }
    {
        if frontend.limit_line == 0 {
            return Ok(());
        }
        self.show_limit_line(out, frontend, connections)
    }

    /// The line of the limit, and whether it decides.
    fn show_limit_line(
        &self,
        out: &mut Vec<u8>,
        frontend: &Frontend,
        connections: u64,
    ) -> Result<(), AllocError>
        ensures { OnOk result (out.new.items
            ≡ out.old.items ++ limit_line_text self.now.lines.now frontend.now connections) }
    {
        write_line(out, self.lines, frontend.limit_line)?;
        out.extend_from_slice(b": ")?;
        append_decimal(out, connections.saturating_sub(1))?;
        write_limit(out, frontend.limit, connections)
    }

    /// A rule that was tried, with what it saw.
    fn show_rule<S: Scene>(
        &self,
        out: &mut Vec<u8>,
        tables: &[Table],
        scene: &S,
        rule: &Rule,
        it: &Tried,
    ) -> Result<(), AllocError>
        ensures { OnOk result (out.new.items ≡ out.old.items
            ++ rule_text self.now.lines.now tables.now (S.meaning scene.now) (rule.now, it.now)) }
    {
        write_line(out, self.lines, it.line)?;
        write_verdict(out, tables, scene, it)?;
        out.extend_from_slice(b"\n")?;
        let moment = TracksSoFar {
            scene,
            tracks: &it.before,
        };
        write_seen(self.alloc, out, &moment, &rule.when)
    }

    /// The rules of a list that were tried: the first ones of the list.
    fn show_rules(
        &self,
        out: &mut Vec<u8>,
        facts: &RuleFacts<'_>,
        rules: &[Rule],
        tried: &[Tried],
    ) -> Result<(), AllocError>
        ensures { OnOk result (out.new.items ≡ out.old.items
            ++ rules_text self.now.lines.now facts.now rules.now tried.now) }
    {
        let tables = facts.version.plan.tables.as_slice();
        for (place, it) in tried.iter().enumerate() {
            let Some(rule) = item(rules, place) else {
                return Ok(());
            };
            self.show_rule(out, tables, facts, rule, it)?;
        }
        Ok(())
    }

    /// A `use_backend` line that was tried, with what it saw.
    fn show_choice(
        &self,
        out: &mut Vec<u8>,
        facts: &RuleFacts<'_>,
        tracks: &Tracks,
        choice: &Choice,
        it: &TriedChoice,
    ) -> Result<(), AllocError>
        ensures { OnOk result (out.new.items ≡ out.old.items ++ choice_text self.now.lines.now
            (facts_view facts.now (present tracks.now)) (choice.now, it.now)) }
    {
        write_line(out, self.lines, it.line)?;
        write_either(out, it.applies, b": yes, decides\n", b": no\n")?;
        let moment = TracksSoFar {
            scene: facts,
            tracks,
        };
        write_seen(self.alloc, out, &moment, &choice.when)
    }

    /// The `use_backend` lines that were tried: the first ones of the frontend.
    fn show_choices(
        &self,
        out: &mut Vec<u8>,
        facts: &RuleFacts<'_>,
        tracks: &Tracks,
        tried: &[TriedChoice],
    ) -> Result<(), AllocError>
        ensures { OnOk result (out.new.items ≡ out.old.items ++ choices_text self.now.lines.now
            (facts_view facts.now (present tracks.now)) tried.now) }
    {
        let choices = facts.frontend.choices.as_slice();
        for (place, it) in tried.iter().enumerate() {
            let Some(choice) = item(choices, place) else {
                return Ok(());
            };
            self.show_choice(out, facts, tracks, choice, it)?;
        }
        Ok(())
    }

    /// The load of a server, and whether it is picked.
    fn show_load(
        &self,
        out: &mut Vec<u8>,
        facts: &RuleFacts<'_>,
        backend: &Backend,
        server: &Server,
        is_picked: bool,
    ) -> Result<(), AllocError>
        ensures { OnOk result (out.new.items ≡ out.old.items
            ++ load_text (facts_view facts.now []) backend.now server.now is_picked) }
    {
        if server.disabled {
            return out.extend_from_slice(b": disabled\n");
        }
        write_load(
            out,
            server.weight,
            facts.rows.served_by(backend, server),
            is_picked,
        )
    }

    /// A server by its number in its backend.
    fn show_server(
        &self,
        out: &mut Vec<u8>,
        facts: &RuleFacts<'_>,
        backend: &Backend,
        picked: Option<u16>,
        number: usize,
        server: &Server,
    ) -> Result<(), AllocError>
        ensures { OnOk result (out.new.items ≡ out.old.items
            ++ server_text self.now.lines.now (facts_view facts.now [])
            backend.now picked (number, server.now)) }
    {
        out.extend_from_slice(b"  ")?;
        write_line(out, self.lines, server.line)?;
        self.show_load(out, facts, backend, server, is_number(picked, number))
    }

    /// The servers of a backend, of which that one is picked.
    fn show_servers(
        &self,
        out: &mut Vec<u8>,
        facts: &RuleFacts<'_>,
        backend: &Backend,
        picked: Option<u16>,
    ) -> Result<(), AllocError>
        ensures { OnOk result (out.new.items ≡ out.old.items
            ++ flat_map
            (server_text self.now.lines.now (facts_view facts.now []) backend.now picked)
            (enumerate_from 0 backend.now.servers)) }
    {
        for (number, server) in backend.servers.as_slice().iter().enumerate() {
            self.show_server(out, facts, backend, picked, number, server)?;
        }
        Ok(())
    }

    /// A backend by its number, with its servers as its method sees them, and which of them it picks.
    fn show_section(
        &self,
        out: &mut Vec<u8>,
        facts: &RuleFacts<'_>,
        number: u16,
        is_default: bool,
        backend: &Backend,
    ) -> Result<(), AllocError>
        requires kept { IsKept facts.now }
        requires there { slice_get facts.now.version.now.plan.backends number ≡ Some backend.now }
        ensures { OnOk result (out.new.items ≡ out.old.items ++ backend_text self.now.lines.now
            (facts_view facts.now []) number is_default backend.now) }
    {
        write_section(out, b"backend ", backend.name.as_slice(), backend.line)?;
        write_either(out, is_default, b", the default\n", b"\n")?;
        let picked = picked(facts, number, backend);
        self.show_servers(out, facts, backend, picked)
    }

    /// The backend of that number.
    fn show_backend(
        &self,
        out: &mut Vec<u8>,
        facts: &RuleFacts<'_>,
        number: u16,
        is_default: bool,
    ) -> Result<(), AllocError>
        requires { IsKept facts.now }
        ensures { OnOk result (out.new.items ≡ out.old.items
            ++ numbered_text self.now.lines.now (facts_view facts.now []) number is_default) }
    {
        match item(facts.version.plan.backends.as_slice(), usize::from(number)) {
            Some(backend) => self.show_section(out, facts, number, is_default, backend),
            None => Ok(()),
        }
    }

    /// The backend of the `use_backend` line that applies, or else the default one.
    fn show_chosen(
        &self,
        out: &mut Vec<u8>,
        facts: &RuleFacts<'_>,
        choice: Option<&Choice>,
    ) -> Result<(), AllocError>
        requires { IsKept facts.now }
        ensures { OnOk result (out.new.items ≡ out.old.items
            ++ chosen_text self.now.lines.now (facts_view facts.now [])
            (option_copied choice.entry) facts.now.frontend.now.default) }
    {
        match (choice, facts.frontend.default) {
            (Some(choice), _) => self.show_backend(out, facts, choice.backend, false),
            (None, Some(number)) => self.show_backend(out, facts, number, true),
            (None, None) => Ok(()),
        }
    }

    /// The `use_backend` lines that were tried, and the backend.
    fn show_choice_of_backend(
        &self,
        out: &mut Vec<u8>,
        facts: &RuleFacts<'_>,
        tracks: &Tracks,
        tried: &[TriedChoice],
    ) -> Result<(), AllocError>
        requires { IsKept facts.now }
        ensures { OnOk result (out.new.items ≡ out.old.items
            ++ choice_unless None self.now.lines.now
            (facts_view facts.now (present tracks.now)) tried.now) }
    {
        self.show_choices(out, facts, tracks, tried)?;
        let choice = chosen(facts.frontend.choices.as_slice(), facts, tracks);
        self.show_chosen(out, facts, choice)
    }

    /// What was tried once it was known who the client is.
    pub fn show_trials(
        &self,
        out: &mut Vec<u8>,
        facts: &RuleFacts<'_>,
        trials: &Trials,
    ) -> Result<(), AllocError>
        requires { IsKept facts.now }
        ensures { OnOk result (out.new.items
            ≡ out.old.items ++ trials_text self.now.lines.now facts.now trials.now) }
    {
        let rules = facts.frontend.session_rules.as_slice();
        self.show_rules(out, facts, rules, trials.session.as_slice())?;
        match trials.says.verdict {
            Verdict::Reject => Ok(()),
            Verdict::Accept | Verdict::On => {
                let tried = trials.choices.as_slice();
                self.show_choice_of_backend(out, facts, &trials.says.tracks, tried)
            }
        }
    }

    /// What was tried at the accept.
    pub fn show_accept(
        &self,
        out: &mut Vec<u8>,
        facts: &RuleFacts<'_>,
        at: &Listener,
        entry: &[Tried],
        trials: &Option<Trials>,
    ) -> Result<(), AllocError>
        requires { IsKept facts.now }
        ensures { OnOk result (out.new.items ≡ out.old.items
            ++ accept_text self.now.lines.now facts.now at.now entry.now trials.now) }
    {
        write_frontend(out, facts.frontend, &at.at, at.accept_proxy)?;
        self.show_limit(out, facts.frontend, facts.connections)?;
        let rules = facts.frontend.connection_rules.as_slice();
        self.show_rules(out, facts, rules, entry)?;
        match trials {
            Some(trials) => self.show_trials(out, facts, trials),
            None => Ok(()),
        }
    }
}
