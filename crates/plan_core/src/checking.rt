//! What is wrong with a configuration as a whole.
ghost use Rattle.std.specs.Prelude.{◌≡◌, ◌≤◌, ◌<◌, length, flat_map, is_some, IfSome};
ghost use Rattle.std.specs.List.{list_any};
ghost use Rattle.std.specs.Str.{bytes_eq};
ghost use Rattle.plan_core.specs.Proxies.{is_frontend};
ghost use Rattle.plan_core.specs.Fields.{backend_number};
ghost use Rattle.plan_core.specs.Faults.{kind_number, is_before, earlier, earliest, least, IsLeast, bind_faults, default_faults, backend_kind, track_fault, choice_fault, line_faults, own_faults, frontend_faults, faults_in, no_frontend, faults_of};

use crate::criteria::{at_line, test_fault, when_fault};
use crate::fault::{PlanFault, PlanKind};
use crate::fields::{Named, default_in, last_bind};
use crate::proxies::{Proxy, is_frontend};
use crate::tables::{action_of, number_of};
use conf_tree::{ActionWords, ConfigLine, Statement};
use plan_types::{Backend, Table};
use text_core::{Word, is_same_name};

fn kind_number(kind: PlanKind) -> u8
    ensures { result ≡ kind_number kind }
{
    match kind {
        PlanKind::NoTable => 0,
        PlanKind::NoBackend => 1,
        PlanKind::NotStored => 2,
        PlanKind::NoBind => 3,
        PlanKind::NoFrontend => 4,
        PlanKind::NoMemory => 5,
    }
}

fn is_before(a: PlanFault, b: PlanFault) -> bool
    ensures { result ≡ is_before a b }
{
    a.line < b.line || (a.line == b.line && kind_number(a.kind) < kind_number(b.kind))
}

fn earlier(a: PlanFault, b: PlanFault) -> PlanFault
    ensures { result ≡ earlier a b }
{
    if is_before(b, a) { b } else { a }
}

pub fn earliest(a: Option<PlanFault>, b: Option<PlanFault>) -> Option<PlanFault>
    ensures { result ≡ earliest a b }
{
    match (a, b) {
        (None, other) => other,
        (Some(a), None) => Some(a),
        (Some(a), Some(b)) => Some(earlier(a, b)),
    }
}

fn bind_fault(proxy: &Proxy) -> Option<PlanFault>
    ensures { result ≡ least (bind_faults proxy.now) }
{
    if last_bind(proxy.own.items()).is_some() {
        return None;
    }
    Some(PlanFault {
        line: proxy.head.line,
        kind: PlanKind::NoBind,
    })
}

fn is_named(backend: &Backend, name: &Word) -> bool
    ensures { result ≡ bytes_eq backend.now.name name.now }
{
    is_same_name(backend.name.as_slice(), name.bytes())
}

/// The place of the backend of that name.
fn backend_place(backends: &[Backend], name: &Word) -> Option<usize>
    ensures value { result ≡ backend_number backends.now name.now }
    ensures within { IfSome result (λ n. n < length backends.now) }
{
    backends.iter().position(|backend| is_named(backend, name))
}

/// What is wrong where no backend has that name.
pub fn backend_kind(backends: &[Backend], name: &Word) -> Option<PlanKind>
    ensures { result ≡ backend_kind backends.now name.now }
{
    if backend_place(backends, name).is_some() {
        return None;
    }
    Some(PlanKind::NoBackend)
}

/// The number of the backend of that name.
pub fn backend_number(backends: &[Backend], name: &Word) -> Option<u16>
    requires { length backends.now ≤ 65535 }
    ensures { result ≡ backend_number backends.now name.now }
{
    number_of(backend_place(backends, name))
}

fn default_fault(backends: &[Backend], setting: &Option<Named>) -> Option<PlanFault>
    requires { length backends.now ≤ 65535 }
    ensures { result ≡ least (default_faults backends.now setting.now) }
{
    let Some(named) = setting else {
        return None;
    };
    if backend_number(backends, &named.name).is_some() {
        return None;
    }
    Some(PlanFault {
        line: named.line,
        kind: PlanKind::NoBackend,
    })
}

fn track_fault(tables: &[Table], name: &Word, line: u32, action: &ActionWords) -> Option<PlanFault>
    requires { length tables.now ≤ 65535 }
    ensures { result ≡ track_fault tables.now name.now line action.now }
{
    if action_of(tables, name, action).is_some() {
        return None;
    }
    Some(PlanFault {
        line,
        kind: PlanKind::NoTable,
    })
}

fn choice_fault(backends: &[Backend], line: u32, backend: &Word) -> Option<PlanFault>
    ensures { result ≡ choice_fault backends.now line backend.now }
{
    at_line(line, backend_kind(backends, backend))
}

/// The first fault of a line of the frontend of that name.
#[tactic(auto, using(crate::proofs::FaultLemmas::one_and_more, crate::proofs::FaultLemmas::only_one))]
fn line_fault(
    tables: &[Table],
    backends: &[Backend],
    all: &[Proxy],
    name: &Word,
    item: &ConfigLine,
) -> Option<PlanFault>
    requires { length tables.now ≤ 65535 }
    ensures { result ≡ least (line_faults tables.now backends.now all.now name.now item.now.line item.now.statement) }
{
    let line = item.line;
    match &item.statement {
        Statement::Acl(_, test) => test_fault(tables, backends, all, name, line, test),
        Statement::Rule(_, action, when) => earliest(
            track_fault(tables, name, line, action),
            when_fault(tables, backends, all, name, line, when),
        ),
        Statement::UseBackend(backend, when) => earliest(
            choice_fault(backends, line, backend),
            when_fault(tables, backends, all, name, line, when),
        ),
        _ => None,
    }
}

/// The first fault of the lines of the frontend of that name.
fn own_fault(
    tables: &[Table],
    backends: &[Backend],
    all: &[Proxy],
    name: &Word,
    items: &[ConfigLine],
) -> Option<PlanFault>
    requires { length tables.now ≤ 65535 }
    ensures { result ≡ least (own_faults tables.now backends.now all.now name.now items.now) }
{
    let mut found = None;
    for item in items {
        found = earliest(found, line_fault(tables, backends, all, name, item));
    }
    found
}

/// The first fault of a frontend.
fn frontend_fault(
    tables: &[Table],
    backends: &[Backend],
    all: &[Proxy],
    proxy: &Proxy,
) -> Option<PlanFault>
    requires tables { length tables.now ≤ 65535 }
    requires backends { length backends.now ≤ 65535 }
    ensures { result ≡ least (frontend_faults tables.now backends.now all.now proxy.now) }
{
    let of_default = default_fault(backends, &default_in(proxy));
    let of_lines = own_fault(tables, backends, all, &proxy.head.name, proxy.own.items());
    earliest(bind_fault(proxy), earliest(of_default, of_lines))
}

/// The first fault of a section.
fn fault_in(
    tables: &[Table],
    backends: &[Backend],
    all: &[Proxy],
    proxy: &Proxy,
) -> Option<PlanFault>
    requires tables { length tables.now ≤ 65535 }
    requires backends { length backends.now ≤ 65535 }
    ensures { result ≡ least (faults_in tables.now backends.now all.now proxy.now) }
{
    if is_frontend(proxy) {
        frontend_fault(tables, backends, all, proxy)
    } else {
        None
    }
}

/// The first fault of all sections.
fn fault_in_all(tables: &[Table], backends: &[Backend], all: &[Proxy]) -> Option<PlanFault>
    requires tables { length tables.now ≤ 65535 }
    requires backends { length backends.now ≤ 65535 }
    ensures { result ≡ least (flat_map (faults_in tables.now backends.now all.now) all.now) }
{
    let mut found = None;
    for proxy in all {
        found = earliest(found, fault_in(tables, backends, all, proxy));
    }
    found
}

fn has_frontend(all: &[Proxy]) -> bool
    ensures { result ≡ list_any is_frontend all.now }
{
    all.iter().any(is_frontend)
}

/// The first fault of a configuration.
pub fn fault_of(tables: &[Table], backends: &[Backend], all: &[Proxy]) -> Option<PlanFault>
    requires tables { length tables.now ≤ 65535 }
    requires backends { length backends.now ≤ 65535 }
    ensures value { result ≡ least (faults_of tables.now backends.now all.now) }
    ensures least { IfSome result (λ fault. IsLeast (faults_of tables.now backends.now all.now) fault) }
{
    if has_frontend(all) {
        return fault_in_all(tables, backends, all);
    }
    Some(PlanFault {
        line: 0,
        kind: PlanKind::NoFrontend,
    })
}
