//! What is wrong with the criteria in a frontend's lines.
ghost use Rattle.std.specs.Prelude.{◌≡◌, flat_map, option_map};
ghost use Rattle.std.specs.List.{list_any};
ghost use Rattle.plan_core.specs.Faults.{stored_kind, current_kind, total_kind, is_frontend_named, frontend_kind, criterion_kind, fault_at, test_fault, operand_fault, group_faults, when_faults, least};

use crate::checking::{backend_kind, earliest};
use crate::fault::{PlanFault, PlanKind};
use crate::proxies::{Proxy, is_frontend};
use crate::tables::stores_meant;
use acl_core::{Criterion, Operand, Term, Test, When};
use list_core::Seq;
use plan_types::{Backend, Stores, Table};
use text_core::Word;

fn stored_kind(is_stored: bool) -> Option<PlanKind>
    ensures { result ≡ stored_kind is_stored }
{
    if is_stored {
        return None;
    }
    Some(PlanKind::NotStored)
}

/// What is wrong where a table is asked for connections that are open.
fn current_kind(stores: Option<Stores>) -> Option<PlanKind>
    ensures { result ≡ current_kind stores }
{
    match stores {
        Some(stores) => stored_kind(stores.cur),
        None => Some(PlanKind::NoTable),
    }
}

/// What is wrong where a table is asked for all connections.
fn total_kind(stores: Option<Stores>) -> Option<PlanKind>
    ensures { result ≡ total_kind stores }
{
    match stores {
        Some(stores) => stored_kind(stores.cnt),
        None => Some(PlanKind::NoTable),
    }
}

/// The name that a criterion has as its argument.
fn argument(name: &Option<Seq<u8>>) -> Option<Word>
    ensures { result ≡ name.now }
{
    match name {
        Some(name) => Some(Word::of(name.as_slice())),
        None => None,
    }
}

fn is_frontend_named(proxy: &Proxy, name: &Word) -> bool
    ensures { result ≡ is_frontend_named name.now proxy.now }
{
    is_frontend(proxy) && proxy.head.name.is(name.bytes())
}

fn has_frontend_named(all: &[Proxy], name: &Word) -> bool
    ensures { result ≡ list_any (is_frontend_named name.now) all.now }
{
    all.iter().any(|proxy| is_frontend_named(proxy, name))
}

fn frontend_kind(all: &[Proxy], name: &Option<Word>) -> Option<PlanKind>
    ensures { result ≡ frontend_kind all.now name.now }
{
    match name {
        Some(name) => {
            if has_frontend_named(all, name) {
                return None;
            }
            Some(PlanKind::NoFrontend)
        }
        None => None,
    }
}

/// What is wrong with a criterion in the frontend of that name.
fn criterion_kind(
    tables: &[Table],
    backends: &[Backend],
    all: &[Proxy],
    name: &Word,
    criterion: &Criterion,
) -> Option<PlanKind>
    ensures { result ≡ criterion_kind tables.now backends.now all.now name.now criterion.now }
{
    match criterion {
        Criterion::Source | Criterion::TrackedConnections(_) | Criterion::TrackedTotal(_) => None,
        Criterion::SourceConnections(table) => {
            current_kind(stores_meant(tables, name, &argument(table)))
        }
        Criterion::SourceTotal(table) => total_kind(stores_meant(tables, name, &argument(table))),
        Criterion::FrontendConnections(frontend) => frontend_kind(all, &argument(frontend)),
        Criterion::BackendConnections(backend) => {
            backend_kind(backends, &Word::of(backend.as_slice()))
        }
    }
}

/// The fault of that kind on that line.
pub fn at_line(line: u32, kind: Option<PlanKind>) -> Option<PlanFault>
    ensures { result ≡ option_map (fault_at line) kind }
{
    match kind {
        Some(kind) => Some(PlanFault { line, kind }),
        None => None,
    }
}

/// What is wrong with a test that is written on that line, in the frontend of that name.
pub fn test_fault(
    tables: &[Table],
    backends: &[Backend],
    all: &[Proxy],
    name: &Word,
    line: u32,
    test: &Test,
) -> Option<PlanFault>
    ensures { result ≡ test_fault tables.now backends.now all.now name.now line test.now }
{
    let kind = criterion_kind(tables, backends, all, name, test.criterion());
    at_line(line, kind)
}

fn operand_fault(
    tables: &[Table],
    backends: &[Backend],
    all: &[Proxy],
    name: &Word,
    line: u32,
    operand: &Operand,
) -> Option<PlanFault>
    ensures { result ≡ operand_fault tables.now backends.now all.now name.now line operand.now }
{
    match operand {
        Operand::Test(test) => test_fault(tables, backends, all, name, line, test),
        Operand::Constant(_) | Operand::Acl(_) => None,
    }
}

/// The first fault of a group's terms.
fn group_fault(
    tables: &[Table],
    backends: &[Backend],
    all: &[Proxy],
    name: &Word,
    line: u32,
    terms: &[Term],
) -> Option<PlanFault>
    ensures { result ≡ least (group_faults tables.now backends.now all.now name.now line terms.now) }
{
    let mut found = None;
    for term in terms {
        let fault = operand_fault(tables, backends, all, name, line, &term.operand);
        found = earliest(found, fault);
    }
    found
}

/// The first fault of a condition's groups.
fn condition_fault(
    tables: &[Table],
    backends: &[Backend],
    all: &[Proxy],
    name: &Word,
    line: u32,
    groups: &[Seq<Term>],
) -> Option<PlanFault>
    ensures { result ≡ least (flat_map (group_faults tables.now backends.now all.now name.now line) groups.now) }
{
    let mut found = None;
    for group in groups {
        let fault = group_fault(tables, backends, all, name, line, group.as_slice());
        found = earliest(found, fault);
    }
    found
}

/// The first fault of the condition of a line, in the frontend of that name.
pub fn when_fault(
    tables: &[Table],
    backends: &[Backend],
    all: &[Proxy],
    name: &Word,
    line: u32,
    when: &When,
) -> Option<PlanFault>
    ensures { result ≡ least (when_faults tables.now backends.now all.now name.now line when.now) }
{
    match when {
        When::Always => None,
        When::If(condition) | When::Unless(condition) => {
            condition_fault(
                tables,
                backends,
                all,
                name,
                line,
                condition.groups.as_slice(),
            )
        }
    }
}
