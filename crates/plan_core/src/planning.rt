//! The plan of a configuration.
ghost use Rattle.std.specs.Prelude.{◌≡◌, ◌⊎◌, ◌≤◌, [], length, map, IfOk, IfErr, Ok, Err};
ghost use Rattle.conf_tree.specs.Few.{FewSections};
ghost use Rattle.plan_core.specs.Compiled.{backend_of, backends_in, default_number, frontend_of, plan_faults, plan_of};
ghost use Rattle.plan_core.specs.Faults.{IsLeast, no_memory};
ghost use Rattle.plan_core.specs.Fields.{tables_in};
ghost use Rattle.plan_types.specs.Sound.{IsSoundPlan};
ghost use Rattle.plan_core.specs.Proxies.{frontends, backends};

use crate::acls::{acls_in, choices_in};
use crate::checking::{backend_number, fault_of};
use crate::fault::PlanFault;
use crate::fields::{
    Named, binds_in, default_in, limit_in, method_in, redispatch_in, retries_in, servers_in,
    timeout_in,
};
use crate::proxies::{Proxy, is_backend, is_frontend, proxies_in};
use crate::tables::{rules_in, tables_in};
use conf_tree::{Ruleset, TimeoutKind, Tree};
use list_core::Seq;
use plan_types::{Backend, Frontend, Plan, Table};
use std::alloc::{AllocError, Global};

/// A backend with its servers.
fn backend_of(alloc: Global, proxy: &Proxy) -> Result<Backend, AllocError>
    ensures { IfOk result (λ backend. backend ≡ backend_of proxy.now) }
{
    Ok(Backend {
        name: Seq::duplicate_of(alloc, proxy.head.name.bytes())?,
        line: proxy.head.line,
        method: method_in(proxy),
        connect_timeout: timeout_in(TimeoutKind::Connect, proxy),
        server_timeout: timeout_in(TimeoutKind::Server, proxy),
        retries: retries_in(proxy),
        redispatch: redispatch_in(proxy),
        servers: servers_in(alloc, proxy.own.items())?,
    })
}

fn backends_in(alloc: Global, all: &[Proxy]) -> Result<Seq<Backend>, AllocError>
    ensures value { IfOk result (λ list. list ≡ backends_in all.now) }
    ensures number { IfOk result (λ list. length list ≡ length (backends all.now)) }
{
    let mut list = Seq::new(alloc);
    for proxy in all {
        if is_backend(proxy) {
            list.push(backend_of(alloc, proxy)?)?;
        }
    }
    Ok(list)
}

/// The number of the backend that is named.
fn default_number(backends: &[Backend], setting: &Option<Named>) -> Option<u16>
    requires { length backends.now ≤ 65535 }
    ensures { result ≡ default_number backends.now setting.now }
{
    match setting {
        Some(named) => backend_number(backends, &named.name),
        None => None,
    }
}

/// A frontend with its lines.
fn frontend_of(
    alloc: Global,
    tables: &[Table],
    backends: &[Backend],
    proxy: &Proxy,
) -> Result<Frontend, AllocError>
    requires tables { length tables.now ≤ 65535 }
    requires backends { length backends.now ≤ 65535 }
    ensures { IfOk result (λ frontend. frontend ≡ frontend_of tables.now backends.now proxy.now) }
{
    let own = proxy.own.items();
    let name = &proxy.head.name;
    let limit = limit_in(proxy);
    Ok(Frontend {
        name: Seq::duplicate_of(alloc, name.bytes())?,
        line: proxy.head.line,
        binds: binds_in(alloc, own)?,
        limit: limit.limit,
        limit_line: limit.line,
        client_timeout: timeout_in(TimeoutKind::Client, proxy),
        connection_rules: rules_in(alloc, Ruleset::Connection, tables, name, own)?,
        session_rules: rules_in(alloc, Ruleset::Session, tables, name, own)?,
        acls: acls_in(alloc, own)?,
        choices: choices_in(alloc, backends, own)?,
        default: default_number(backends, &default_in(proxy)),
    })
}

fn frontends_in(
    alloc: Global,
    tables: &[Table],
    backends: &[Backend],
    proxies: &[Proxy],
) -> Result<Seq<Frontend>, AllocError>
    requires tables { length tables.now ≤ 65535 }
    requires backends { length backends.now ≤ 65535 }
    ensures value { IfOk result (λ list. list ≡ map (frontend_of tables.now backends.now) (frontends proxies.now)) }
    ensures number { IfOk result (λ list. length list ≡ length (frontends proxies.now)) }
{
    let mut list = Seq::new(alloc);
    for proxy in proxies {
        if is_frontend(proxy) {
            list.push(frontend_of(alloc, tables, backends, proxy)?)?;
        }
    }
    Ok(list)
}

/// The plan of a configuration whose lines are right. Otherwise the first of its faults: that of the first
/// faulty line, and on one line the first kind in the order of `PlanKind`. Without any frontend it is
/// `NoFrontend` on line 0. Want of memory is `NoMemory` on line 0.
pub fn compile(alloc: Global, tree: &Tree) -> Result<Plan, PlanFault>
    ensures ok { IfOk result (λ plan. plan_of tree.now ≡ Ok plan) }
    ensures fault { IfErr result (λ f. (f ≡ no_memory) ⊎ (plan_of tree.now ≡ Err f)) }
    // A fault is one of all that the plan has, and none comes before it.
    ensures least { IfErr result (λ f. (f ≡ no_memory) ⊎ IsLeast (plan_faults tree.now) f) }
    // A plan that is made has no fault at all.
    ensures whole { IfOk result (λ _. plan_faults tree.now ≡ []) }
    // What a plan that is made keeps.
    ensures sound { IfOk result IsSoundPlan }
{
    let proxies = proxies_in(alloc, tree.items())?;
    let all = proxies.as_slice();
    let tables = tables_in(alloc, all)?;
    let backends = backends_in(alloc, all)?;
    if let Some(fault) = fault_of(tables.as_slice(), backends.as_slice(), all) {
        return Err(fault);
    }
    let frontends = frontends_in(alloc, tables.as_slice(), backends.as_slice(), all)?;
    Ok(Plan {
        frontends,
        backends,
        tables,
    })
}
