//! What the lines of a frontend or backend say of each matter.
ghost use Rattle.std.specs.Prelude.{◌≡◌, IfOk};
ghost use Rattle.plan_core.specs.Fields.{line_bind, line_limit, line_default, line_method, line_timeout, line_retries, line_redispatch, line_table, line_server, check_with, all_of, last_of, setting_in, limit_in, method_in, timeout_in, redispatch_with, redispatch_in, default_retries, retries_in};

use crate::proxies::Proxy;
use conf_tree::{ConfigLine, ServerWords, Statement, TableWords, TimeoutKind};
use list_core::Seq;
use plan_types::{Bind, Check, Redispatch, Server};
use proxy_types::Method;
use std::alloc::{AllocError, Global};
use text_core::Word;

/// How many connections may be open in a frontend that has no `maxconn` line.
pub const DEFAULT_CONNECTIONS: u64 = 2_000;

/// How much time is between two checks of a server that has no `inter`, in ms.
pub const DEFAULT_INTERVAL: u64 = 2_000;

/// How many checks in a row fail until a server that has no `fall` is down.
pub const DEFAULT_FALL: u64 = 3;

/// How many checks in a row succeed until a server that has no `rise` is up again.
pub const DEFAULT_RISE: u64 = 2;

/// How often a server is dialled again where `option redispatch` is on and there is no `retries` line.
pub const DEFAULT_RETRIES: u64 = 3;

/// A name, and the line that has it.
#[derive(Drop)]
pub struct Named<'a> {
    pub name: Word<'a>,
    pub line: u32,
}

/// How many connections may be open, and the line that says so.
#[derive(Clone, Copy)]
pub struct Limit {
    pub limit: u64,
    pub line: u32,
}

fn line_bind(item: &ConfigLine) -> Option<Bind>
    ensures { result ≡ line_bind item.now.line item.now.statement }
{
    match &item.statement {
        Statement::Bind(at, proxy) => Some(Bind {
            at: *at,
            accept_proxy: *proxy,
        }),
        _ => None,
    }
}

fn line_limit(item: &ConfigLine) -> Option<Limit>
    ensures { result ≡ line_limit item.now.line item.now.statement }
{
    match &item.statement {
        Statement::MaxConn(limit) => Some(Limit {
            limit: *limit,
            line: item.line,
        }),
        _ => None,
    }
}

fn line_default<'a>(item: &ConfigLine<'a>) -> Option<Named<'a>>
    ensures { result ≡ line_default item.now.line item.now.statement }
{
    match &item.statement {
        Statement::DefaultBackend(name) => Some(Named {
            name: name.again(),
            line: item.line,
        }),
        _ => None,
    }
}

fn line_method(item: &ConfigLine) -> Option<Method>
    ensures { result ≡ line_method item.now.line item.now.statement }
{
    match &item.statement {
        Statement::Balance(method) => Some(*method),
        _ => None,
    }
}

fn line_timeout(kind: TimeoutKind, item: &ConfigLine) -> Option<u64>
    ensures { result ≡ line_timeout kind item.now.line item.now.statement }
{
    match &item.statement {
        Statement::Timeout(of, ms) => match (of, kind) {
            (TimeoutKind::Connect, TimeoutKind::Connect)
            | (TimeoutKind::Client, TimeoutKind::Client)
            | (TimeoutKind::Server, TimeoutKind::Server) => Some(*ms),
            _ => None,
        },
        _ => None,
    }
}

fn line_retries(item: &ConfigLine) -> Option<u64>
    ensures { result ≡ line_retries item.now.line item.now.statement }
{
    match &item.statement {
        Statement::Retries(count) => Some(*count),
        _ => None,
    }
}

fn line_redispatch(item: &ConfigLine) -> Option<Option<u64>>
    ensures { result ≡ line_redispatch item.now.line item.now.statement }
{
    match &item.statement {
        Statement::Redispatch(every) => Some(*every),
        _ => None,
    }
}

fn line_table(item: &ConfigLine) -> Option<TableWords>
    ensures { result ≡ line_table item.now.line item.now.statement }
{
    match &item.statement {
        Statement::StickTable(table) => Some(*table),
        _ => None,
    }
}

/// How a server is checked, if it is.
fn check_with(server: &ServerWords) -> Option<Check>
    ensures { result ≡ check_with server.now }
{
    if !server.check {
        return None;
    }
    Some(Check {
        inter: server.inter.unwrap_or(DEFAULT_INTERVAL),
        fall: server.fall.unwrap_or(DEFAULT_FALL),
        rise: server.rise.unwrap_or(DEFAULT_RISE),
    })
}

fn line_server(alloc: Global, item: &ConfigLine) -> Result<Option<Server>, AllocError>
    ensures { IfOk result (λ server. server ≡ line_server item.now.line item.now.statement) }
{
    match &item.statement {
        Statement::Server(server) => Ok(Some(Server {
            name: Seq::of(server.name.bytes().to_vec(alloc)?),
            line: item.line,
            to: server.to,
            weight: server.weight.unwrap_or(1),
            limit: server.limit.unwrap_or(0),
            disabled: server.disabled,
            send_proxy: server.send_proxy,
            send_proxy_v2: server.send_proxy_v2,
            check: check_with(server),
        })),
        _ => Ok(None),
    }
}

/// The last `bind` line.
pub fn last_bind(items: &[ConfigLine]) -> Option<Bind>
    ensures { result ≡ last_of line_bind items.now }
{
    let mut last = None;
    for item in items {
        last = line_bind(item).or(last);
    }
    last
}

fn last_limit(items: &[ConfigLine]) -> Option<Limit>
    ensures { result ≡ last_of line_limit items.now }
{
    let mut last = None;
    for item in items {
        last = line_limit(item).or(last);
    }
    last
}

fn last_default<'a>(items: &[ConfigLine<'a>]) -> Option<Named<'a>>
    ensures { result ≡ last_of line_default items.now }
{
    let mut last = None;
    for item in items {
        last = line_default(item).or(last);
    }
    last
}

fn last_method(items: &[ConfigLine]) -> Option<Method>
    ensures { result ≡ last_of line_method items.now }
{
    let mut last = None;
    for item in items {
        last = line_method(item).or(last);
    }
    last
}

fn last_timeout(kind: TimeoutKind, items: &[ConfigLine]) -> Option<u64>
    ensures { result ≡ last_of (line_timeout kind) items.now }
{
    let mut last = None;
    for item in items {
        last = line_timeout(kind, item).or(last);
    }
    last
}

fn last_retries(items: &[ConfigLine]) -> Option<u64>
    ensures { result ≡ last_of line_retries items.now }
{
    let mut last = None;
    for item in items {
        last = line_retries(item).or(last);
    }
    last
}

fn last_redispatch(items: &[ConfigLine]) -> Option<Option<u64>>
    ensures { result ≡ last_of line_redispatch items.now }
{
    let mut last = None;
    for item in items {
        last = line_redispatch(item).or(last);
    }
    last
}

/// The `stick-table` line of a section.
pub fn last_table(items: &[ConfigLine]) -> Option<TableWords>
    ensures { result ≡ last_of line_table items.now }
{
    let mut last = None;
    for item in items {
        last = line_table(item).or(last);
    }
    last
}

/// The limit of a frontend.
pub fn limit_in(proxy: &Proxy) -> Limit
    ensures { result ≡ limit_in proxy.now }
{
    match last_limit(proxy.own.items()).or(last_limit(proxy.base.items())) {
        Some(limit) => limit,
        None => Limit {
            limit: DEFAULT_CONNECTIONS,
            line: proxy.head.line,
        },
    }
}

/// The `default_backend` of a frontend.
pub fn default_in<'a>(proxy: &Proxy<'a>) -> Option<Named<'a>>
    ensures { result ≡ setting_in line_default proxy.now }
{
    last_default(proxy.own.items()).or(last_default(proxy.base.items()))
}

/// How a backend chooses among its servers.
pub fn method_in(proxy: &Proxy) -> Method
    ensures { result ≡ method_in proxy.now }
{
    match last_method(proxy.own.items()).or(last_method(proxy.base.items())) {
        Some(method) => method,
        None => Method::RoundRobin,
    }
}

/// A time of a frontend or a backend, in ms, 0 for no bound.
pub fn timeout_in(kind: TimeoutKind, proxy: &Proxy) -> u64
    ensures { result ≡ timeout_in kind proxy.now }
{
    last_timeout(kind, proxy.own.items())
        .or(last_timeout(kind, proxy.base.items()))
        .unwrap_or(0)
}

/// The last of the times where the line gives no number.
fn redispatch_with(every: Option<u64>) -> Redispatch
    ensures { result ≡ redispatch_with every }
{
    match every {
        None => Redispatch::Last,
        Some(0) => Redispatch::Never,
        Some(every) => Redispatch::Every(every),
    }
}

/// Which of the times that a server of a backend is dialled again go to another server.
pub fn redispatch_in(proxy: &Proxy) -> Redispatch
    ensures { result ≡ redispatch_in proxy.now }
{
    match last_redispatch(proxy.own.items()).or(last_redispatch(proxy.base.items())) {
        Some(every) => redispatch_with(every),
        None => Redispatch::Never,
    }
}

/// How often a server is dialled again where nothing is given.
fn default_retries(redispatch: Redispatch) -> u64
    ensures { result ≡ default_retries redispatch }
{
    match redispatch {
        Redispatch::Never => 0,
        Redispatch::Last | Redispatch::Every(_) => DEFAULT_RETRIES,
    }
}

/// How often a server of a backend may be dialled again.
pub fn retries_in(proxy: &Proxy) -> u64
    ensures { result ≡ retries_in proxy.now }
{
    last_retries(proxy.own.items())
        .or(last_retries(proxy.base.items()))
        .unwrap_or(default_retries(redispatch_in(proxy)))
}

pub fn binds_in(alloc: Global, items: &[ConfigLine]) -> Result<Seq<Bind>, AllocError>
    ensures { IfOk result (λ binds. binds ≡ all_of line_bind items.now) }
{
    let mut binds = Seq::new(alloc);
    for item in items {
        if let Some(bind) = line_bind(item) {
            binds.push(bind)?;
        }
    }
    Ok(binds)
}

pub fn servers_in(alloc: Global, items: &[ConfigLine]) -> Result<Seq<Server>, AllocError>
    ensures { IfOk result (λ servers. servers ≡ all_of line_server items.now) }
{
    let mut servers = Seq::new(alloc);
    for item in items {
        if let Some(server) = line_server(alloc, item)? {
            servers.push(server)?;
        }
    }
    Ok(servers)
}
