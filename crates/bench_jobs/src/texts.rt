//! Configurations of real shape.
ghost use Rattle.std.specs.Prelude.{◌<◌};

use crate::draw::{Draw, low};
use addr_core::{Addr, write_addr};
use std::alloc::{AllocError, Global};

/// How many tenants a hosting file has: one backend beside theirs is for all.
pub const TENANTS: u64 = 63;

/// How many frontends, backends, and servers of each backend the widest file has.
pub const WIDE: u64 = 64;

/// How many networks a line of a deny list has.
const NETWORKS_OF_A_LINE: u64 = 50;

/// The networks of a line with a deny list.
fn networks(alloc: Global, draw: &mut Draw, text: &mut String) -> Result<(), AllocError> {
    for _network in 0..NETWORKS_OF_A_LINE {
        let bits = draw.below(9).saturating_add(16);
        let address = write_addr(&Addr::V4(low(draw.number())));
        let word = format!(in alloc; " {}/{bits}", address.as_str())?;
        text.push_str(word.as_str())?;
    }
    text.push_str("\n")
}

/// The lines of a deny list, and the rule that turns its networks away.
fn deny_list(
    alloc: Global,
    draw: &mut Draw,
    lines: u64,
    text: &mut String,
) -> Result<(), AllocError> {
    for _line in 0..lines {
        text.push_str("    acl denied src")?;
        networks(alloc, draw, text)?;
    }
    if lines > 0 {
        text.push_str("    tcp-request connection reject if denied\n")?;
    }
    Ok(())
}

/// The lines that all sections share.
fn defaults(text: &mut String) -> Result<(), AllocError> {
    text.push_str(
        "# Tenants of one host.\ndefaults\n    mode tcp\n    log global\n    option tcplog\n",
    )?;
    text.push_str("    timeout connect 5s\n    timeout client 1m\n    timeout server 1m\n\n")
}

/// A tenant with a table, rules on counts and an overflow.
fn tenant(
    alloc: Global,
    draw: &mut Draw,
    number: u64,
    denied: u64,
    most: u64,
    text: &mut String,
) -> Result<(), AllocError> {
    let name = format!(in alloc; "customer-web-shop-{number}")?;
    let name = name.as_str();
    let port = number.saturating_add(8_000);
    let header = if number % 4 == 3 { " accept-proxy" } else { "" };
    let head = format!(in alloc;
        "frontend {name}\n    bind 192.0.2.10:{port}{header}\n    maxconn 20000\n    stick-table type ip size 64k store conn_cur,conn_cnt\n"
    )?;
    text.push_str(head.as_str())?;
    deny_list(alloc, draw, denied, text)?;
    let rules = format!(in alloc;
        "    acl busy be_conn({name}) gt 900\n    acl mine src 10.{number}.0.0/16 10.{number}.0.0/24\n    tcp-request connection accept if mine\n    tcp-request connection reject if {{ fe_conn gt 15000 }}\n    tcp-request session track-sc0 src\n    tcp-request session reject if {{ sc0_conn_cur gt {most} }}\n    use_backend overflow if busy\n    default_backend {name}\n\n"
    )?;
    text.push_str(rules.as_str())?;
    let balance = match number % 3 {
        0 => "leastconn",
        1 => "roundrobin",
        _ => "source",
    };
    let backend = format!(in alloc; "backend {name}\n    balance {balance}\n    retries 2\n")?;
    text.push_str(backend.as_str())?;
    servers(alloc, draw, number, 8, 16, text)
}

/// The servers of a backend.
fn servers(
    alloc: Global,
    draw: &mut Draw,
    backend: u64,
    count: u64,
    heaviest: u64,
    text: &mut String,
) -> Result<(), AllocError> {
    for server in 0..count {
        let weight = draw.number() % heaviest.max(1);
        let most = draw.below(4).saturating_add(1).saturating_mul(100);
        let send = if server % 2 == 0 {
            " send-proxy-v2"
        } else {
            ""
        };
        let line = format!(in alloc;
            "    server app-{server} 10.100.{backend}.{server}:8443 weight {} maxconn {most}{send}\n",
            weight.saturating_add(1)
        )?;
        text.push_str(line.as_str())?;
    }
    text.push_str("\n")
}

/// A file of many tenants: the first one has so many lines of a deny list, and a source may have so many connections.
pub fn tenants(alloc: Global, seed: u64, denied: u64, most: u64) -> Result<String, AllocError> {
    let mut draw = Draw::new(seed);
    let mut text = String::new(alloc);
    defaults(&mut text)?;
    for number in 0..TENANTS {
        let denied = if number == 0 { denied } else { 0 };
        tenant(alloc, &mut draw, number, denied, most, &mut text)?;
    }
    text.push_str("backend overflow\n    server page 10.200.0.1:8080 # says that it is busy\n")?;
    Ok(text)
}

/// A file of the widest shape: as many frontends and backends, with as many servers as the limits allow, and small tables,
/// which are soon full. The first frontend has so many lines of a deny list.
pub fn wide(alloc: Global, seed: u64, denied: u64) -> Result<String, AllocError> {
    let mut draw = Draw::new(seed);
    let mut text = String::new(alloc);
    defaults(&mut text)?;
    for number in 0..WIDE {
        let port = number.saturating_add(8_000);
        let head = format!(in alloc;
            "frontend entry-of-tenant-{number}\n    bind 192.0.2.10:{port}\n    maxconn 20000\n    stick-table type ip size 1k store conn_cur\n    tcp-request connection track-sc0 src\n    tcp-request connection reject if {{ sc0_conn_cur gt 50 }}\n"
        )?;
        text.push_str(head.as_str())?;
        deny_list(
            alloc,
            &mut draw,
            if number == 0 { denied } else { 0 },
            &mut text,
        )?;
        let balance = if number % 8 == 7 {
            "source"
        } else {
            "roundrobin"
        };
        let backend = format!(in alloc;
            "    default_backend servers-of-tenant-{number}\n\nbackend servers-of-tenant-{number}\n    balance {balance}\n"
        )?;
        text.push_str(backend.as_str())?;
        servers(alloc, &mut draw, number, WIDE, 256, &mut text)?;
    }
    Ok(text)
}

/// A small file, of which a reload changes the rules: the network and the weights.
pub fn small(alloc: Global, seed: u64) -> Result<String, AllocError> {
    let mut draw = Draw::new(seed);
    let mut text = String::new(alloc);
    defaults(&mut text)?;
    let barred = write_addr(&Addr::V4(low(draw.number())));
    let head = format!(in alloc;
        "frontend database\n    bind 192.0.2.10:5432\n    maxconn 20000\n    stick-table type ip size 16k store conn_cur\n    tcp-request connection reject if {{ src {}/16 }}\n    tcp-request connection track-sc0 src\n    default_backend database\n\nbackend database\n    balance leastconn\n",
        barred.as_str()
    )?;
    text.push_str(head.as_str())?;
    servers(alloc, &mut draw, 0, 8, 16, &mut text)?;
    Ok(text)
}
