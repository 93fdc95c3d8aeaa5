//! How parts of a core are printed with `{:?}`: by the fields that say what they are, as `derive(Debug)` prints them.
use addr_core::{Addr, Endpoint};
use balance_core::Cycle;
use config_core::read_plan;
use conn_versions::Versions;
use list_core::Seq;
use proxy_types::{KeyType, ServerIdentity, Stores};
use slot_core::Slots;
use std::alloc::{AllocError, Global};
use std::string::String;
use stick_core::StickTable;

/// Whether it was printed, as that text.
fn is_text(printed: Result<String, AllocError>, text: &str) -> bool {
    match printed {
        Ok(printed) => printed.as_str() == text,
        Err(_) => false,
    }
}

/// A cycle of two servers, one of which has two turns.
fn printed_cycle(alloc: Global) -> Result<String, AllocError> {
    let cycle = Cycle::of(alloc, &[1, 2])?;
    format!(in alloc; "{cycle:?}")
}

#[test]
fn cycle_is_printed(rt: HostRuntime) {
    let wanted = "Cycle { places: [Place { server: 1, turn: 0 }, Place { server: 0, turn: 0 }, \
                  Place { server: 1, turn: 1 }] }";
    assert!(rt; is_text(printed_cycle(rt.alloc()), wanted));
}

/// The counts of one server, and which of them are named.
fn printed_slots(alloc: Global) -> Result<String, AllocError> {
    let mut slots = Slots::new(alloc);
    let mut named = slots.none_named(alloc)?;
    let identity = ServerIdentity {
        backend: Seq::duplicate_of(alloc, b"b")?,
        name: Seq::duplicate_of(alloc, b"s")?,
        to: Endpoint {
            addr: Addr::V4(1),
            port: 80,
        },
    };
    slots.add(&identity, &mut named)?;
    format!(in alloc; "{named:?} {slots:?}")
}

#[test]
fn counts_of_servers_are_printed(rt: HostRuntime) {
    let wanted = "NamedPlaces { named: [true], next: 0 } \
                  Slots { alloc: Global, counts: [Count { identity: ServerIdentity { \
                  backend: Seq { items: [98] }, name: Seq { items: [115] }, \
                  to: Endpoint { addr: V4(1), port: 80 } }, connections: 0 }], backends: [0], \
                  totals: [BackendTotal { name: Seq { items: [98] }, connections: 0, servers: 1 }] }";
    assert!(rt; is_text(printed_slots(rt.alloc()), wanted));
}

/// A table in which one address is tracked.
fn printed_table(alloc: Global) -> Result<String, AllocError> {
    let stores = Stores {
        cur: true,
        cnt: false,
    };
    let mut table = StickTable::new(alloc, KeyType::Ip, 2, stores, 30_000);
    let tracked = table.track(&Addr::V4(7), 5)?;
    let text = format!(in alloc; "{table:?}");
    if let Some(token) = tracked {
        table.release(token, 6);
    }
    text
}

#[test]
fn table_is_printed(rt: HostRuntime) {
    let wanted = "StickTable { kind: Ip, size: 2, stores: Stores { cur: true, cnt: false }, \
                  expire: 30000, clock: 5, \
                  touched: TouchList { index: {V4(7): Counts { cur: 1, cnt: 1, last_touch: 5 }}, \
                  touched: Order { ends: Link { before: 0, after: 0 }, \
                  links: [Link { before: 4294967295, after: 4294967295 }] }, \
                  free: Order { ends: Link { before: 4294967295, after: 4294967295 }, \
                  links: [Link { before: 4294967295, after: 4294967295 }] } } }";
    assert!(rt; is_text(printed_table(rt.alloc()), wanted));
}

const EXAMPLE: &str =
    "frontend f\nbind 127.0.0.1:9000\ndefault_backend b\nbackend b\nserver s 10.0.0.20:80\n";

/// The one version of a configuration.
fn printed_versions(alloc: Global) -> Option<String> {
    let plan = read_plan(alloc, EXAMPLE).ok()?;
    let versions = Versions::new(alloc, plan).ok()?;
    format!(in alloc; "{versions:?}").ok()
}

#[test]
fn versions_are_printed(rt: HostRuntime) {
    let is_right = match printed_versions(rt.alloc()) {
        Some(text) => {
            let text = text.as_str();
            text.starts_with(
                "Versions { alloc: Global, versions: [Version { number: 1, plan: Plan { ",
            ) && text.contains(" }], picks: [VersionPicks { backends: [BackendPicks { slots: ")
                && text.contains("connections: 0 }], slots: Slots { alloc: Global, ")
        }
        None => false,
    };
    assert!(rt; is_right);
}
