//! Which servers of a configuration are checked.
use addr_core::Endpoint;
use conn_model::event::Health;
use list_core::Duplicate;
use plan_types::{Backend, Check, Plan, Server};
use proxy_types::ServerIdentity;
use std::alloc::{AllocError, Global};
use std::sync::Arc;
use std::sync::atomic::{AtomicBool, Ordering};

/// A server that is checked.
#[derive(Drop)]
pub struct CheckTarget {
    /// The number of its backend in the configuration.
    pub backend: u16,
    /// Its number in its backend.
    pub server: u16,
    pub identity: ServerIdentity,
    pub check: Check,
    /// Whether it is up, as the record has it. The door writes it, and the checker reads it.
    is_up: AtomicBool,
}

impl CheckTarget {
    /// Where it accepts connections.
    pub fn to(&self) -> Endpoint {
        self.identity.to
    }

    /// Whether it is up, as the record has it.
    pub fn is_up(&self) -> bool {
        self.is_up.load(Ordering::SeqCst)
    }

    /// The record has it so from now on.
    pub fn mark(&self, health: Health) {
        self.is_up.store(health == Health::Up, Ordering::SeqCst);
    }
}

/// The servers of a configuration that are checked.
pub type CheckList = Arc<Vec<CheckTarget>, Global>;

/// The servers of a configuration that are checked, and how many more each of its backends has.
#[derive(Drop)]
pub struct CheckPlan {
    pub checked: CheckList,
    /// How many servers of each backend may be used and are not checked, by its number.
    pub unchecked: Vec<u64>,
}

/// Whether a server may be used at all (HAProxy manual, `disabled`). One that may not is not checked.
fn is_used(server: &Server) -> bool {
    !server.disabled
}

/// The same servers, for more than one owner.
fn shared(alloc: Global, checked: Vec<CheckTarget>) -> Result<CheckList, AllocError> {
    Arc::new(alloc, checked).map_err(|_| AllocError)
}

impl CheckPlan {
    /// That of a configuration that is not known.
    pub fn none(alloc: Global) -> Result<CheckPlan, AllocError> {
        Ok(CheckPlan {
            checked: shared(alloc, Vec::new(alloc))?,
            unchecked: Vec::new(alloc),
        })
    }

    /// How many servers are checked.
    pub fn len(&self) -> usize {
        self.checked.len()
    }

    pub fn is_empty(&self) -> bool {
        self.checked.is_empty()
    }

    pub fn of(alloc: Global, plan: &Plan) -> Result<CheckPlan, AllocError> {
        let mut checked = Vec::new(alloc);
        let mut unchecked = Vec::new(alloc);
        for (number, backend) in plan.backends.as_slice().iter().enumerate() {
            let Ok(number) = u16::try_from(number) else {
                break;
            };
            unchecked.push(add_backend(alloc, &mut checked, number, backend)?)?;
        }
        Ok(CheckPlan {
            checked: shared(alloc, checked)?,
            unchecked,
        })
    }
}

/// Adds the servers of a backend that are checked; how many others may be used.
fn add_backend(
    alloc: Global,
    checked: &mut Vec<CheckTarget>,
    number: u16,
    backend: &Backend,
) -> Result<u64, AllocError> {
    let mut unchecked = 0u64;
    for (place, server) in backend.servers.as_slice().iter().enumerate() {
        if !is_used(server) {
            continue;
        }
        match (server.check, u16::try_from(place)) {
            (Some(check), Ok(place)) => checked.push(CheckTarget {
                backend: number,
                server: place,
                identity: identity_of(alloc, backend, server)?,
                check,
                is_up: AtomicBool::new(true),
            })?,
            _ => unchecked = unchecked.saturating_add(1),
        }
    }
    Ok(unchecked)
}

/// By what a server is known through all versions of the configuration.
fn identity_of(
    alloc: Global,
    backend: &Backend,
    server: &Server,
) -> Result<ServerIdentity, AllocError> {
    Ok(ServerIdentity {
        backend: backend.name.duplicate(alloc)?,
        name: server.name.duplicate(alloc)?,
        to: server.to,
    })
}
