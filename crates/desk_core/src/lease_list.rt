//! Leases that were not spent.
ghost use Rattle.std.specs.Prelude.{◌≡◌, ◌≤◌, ◌<◌, ◌+◌, ◌++◌, ◌∷◌, ◌↔◌, [], length, vec_len, IsTrue, OnOk};
ghost use Rattle.desk_core.specs.Leased.{ids_of};

use crate::lease::Lease;
use conn_model::event::ConnId;
use std::alloc::{AllocError, Global};
use std::marker::Model;
use std::sync::ledger::Ledger;

/// Leases in the order in which they were pushed. There is room to set the connections of all of them aside.
pub struct LeaseList<O: Ledger> {
    pub(crate) leases: Vec<Lease<O>>,
    pub(crate) ids: Vec<ConnId>,
}

impl<O: Ledger> Model for LeaseList<O> {
    ghost use Rattle.std.specs.Prelude.{◌≡◌, ◌≤◌, [], min, vec_capacity, vec_len};
    ghost use Rattle.desk_core.specs.Leased.{ids_of, Leased};

    ghost Value = { Leased };

    ghost view = { λ l. record { ids = ids_of l.leases.items; room = min (vec_capacity l.leases) (vec_capacity l.ids) } };

    ghost invariant = { λ l. (l.ids.items ≡ []) × (vec_len l.leases ≤ vec_capacity l.ids) };
}

impl<O: Ledger> LeaseList<O> {
    /// No lease, and no room.
    pub fn new(alloc: Global) -> LeaseList<O>
        ensures { result.ids ≡ [] }
    {
        LeaseList {
            leases: Vec::new(alloc),
            ids: Vec::new(alloc),
        }
    }

    /// How many leases it holds.
    pub fn len(&self) -> usize
        ensures { result ≡ length self.now.ids }
    {
        self.leases.len()
    }

    pub fn is_empty(&self) -> bool
        ensures { IsTrue result ↔ (self.now.ids ≡ []) }
    {
        self.leases.is_empty()
    }

    /// Makes room for so many leases more.
    pub fn reserve(&mut self, additional: usize) -> Result<(), AllocError>
        ensures ids { self.new.ids ≡ self.old.ids }
        ensures room { self.old.room ≤ self.new.room }
        ensures ok { OnOk result (length self.new.ids + additional ≤ self.new.room) }
    {
        self.leases.reserve(additional)?;
        self.ids.reserve(self.leases.len() + additional)
    }

    /// Adds a lease, for which there is room.
    pub fn push_reserved(&mut self, lease: Lease<O>)
        requires { length self.old.ids < self.old.room }
        ensures ids { self.new.ids ≡ self.old.ids ++ lease.id ∷ [] }
        ensures room { self.new.room ≡ self.old.room }
    {
        self.leases.push_reserved(lease);
    }

    /// The leases alone.
    pub fn into_leases(self) -> Vec<Lease<O>>
        ensures ids { ids_of result.items ≡ self.ids }
        ensures len { vec_len result ≡ length self.ids }
    {
        let LeaseList { leases, ids: _ } = self;
        leases
    }
}
