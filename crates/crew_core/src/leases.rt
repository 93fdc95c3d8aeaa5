//! The leases of one worker, by the keys of its connections.
ghost use Rattle.std.specs.Prelude.{◌≡◌, ◌+◌, ◌≤◌, IfSome, IsTrue, length, vec_len};
ghost use Rattle.crew_core.specs.Leases.{IsVacant};

use conn_model::settings::Settings;
use desk_core::{Lease, LeaseList};
use std::alloc::{AllocError, Global};
use std::sync::ledger::Ledger;

/// The leases of one worker. None of them can be lost: what is not spent comes back by `into_left`, for which there is room at any
/// time.
pub(crate) struct Leases<O: Ledger> {
    slots: Vec<Option<Lease<O>>>,
    left: LeaseList<O>,
    pub ghost room: { length left.ids + vec_len slots ≤ left.room },
}

impl<O: Ledger> Leases<O> {
    pub(crate) fn new(alloc: Global) -> Leases<O> {
        Leases {
            slots: Vec::new(alloc),
            left: LeaseList::new(alloc),
        }
    }

    /// How many keys there is room for.
    pub(crate) fn len(&self) -> usize {
        self.slots.len()
    }

    /// One key more.
    fn grow(&mut self) -> Result<(), AllocError> {
        let Leases { slots, left } = self;
        left.reserve(slots.len() + 1)?;
        slots.reserve(1)?;
        slots.push_reserved(None);
        Ok(())
    }

    /// Makes room for the lease of a key that has none; whether there is room.
    pub(crate) fn make_room(&mut self, key: usize) -> bool
        ensures { IsTrue result → IsVacant self.new.slots.items key }
    {
        if key == self.slots.len() && self.grow().is_err() {
            return false;
        }
        matches!(self.slots.get(key), Some(None))
    }

    /// Keeps the lease of a key that has none.
    pub(crate) fn put(&mut self, key: usize, lease: Lease<O>)
        requires { IsVacant self.old.slots.items key }
    {
        match self.slots.get_mut(key) {
            Some(slot) => match slot.replace(lease) {
                None => {}
                Some(_other) => unreachable!(),
            },
            None => unreachable!(),
        }
    }

    /// The lease of a key. There is room to put it back.
    pub(crate) fn take(&mut self, key: usize) -> Option<Lease<O>>
        ensures { IfSome result (λ lease. IsVacant self.new.slots.items key) }
    {
        self.slots.get_mut(key)?.take()
    }

    /// How the connection of a key is served, once it was offered a server.
    pub(crate) fn settings(&self, key: usize) -> Option<Settings> {
        self.slots.get(key)?.as_ref()?.settings()
    }

    /// The leases that were not spent.
    pub(crate) fn into_left(self) -> LeaseList<O> {
        let Leases { slots, left } = self;
        let (mut slots, mut left) = (slots, left);
        while let Some(slot) = slots.pop() {
            if let Some(lease) = slot {
                left.push_reserved(lease);
            }
        }
        slots.destroy_empty();
        left
    }
}
