//! The leases that are in hand, against the connections that are open.
ghost use Rattle.std.specs.Prelude.{◌≡◌, ◌≤◌, ◌+◌, reverse, vec_capacity, vec_len};
ghost use Rattle.conn_model.specs.Counts.{open_connections};
ghost use Rattle.desk_core.specs.Leased.{ids_of, leases_in};

use crate::desk::ClosedDesk;
use crate::lease::Lease;
use crate::lease_list::LeaseList;
use crate::naming::Opening;
use conn_model::event::ConnId;
use std::sync::ledger;
use std::sync::ledger::{Ledger, Share};

/// Merges the units of the leases into one share, and sets their connections aside, the last first.
fn set_aside<O: Ledger>(leases: &mut Vec<Lease<O>>, ids: &mut Vec<ConnId>, units: &mut Share<O>)
    requires empty { vec_len ids.old ≡ 0 }
    requires room { vec_len leases.old ≤ vec_capacity ids.old }
    ensures empty { vec_len leases.new ≡ 0 }
    ensures ids { ids.new.items ≡ reverse (ids_of leases.old.items) }
    ensures len { vec_len ids.new ≡ vec_len leases.old }
    ensures capacity { (vec_capacity leases.new ≡ vec_capacity leases.old) × (vec_capacity ids.new ≡ vec_capacity ids.old) }
    ensures parts { units.new.parts ≡ units.old.parts + vec_len leases.old }
    ensures amount { units.new.amount ≡ units.old.amount + vec_len leases.old }
{
    while let Some(lease) = leases.pop() {
        ids.push_reserved(lease.id);
        units.merge(lease.into_unit());
    }
}

/// Gives each connection that was set aside its unit back, the last first.
fn take_back<O: Ledger>(leases: &mut Vec<Lease<O>>, ids: &mut Vec<ConnId>, units: &mut Share<O>)
    requires empty { vec_len leases.old ≡ 0 }
    requires room { vec_len ids.old ≤ vec_capacity leases.old }
    requires backed { units.old.amount ≤ units.old.parts }
    requires enough { vec_len ids.old ≤ units.old.amount }
    ensures empty { vec_len ids.new ≡ 0 }
    ensures ids { ids_of leases.new.items ≡ reverse ids.old.items }
    ensures len { vec_len leases.new ≡ vec_len ids.old }
    ensures capacity { (vec_capacity leases.new ≡ vec_capacity leases.old) × (vec_capacity ids.new ≡ vec_capacity ids.old) }
    ensures parts { units.new.parts + vec_len ids.old ≡ units.old.parts }
    ensures amount { units.new.amount + vec_len ids.old ≡ units.old.amount }
{
    while let Some(id) = ids.pop() {
        let unit = units.split_off(1, 1);
        leases.push_reserved(Lease {
            id,
            unit,
            settings: None,
        });
    }
}

/// Merges the units of all lists, and then gives each lease its own back: in between they are one share, which is at
/// most the total.
fn bound<O: Ledger>(book: &mut ledger::Book<O>, units: &mut Share<O>, left: &mut Vec<LeaseList<O>>)
    requires { units.old.amount ≤ units.old.parts }
    ensures items { left.new.items ≡ left.old.items }
    ensures capacity { vec_capacity left.new ≡ vec_capacity left.old }
    ensures total { book.new.total ≡ book.old.total }
    ensures parts { units.new.parts ≡ units.old.parts }
    ensures amount { units.new.amount ≡ units.old.amount }
    ensures bound { units.old.amount + leases_in left.old.items ≤ book.old.total }
{
    let Some(list) = left.pop() else {
        book.audit(units);
        return;
    };
    let LeaseList {
        mut leases,
        mut ids,
    } = list;
    set_aside(&mut leases, &mut ids, units);
    bound(book, units, left);
    take_back(&mut leases, &mut ids, units);
    left.push_reserved(LeaseList { leases, ids });
}

impl<M: Ledger, O: Ledger, B: Opening> ClosedDesk<M, O, B> {
    /// How many connections are open. The leases that are in hand are no more. Nothing is spent, and no memory is taken;
    /// it goes one call deeper for each list, so let the lists be few.
    pub fn count_open(&mut self, left: &mut Vec<LeaseList<O>>) -> u64
        ensures open { result ≡ open_connections self.old.book.state }
        ensures bound { leases_in left.old.items ≤ result }
        ensures left { left.new.items ≡ left.old.items }
        ensures same { (self.new.book ≡ self.old.book) × (self.new.given ≡ self.old.given) }
    {
        let ClosedDesk {
            book: _,
            made: _,
            leases,
            idle,
            live,
            given: _,
            pool: _,
            of: _,
        } = self;
        bound(leases, idle, left);
        *live
    }
}
