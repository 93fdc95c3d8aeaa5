//! Open connections of servers.
ghost use Rattle.std.specs.Prelude.{◌≡◌, ◌+◌, ◌<◌, ℕ, IfSome};
ghost use Rattle.std.specs.Option.{option_map_or};
ghost use Rattle.slot_core.specs.Counts.{identity_at, open_at, slots_at};
ghost use Rattle.conn_versions.specs.Judged.{judged_of};

use conn_versions::{Slot, Versions};

/// Counts one open connection of a server less, if there is a slot.
pub fn give_back(kept: &mut Versions, slot: Option<Slot>)
    requires { IfSome slot (λ slot. 0 < open_at slot.place kept.old.counts) }
    ensures versions { kept.new.versions ≡ kept.old.versions }
    ensures open { (place : ℕ) → open_at place kept.new.counts + option_map_or (slots_at place) slot 0 ≡ open_at place kept.old.counts }
    ensures identities { (place : ℕ) → identity_at place kept.new.counts ≡ identity_at place kept.old.counts }
    ensures judged { (number : ℕ) → judged_of kept.new number ≡ judged_of kept.old number }
{
    match slot {
        Some(slot) => kept.give_back(slot),
        None => {}
    }
}
