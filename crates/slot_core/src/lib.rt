//! How many connections are open to each server, by the identity of the server, and to each backend, by its name.
#![tactic(auto)]

pub use places::NamedPlaces;
pub use proxy_types::ServerIdentity;
pub use slots::{Count, Slot, SlotIx, Slots};

mod places;
mod slots;
mod totals;
