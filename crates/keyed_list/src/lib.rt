//! A list by rising keys, from which an item is taken out anywhere without moving the others.
#![tactic(auto)]

pub use iter::Iter;
pub use list::KeyedList;

mod iter;
mod list;
mod places;
