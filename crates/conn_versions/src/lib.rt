//! The versions of the configuration that are kept, what was last used of each backend, and the open connections of each
//! server.
#![tactic(auto)]

pub use barred::Barred;
pub use loads::item;
pub use slot_core::Slot;
pub use versions::{Versions, has_line, line_place};

mod barred;
mod loads;
mod opening;
mod picks;
mod versions;
