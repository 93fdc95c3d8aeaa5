//! The open connections of all frontends, with what they track, and the versions and tables that are kept.
#![tactic(auto)]

pub use conn_versions::{item, line_place};
pub use frontend::HeaderStatus;
pub use row::{PendingOffer, RowSummary, ServerChoice, ServerNames};
pub use rows::{FrontendSummary, Rows, RowsState};
pub use settings::{frontend_named, frontend_near};

mod counts;
mod down;
mod frontend;
pub mod laws;
mod opening;
mod packed;
mod reload;
mod row;
mod row_list;
mod rows;
mod settings;
mod slots;
