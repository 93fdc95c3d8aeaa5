//! A book that many threads share, so that all of them make one history.
#![tactic(auto)]

pub use desk::{CALL_PARTS, ClosedDesk, Desk, SharedDesk};
pub use lease::{Drive, DriveResult, Lease};
pub use lease_list::LeaseList;
pub use naming::{AnyOpening, Opening};
pub use pass::Pass;
pub use receipts::SettleFault;
pub use settling::{Settled, settle};

mod bounding;
mod counted;
mod desk;
mod desk_state;
pub mod laws;
mod lease;
mod lease_list;
mod naming;
mod pass;
mod receipts;
mod records;
mod recounting;
mod same;
mod settling;
