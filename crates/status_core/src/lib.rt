//! The numbers by which an operator watches a running proxy: what is open, what was counted, and their text.
#![tactic(auto)]

pub use counts::{Closes, HeaderFaults, Reports, Sent};
pub use decisions::Decisions;
pub use metrics::{Process, write_metrics, write_status};
pub use outline::{
    BackendOutline, FrontendOutline, Outline, Question, ServerOutline, TableOutline,
};
pub use status::{CrewStatus, ProxyStatus, Records, Reloads, ServerHealth, Traffic};
pub use tally::Tally;

mod counter_text;
mod counts;
mod decisions;
mod line_counts;
mod metrics;
mod outline;
mod page;
mod section_text;
mod status;
mod tally;
