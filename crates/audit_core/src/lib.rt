//! Records: each answered event with its reply, as text. A record is checked by a core that answers its events again.
#![tactic(auto)]

pub use audit::{report, run_audit};
pub use auditor::{Auditor, answer, read_numbered};
pub use check::{check_record, open_auditor};
pub use fault::{CheckFault, CheckKind, Checked, MOST_RECORD_LINES};
pub use journal::Name;
pub use line::audit_line;
pub use printing::{again, check_again, reading_again, write_bytes};
pub use recording::{RECORD_BUFFER, RecordFault, write_journal, write_through};
pub use writing::write_record;

mod audit;
mod auditor;
mod check;
mod due;
mod fault;
mod journal;
pub mod laws;
mod line;
mod printing;
mod reading;
mod recording;
mod writing;
