//! The connections of one worker: what each waits for, what is due of it, and which of them are served next.
#![tactic(auto)]

pub use conn::{Conn, ConnStage, DueAction};
pub use queue::Queued;
pub use table::{ConnTable, HeaderWait};

mod conn;
mod queue;
mod table;
