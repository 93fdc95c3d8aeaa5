//! The text of events and replies: the lines of a script as they are read, and the lines of its answers as they are
//! written.
#![tactic(auto)]

pub use events::write_event;
pub use reload::{PendingReload, read_bar};
pub use replies::{
    write_cause, write_counts, write_endpoint, write_fault, write_id, write_reply,
    write_reply_text, write_why,
};
pub use script::{EventRequest, FirstLine, Request, read_event, read_request};

mod digits;
mod events;
mod fronts;
mod reload;
mod replies;
mod script;
mod short;
