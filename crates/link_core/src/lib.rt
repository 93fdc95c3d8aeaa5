//! Connections of bytes: what a crew works on, and how bytes go from one link to another.
#![tactic(auto)]

pub use flags::Flags;
pub use idle::{
    Side, Times, WaitedFor, first_end_of_both, is_overdue, overdue, retry_pause, time_begun,
    waited_for_by,
};
pub use spares::Spares;
pub use stream::{FLOW, Progress, pump};
pub use traits::{Backlog, Clock, Dial, Dialled, Door, DoorEvent, Gate, Link, Ready};

mod flags;
mod idle;
mod spares;
mod stream;
mod traits;
