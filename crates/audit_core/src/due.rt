//! What the next line of a record has to be.
ghost use Rattle.std.specs.Prelude.{◌≡◌};
ghost use Rattle.audit_core.specs.Awaited.{due_of};
ghost use Rattle.audit_core.specs.declared.due.Due.TheVariants as dues;

use addr_core::Endpoint;
use conn_model::reply::{Reply, StepFault};
use event_text::PendingReload;
use std::alloc::Global;

/// What the next line of a record has to be.
#[derive(Drop)]
pub enum Due {
    /// The first line of an event.
    Event,
    /// A line of the text of a reload.
    Text(PendingReload),
    /// The reply to the last event, which was answered so; with the peer of that event, if it is an accept.
    Reply(Option<Endpoint>, Result<Reply, StepFault>),
}

/// Which line comes next.
#[derive(Clone, Copy, Debug, PartialEq, Eq)]
pub enum NextLine {
    /// The first line of an event.
    Event,
    /// A line of the text of a reload.
    Text,
    /// The reply to the last event.
    Reply,
}

/// What the next line has to be, with a place for each part of it. A reply is long, so it stays in its place once
/// its line came, until the next one takes it.
#[derive(Drop)]
pub struct Awaited {
    pub next: NextLine,
    /// The text of a reload, of which lines are missing, if the next line is one of it.
    pub reload: PendingReload,
    /// The peer of the last event, if it is an accept.
    pub peer: Option<Endpoint>,
    /// The answer to the last event.
    pub answered: Result<Reply, StepFault>,
}

impl Awaited {
    /// The first line of an event.
    pub fn event(alloc: Global) -> Awaited
        ensures { due_of result ≡ dues.Event }
    {
        Awaited {
            next: NextLine::Event,
            reload: PendingReload::new(alloc, 0, 0),
            peer: None,
            answered: Err(StepFault::NoSuch),
        }
    }
}
