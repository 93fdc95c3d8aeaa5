//! What an operator asks for, on its way to the door.
use crate::door_plan::DoorPlan;
use mio::Waker;
use rtrb::{Producer, PushError};
use std::alloc::Global;
use std::sync::Arc;

/// How many commands may be on their way.
pub const MOST_COMMANDS: usize = 64;

/// What an operator asks for.
#[derive(Drop)]
pub enum Command {
    /// The configuration of that text is to come into force; what the door knows of it.
    Reload(String, DoorPlan),
    /// No connection is accepted any more, and those that are open are ended.
    Quit,
}

/// Hands commands to a door, which another thread uses. Where it is dropped, the door closes as by `Quit`.
#[derive(Drop)]
pub struct CommandSender {
    to_door: Producer<Command>,
    // The door keeps it too, since a wake is lost if its waker is dropped first.
    waker: Arc<Waker, Global>,
}

impl CommandSender {
    pub(crate) fn new(to_door: Producer<Command>, waker: Arc<Waker, Global>) -> CommandSender {
        CommandSender { to_door, waker }
    }

    /// Hands a command over and wakes the door. If `MOST_COMMANDS` are on their way it comes back.
    pub fn send(&mut self, command: Command) -> Result<(), Command> {
        let answer = match self.to_door.push(command) {
            Ok(()) => Ok(()),
            Err(PushError::Full(back)) => Err(back),
        };
        let _woken = self.waker.wake();
        answer
    }
}
