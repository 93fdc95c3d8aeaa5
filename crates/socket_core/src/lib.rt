//! The sockets of a crew: listeners, connections to servers, the commands of an operator, and the listener that is asked for
//! its state.
//!
//! No other crate opens a socket. What is decided about a connection is not decided here.
#![tactic(auto)]

pub use alarm::Alarm;
pub use check_plan::CheckPlan;
pub use checker::Checker;
pub use clock::SystemClock;
pub use commands::{Command, CommandSender};
pub use dial::SocketDial;
pub use dials::{SetupFault, make_dials};
pub use door::SocketDoor;
pub use door_plan::DoorPlan;
pub use link::{Socket, SocketLink};
pub use listeners::{ListenFault, Listeners, listen};
pub use pace::Pace;
pub use stats::StatsListener;
pub use status_line::StatusAsker;

mod addresses;
mod alarm;
mod check_plan;
mod checker;
mod checks;
mod clock;
mod commands;
mod dial;
mod dials;
mod door;
mod door_plan;
mod fd_budget;
mod link;
mod listener_share;
mod listeners;
mod pace;
mod ports;
mod probe;
mod ready_listeners;
mod stats;
mod status_line;
mod trend;

use mio::Token;

/// The token of a waker. No listener and no key of a connection has it.
const WAKE: Token = Token(usize::MAX);
