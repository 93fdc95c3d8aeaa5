//! A crew of threads at one desk: an acceptor, and workers that judge, dial and relay.
#![tactic(auto)]

pub use crew::{Crew, CrewFault, Setup, Summary, run_crew};
pub use engine::{Served, open_book, serve};
pub use link_core::{Backlog, Clock, Dial, Dialled, Door, DoorEvent, Gate, Link, Ready};
pub use outlet::{Outlet, RING, Sink, SinkFault};

mod acceptor;
mod calls;
mod crew;
mod engine;
mod leases;
mod meters;
mod outlet;
mod record_sink;
mod recorder;
mod serving;
mod worker;
