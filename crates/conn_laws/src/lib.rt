//! Why a connection is offered a server, and why it is refused: laws of the definitions, over whole histories.
#![tactic(auto)]

pub mod laws;
