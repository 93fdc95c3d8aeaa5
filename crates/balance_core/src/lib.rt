//! Which server of a backend is offered (HAProxy manual, `balance`).
#![tactic(auto)]

pub use cycle::Cycle;
pub use least::pick_least;
pub use load::{Load, ServerLoad};
pub use proxy_types::{Method, Place};
pub use round::{Placed, pick_round};
pub use source::pick_source;

mod cycle;
pub mod laws;
mod least;
mod load;
mod round;
mod settle;
mod source;
mod spread;
#[cfg(test)]
mod tests;
