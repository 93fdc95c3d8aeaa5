//! A configuration of HAProxy's, written again for `l4proxy`, with what is left out as comments.
#![tactic(auto)]

pub use carrying::{CarriedConfig, carry_over};

mod carrying;
mod drafting;
mod item;
mod plain;
mod servers;
mod settling;
mod source;
mod writing;
