//! What is said of a configuration that is refused.
#![tactic(auto)]

pub use further::{further_refusals, refusal};
pub use message::{LineVerdict, verdict_on};
pub use words::{Advice, Concern, WordPlace, advice_on, begins_section};

mod advice;
mod criteria;
mod further;
mod global_words;
mod line_words;
mod message;
mod names;
mod own_words;
mod place;
mod quote;
mod reason;
mod section_words;
mod words;
