//! Texts as several readers read them: a word, a name, a text cut in two, and decimal numbers.
#![tactic(auto)]

pub use name::{is_name, is_same_name, place_of};
pub use parts::{cut, cut_at, cut_line};
pub use word::Word;

pub mod decimal;
mod name;
mod parts;
mod word;
