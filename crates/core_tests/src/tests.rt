//! The tests, and what they share.
mod printed;
mod states;
mod steps;
