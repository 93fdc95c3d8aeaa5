//! The tests, and what they share.
mod door;
mod faults;
mod link;
mod outcome;
mod play;
mod reloads;
mod segments;
mod shelf;
mod silence;
mod stage;
mod stops;
mod workers;
