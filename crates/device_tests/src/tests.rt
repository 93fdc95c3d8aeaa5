//! The tests, and what they share.
mod burst;
mod device;
mod pair;
mod relay;
