//! The tests, and what they share.
mod addr;
mod endpoints;
mod header;
mod nets;
mod pairs;
mod refused;
mod text;
