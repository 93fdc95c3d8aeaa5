//! The tests, and what they share.
mod audits;
mod check;
mod devices;
mod pipes;
mod records;
mod reloads;
mod replay;
mod runs;
mod writing;
