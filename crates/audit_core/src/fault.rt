//! What a check of a record says.
use conn_core::OpenFault;
use std::error::Error;
use std::fmt;

/// How many lines a record has at most.
pub const MOST_RECORD_LINES: u64 = 1_000_000_000;

/// What was counted in a record that is right.
#[derive(Clone, Copy, Debug, PartialEq, Eq)]
pub struct Checked {
    /// How many answered events it has.
    pub records: u64,
    /// How many connections are open after them.
    pub live: u64,
}

/// What is wrong.
#[derive(Clone, Copy, Debug, PartialEq, Eq)]
pub enum CheckKind {
    /// The line is not the first one of the event with the next number; or it is not one of the text of a reload, or a
    /// reply, if one has to come; or such a line is missing there.
    Format,
    /// The line is not the reply to the event before it, or that event has none.
    WrongReply,
    NoMemory,
    /// The record cannot be read.
    Read,
    /// The line is longer than any that is read, or it is one too many.
    TooLong,
    /// The configuration is refused.
    Config(OpenFault),
}

/// Why a record is not right, or could not be checked.
#[derive(Clone, Copy, Debug, PartialEq, Eq)]
pub struct CheckFault {
    /// From 1; 0 if no line of the record is wrong.
    pub line: u64,
    pub kind: CheckKind,
}
