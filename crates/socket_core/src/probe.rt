//! One check of a server: a connect, and what the system says of it.
use mio::net::TcpStream;
use std::io::ErrorKind;
use std::{fmt, io};

/// Why a check failed.
#[derive(Clone, Copy, Debug, PartialEq, Eq)]
pub enum CheckFailure {
    Refused,
    Unreachable,
    /// There was no answer until the next check.
    NoAnswer,
    Broken,
}

impl fmt::Display for CheckFailure {
    fn fmt<W: fmt::Write>(&self, f: &mut fmt::Formatter<W>) -> fmt::Result {
        f.write_str(match self {
            CheckFailure::Refused => "refused",
            CheckFailure::Unreachable => "unreachable",
            CheckFailure::NoAnswer => "no answer",
            CheckFailure::Broken => "the connection broke",
        })
    }
}

/// What an error of a connect says of the server. None where it says nothing of it: there was no descriptor, or no memory.
pub fn failure_of(error: &io::Error) -> Option<CheckFailure> {
    match error.kind() {
        ErrorKind::ConnectionRefused => Some(CheckFailure::Refused),
        ErrorKind::HostUnreachable | ErrorKind::NetworkUnreachable | ErrorKind::NetworkDown => {
            Some(CheckFailure::Unreachable)
        }
        ErrorKind::TimedOut => Some(CheckFailure::NoAnswer),
        ErrorKind::ConnectionReset | ErrorKind::ConnectionAborted | ErrorKind::BrokenPipe => {
            Some(CheckFailure::Broken)
        }
        _ => None,
    }
}

/// What a check says.
#[derive(Clone, Copy, Debug, PartialEq, Eq)]
pub enum CheckResult {
    Passed,
    Failed(CheckFailure),
    /// It is under way.
    Later,
    /// It could not be made, for a cause on this side.
    Unknown,
}

/// What a stream says that the system reported.
pub fn result_of(stream: &TcpStream) -> CheckResult {
    // In this order: the system tells an error once.
    match stream.take_error() {
        Ok(Some(error)) => match failure_of(&error) {
            Some(failure) => CheckResult::Failed(failure),
            None => CheckResult::Failed(CheckFailure::Broken),
        },
        Ok(None) => match stream.peer_addr() {
            Ok(_) => CheckResult::Passed,
            Err(_) => CheckResult::Later,
        },
        Err(_) => CheckResult::Unknown,
    }
}
