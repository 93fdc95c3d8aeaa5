//! Why a command ends early.
ghost use Rattle.std.specs.Prelude.{◌≡◌};
ghost use Rattle.replay_core.specs.Status.{status_of};

use conn_core::OpenFault;
use thiserror::Error;

/// Why a replay ends early. Lines are counted from 1.
#[derive(Clone, Copy, Debug, Error)]
pub enum ReplayFault {
    /// The configuration is refused.
    #[error(transparent)]
    Config(OpenFault),
    /// The line hands in no event.
    #[error("line {0}: Format")]
    Format(u64),
    /// The line is longer than any that is read, or it is one too many.
    #[error("line {0}: TooLong")]
    TooLong(u64),
    #[error("cannot be read")]
    Read,
    #[error("cannot be written")]
    Write,
    #[error("no memory")]
    NoMemory,
}

impl ReplayFault {
    /// The exit status of a program that it ends.
    pub fn status(&self) -> u8
        ensures { result ≡ status_of self.now }
    {
        match self {
            ReplayFault::Config(_) | ReplayFault::Format(_) | ReplayFault::TooLong(_) => 1,
            ReplayFault::Read | ReplayFault::Write | ReplayFault::NoMemory => 3,
        }
    }
}

/// Why a command that prints what it finds ends early.
#[derive(Clone, Copy, Debug, Error)]
pub enum PrintFault {
    #[error("cannot be read")]
    Read,
    #[error("cannot be written")]
    Write,
    #[error("no memory")]
    NoMemory,
}

impl PrintFault {
    /// The exit status of a program that it ends.
    pub fn status(&self) -> u8
        ensures { result ≡ 3 }
    {
        match self {
            PrintFault::Read | PrintFault::Write | PrintFault::NoMemory => 3,
        }
    }
}
