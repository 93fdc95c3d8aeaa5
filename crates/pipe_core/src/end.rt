//! How a connection through a balancer ends.
ghost use Rattle.std.specs.Prelude.{◌≡◌};
ghost use Rattle.pipe_core.specs.Status.{end_status, fault_status};

use conn_core::OpenFault;
use conn_model::reply::Cause;
use thiserror::Error;

/// How a connection ends.
#[derive(Clone, Copy, Debug, PartialEq, Eq)]
pub enum PipeEnd {
    /// It was offered a server, and all of it was passed on: so many bytes were written.
    Offered(u64),
    /// It was refused.
    Refused(Cause),
    /// The input ended before its PROXY header did.
    Unfinished,
}

impl PipeEnd {
    /// The exit status of a program that ends so.
    pub fn status(&self) -> u8
        ensures { result ≡ end_status self.now }
    {
        match self {
            PipeEnd::Offered(_) => 0,
            PipeEnd::Refused(_) | PipeEnd::Unfinished => 1,
        }
    }
}

/// Why nothing more is passed on.
#[derive(Clone, Copy, Debug, Error)]
pub enum PipeFault {
    /// The configuration is refused.
    #[error(transparent)]
    Config(OpenFault),
    /// The configuration has no frontend of the name.
    #[error("no such frontend")]
    NoFrontend,
    #[error("cannot be read")]
    Read,
    #[error("cannot be written")]
    Write,
    #[error("no memory")]
    NoMemory,
}

impl PipeFault {
    /// The exit status of a program that it ends.
    pub fn status(&self) -> u8
        ensures { result ≡ fault_status self.now }
    {
        match self {
            PipeFault::Config(_) | PipeFault::NoFrontend => 1,
            PipeFault::Read | PipeFault::Write | PipeFault::NoMemory => 3,
        }
    }
}
