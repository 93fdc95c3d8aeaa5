//! Why a text opens no balancer.
use plan_core::{ConfFault, PlanFault};
use std::alloc::AllocError;
use std::error::Error;
use std::fmt;

/// Why a text opens no balancer.
#[derive(Clone, Copy, Debug, PartialEq, Eq)]
pub enum OpenFault {
    Config(ConfFault),
    Plan(PlanFault),
    NoMemory,
}

/// As `line 3: Unsupported`; want of memory says so without a line.
impl fmt::Display for OpenFault {
    ghost use Rattle.std.specs.Prelude.{Some};
    ghost use Rattle.config_core.specs.Names.{open_text};

    ghost output = { λ fault. Some (open_text fault) };

    fn fmt<W: fmt::Write>(&self, f: &mut fmt::Formatter<W>) -> fmt::Result {
        match self {
            OpenFault::Config(fault) => write!(f, "line {}: {}", fault.line, fault.kind),
            OpenFault::Plan(fault) => write!(f, "line {}: {}", fault.line, fault.kind),
            OpenFault::NoMemory => f.write_str("no memory"),
        }
    }
}

impl Error for OpenFault {}

impl From<AllocError> for OpenFault {
    ghost use Rattle.std.specs.Prelude.{◌≡◌};
    ghost use Rattle.config_core.specs.declared.fault.OpenFault.TheVariants.{NoMemory};

    ghost from_gives = { λ _ fault. fault ≡ NoMemory };

    fn from(_error: AllocError) -> OpenFault {
        OpenFault::NoMemory
    }
}
