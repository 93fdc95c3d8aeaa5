//! What may be wrong with a configuration as a whole.
use std::alloc::AllocError;
use std::fmt;

/// What is wrong with a configuration whose lines are right. Of several faults of a line it is the
/// first in this order.
#[derive(Clone, Copy, Debug, PartialEq, Eq)]
pub enum PlanKind {
    NoTable,
    /// A backend is named that is not there.
    NoBackend,
    NotStored,
    /// A frontend without a `bind` line.
    NoBind,
    /// There is no frontend (line 0).
    NoFrontend,
    NoMemory,
}

#[derive(Clone, Copy, Debug, PartialEq, Eq)]
pub struct PlanFault {
    pub line: u32,
    pub kind: PlanKind,
}

impl From<AllocError> for PlanFault {
    ghost use Rattle.std.specs.Prelude.{◌≡◌};
    ghost use Rattle.plan_core.specs.Faults.{no_memory};

    ghost from_gives = { λ _ fault. fault ≡ no_memory };

    fn from(_error: AllocError) -> PlanFault {
        PlanFault {
            line: 0,
            kind: PlanKind::NoMemory,
        }
    }
}

/// The kind's name.
impl fmt::Display for PlanKind {
    ghost use Rattle.std.specs.Prelude.{Some};
    ghost use Rattle.plan_core.specs.Names.{plan_name};

    ghost output = { λ kind. Some (plan_name kind) };

    fn fmt<W: fmt::Write>(&self, f: &mut fmt::Formatter<W>) -> fmt::Result {
        match self {
            PlanKind::NoTable => f.write_str("NoTable"),
            PlanKind::NoBackend => f.write_str("NoBackend"),
            PlanKind::NotStored => f.write_str("NotStored"),
            PlanKind::NoBind => f.write_str("NoBind"),
            PlanKind::NoFrontend => f.write_str("NoFrontend"),
            PlanKind::NoMemory => f.write_str("NoMemory"),
        }
    }
}
