//! Copies of what a state has.
ghost use Rattle.std.specs.Prelude.{◌≡◌, IfOk};

use crate::plain::{Assignment, Listener, TableState, Version};
use list_core::{Duplicate, Seq};
use std::alloc::{AllocError, Global};

/// An equal list of lines.
pub fn copy_of_lines(alloc: Global, lines: &[u32]) -> Result<Seq<u32>, AllocError>
    ensures { IfOk result (λ copy. copy ≡ lines.now) }
{
    Ok(Seq::of(lines.iter().copied().collect(alloc)?))
}

impl Duplicate for Assignment {
    fn duplicate(&self, alloc: Global) -> Result<Assignment, AllocError> {
        Ok(Assignment {
            server: self.server.duplicate(alloc)?,
            line: self.line,
            judged: self.judged,
            failed: copy_of_lines(alloc, self.failed.as_slice())?,
        })
    }
}

impl Duplicate for Version {
    fn duplicate(&self, alloc: Global) -> Result<Version, AllocError> {
        Ok(Version {
            number: self.number,
            plan: self.plan.duplicate(alloc)?,
            tables: self.tables.duplicate(alloc)?,
            cursors: self.cursors.duplicate(alloc)?,
        })
    }
}

impl Duplicate for TableState {
    fn duplicate(&self, alloc: Global) -> Result<TableState, AllocError> {
        Ok(TableState {
            id: self.id,
            table: self.table.duplicate(alloc)?,
            entries: self.entries.duplicate(alloc)?,
        })
    }
}

impl Duplicate for Listener {
    fn duplicate(&self, _alloc: Global) -> Result<Listener, AllocError> {
        Ok(*self)
    }
}
