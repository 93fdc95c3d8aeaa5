//! Rows in the order of their serials.
ghost use Rattle.std.specs.Prelude.{◌≡◌, ◌+◌, ◌<◌, ◌^◌, ◌∷◌, ◌++◌, ℕ, [], length, filter, find, map, not, IfErr, IfOk, IfSome, IfNone, IsSome, OnOk, OnErr, Some};
ghost use Rattle.std.specs.List.{AllByRecursion};
ghost use Rattle.std.specs.Option.{option_copied};
ghost use Rattle.keyed_list.specs.Entries.{IsFew};
ghost use Rattle.conn_model.specs.Counts.{total};
ghost use Rattle.conn_versions.specs.Versions.{AreSound};
ghost use Rattle.conn_rows.specs.declared.row.StoredRow.{StoredRow};
ghost use Rattle.conn_rows.specs.Stored.{has_serial, plain_row};

use crate::row::{Stage, StoredRow};
use conn_model::plain::{Row, Version};
use conn_tables::Trackings;
use keyed_list::KeyedList;
use list_core::Seq;
use std::alloc::{AllocError, AllocFailed, Global};
use std::marker::Model;

/// Rows by rising serials. A contract sees the list of them. A row is found and taken out in time in the logarithm of
/// how many there are, and the others stay where they are in memory.
///
/// The list cannot be dropped: it ends by `end`, once its rows were taken out.
pub struct RowList {
    // Each row under its serial.
    entries: KeyedList<StoredRow>,
}

impl Model for RowList {
    ghost use Rattle.std.specs.Prelude.{List};
    ghost use Rattle.keyed_list.specs.Entries.{items_of};
    ghost use Rattle.conn_rows.specs.declared.row.StoredRow.{StoredRow};
    ghost use Rattle.conn_rows.specs.Listed.{AreListed};

    ghost Value = { List StoredRow };

    ghost view = { λ l. items_of l.entries };

    ghost invariant = { λ l. AreListed l.entries };
}

impl RowList {
    ghost use Rattle.std.specs.Borrow.{sem};
    ghost use Rattle.conn_rows.specs.Lends.{lends_stage, lends_tracks};

    /// A list of no rows, which grows by that allocator.
    pub fn new(alloc: Global) -> Self
        ensures { result ≡ [] }
    {
        RowList {
            entries: KeyedList::new(alloc),
        }
    }

    /// How many rows there are, at no cost that grows with it.
    pub fn len(&self) -> usize
        ensures value { result ≡ length self.now }
        ensures few { IsFew result }
    {
        self.entries.len()
    }

    /// The row of that serial.
    pub fn find(&self, serial: u64) -> Option<&StoredRow>
        ensures { option_copied result ≡ find (has_serial serial) self.now }
    {
        self.entries.get(serial)
    }

    /// Equal rows, as plain data, by the plans of these versions.
    pub fn plain(&self, alloc: Global, versions: &[Version]) -> Result<Seq<Row>, AllocError>
        requires { AreSound versions.now }
        ensures { IfOk result (λ copies. copies ≡ map (plain_row versions.now) self.now) }
    {
        let mut copies = Vec::with_capacity(alloc, self.entries.len())?;
        for (_, row) in self.entries.iter() {
            copies.push(row.plain(alloc, versions)?)?;
        }
        Ok(Seq::of(copies))
    }

    /// The stage of the row of a serial that is there. When the borrow ends, the row has the stage that was last
    /// written, and nothing else has changed.
    pub fn stage_mut(&mut self, serial: u64) -> &mut Stage
        requires { IsSome (find (has_serial serial) self.old) }
        ensures* writes_back { sem 𝓛 (lends_stage self.entry serial result) }
        ensures value { (row : StoredRow) → find (has_serial serial) self.old ≡ Some row → result.now ≡ row.stage }
        ensures few { IsFew (length self.old) }
    {
        &mut self.entries.at_mut(serial).stage
    }

    /// What the row of a serial that is there tracks. When the borrow ends, the row tracks what was last written, and
    /// nothing else has changed.
    pub fn tracks_mut(&mut self, serial: u64) -> &mut Trackings
        requires { IsSome (find (has_serial serial) self.old) }
        ensures* writes_back { sem 𝓛 (lends_tracks self.entry serial result) }
        ensures value { (row : StoredRow) → find (has_serial serial) self.old ≡ Some row → result.now ≡ row.tracks }
        ensures few { IsFew (length self.old) }
    {
        &mut self.entries.at_mut(serial).tracks
    }

    /// Adds a row of a serial above all others. Without memory nothing is changed, and the row comes back.
    pub fn push(&mut self, row: StoredRow) -> Result<(), AllocFailed<StoredRow>>
        requires { AllByRecursion (λ own. own.serial < row.serial) self.old }
        ensures ok { OnOk result (self.new ≡ self.old ++ row ∷ []) }
        ensures err { OnErr result (self.new ≡ self.old) }
        ensures value_returned { IfErr result (λ failed. failed.value ≡ row) }
        ensures few { IsFew (length self.new) }
    {
        let pushed = self.entries.push(row.serial, row);
        let _few = self.entries.len();
        pushed
    }

    /// Takes the row of a serial out, if it is there. It asks for a smaller block at times, and goes on without it if that
    /// is refused.
    pub fn take(&mut self, serial: u64) -> Option<StoredRow>
        ensures row { result ≡ find (has_serial serial) self.old }
        ensures left { self.new ≡ filter (λ row. not (has_serial serial row)) self.old }
        ensures none { IfNone result (self.new ≡ self.old) }
        ensures counts { IfSome result (λ row. (worth : StoredRow → ℕ) → total worth self.new + worth row ≡ total worth self.old) }
    {
        self.entries.take(serial)
    }

    /// Takes the last row out. It asks for a smaller block at times, and goes on without it if that is refused.
    pub fn pop(&mut self) -> Option<StoredRow>
        ensures counts { IfSome result (λ row. (worth : StoredRow → ℕ) → total worth self.new + worth row ≡ total worth self.old) }
        ensures shorter { IfSome result (λ row. length self.new + 1 ≡ length self.old) }
        ensures none { IfNone result (self.old ≡ []) }
        ensures empty { IfNone result (self.new ≡ []) }
    {
        let (_serial, row) = self.entries.pop()?;
        Some(row)
    }

    /// Ends a list that has no rows.
    pub fn end(self)
        requires { self ≡ [] }
    {
        let RowList { entries } = self;
        entries.end();
    }
}
