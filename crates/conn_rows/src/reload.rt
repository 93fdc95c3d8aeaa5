//! A version that comes into force.
ghost use Rattle.std.specs.Prelude.{◌≡◌, ◌<◌, ◌++◌, ℕ, map, IsSome, Some, OnOk, OnErr};
ghost use Rattle.addr_core.specs.declared.addr.Addr.{Addr};
ghost use Rattle.slot_core.specs.Counts.{identity_at, open_at};
ghost use Rattle.plan_types.specs.Sound.{IsSoundPlan};
ghost use Rattle.plan_types.specs.declared.track.TableId.{TableId};
ghost use Rattle.conn_model.specs.Answer.{version_at};
ghost use Rattle.conn_model.specs.Words.{newest};
ghost use Rattle.conn_model.specs.History.{tables_with, with_version};
ghost use Rattle.conn_tables.specs.Tables.{cur_in, plain_table};
ghost use Rattle.conn_versions.specs.Judged.{judged_of};
ghost use Rattle.conn_rows.specs.Needed.{IsNextNumber};

use conn_tables::Tables;
use conn_versions::Versions;
use list_core::newest;
use plan_types::Plan;
use std::alloc::{AllocError, Global};

/// Adds the version of that number, of that plan, with the tables that begin with it. Without memory the versions and
/// the tables are as before.
pub fn install_version(
    kept: &mut Versions,
    tables: &mut Tables,
    alloc: Global,
    number: u64,
    plan: Plan,
) -> Result<(), AllocError>
    requires sound { IsSoundPlan plan }
    requires next { IsNextNumber number kept.old.versions (map (plain_table tables.old.clock) tables.old.tables) }
    ensures versions { OnOk result (kept.new.versions ≡ with_version kept.old.versions (Some (number, plan))) }
    ensures tables { OnOk result (map (plain_table tables.new.clock) tables.new.tables ≡ map (plain_table tables.old.clock) tables.old.tables ++ tables_with (newest kept.old.versions) (Some (number, plan))) }
    ensures versions_err { OnErr result (kept.new.versions ≡ kept.old.versions) }
    ensures tables_err { OnErr result (tables.new ≡ tables.old) }
    ensures open { (place : ℕ) → open_at place kept.new.counts ≡ open_at place kept.old.counts }
    ensures identities { (place : ℕ) → 0 < open_at place kept.old.counts → identity_at place kept.new.counts ≡ identity_at place kept.old.counts }
    ensures judged { (other : ℕ) → IsSome (version_at kept.old.versions other) → judged_of kept.new other ≡ judged_of kept.old other }
    ensures begins { OnOk result (judged_of kept.new number ≡ 0) }
    ensures counts { (id : TableId) (key : Addr) → cur_in id key tables.new.tables ≡ cur_in id key tables.old.tables }
    ensures spare { tables.new.spare ≡ tables.old.spare }
    ensures clock { tables.new.clock ≡ tables.old.clock }
{
    kept.push(number, plan)?;
    let Some(version) = newest(kept.as_slice()) else {
        unreachable!()
    };
    let ids = version.tables.as_slice();
    match tables.begin(alloc, number, version.plan.tables.as_slice(), ids) {
        Ok(()) => Ok(()),
        Err(error) => {
            kept.forget(number);
            Err(error)
        }
    }
}
