//! Callers of a plan's reader, a core, a list by keys and a stick table.
ghost use Rattle.std.specs.Prelude.{◌≡◌, ◌⊎◌, ◌-◌, ◌<◌, ◌≤◌, ◌^◌, ◌++◌, ◌∷◌, [], Err, IfErr, OnOk, OnErr};
ghost use Rattle.std.specs.List.{AllByRecursion};
ghost use Rattle.config_core.specs.Meaning.{meaning};
ghost use Rattle.stick_core.specs.Listing.{cur_at};

use addr_core::{Addr, Pair};
use config_core::{OpenFault, read_plan};
use conn_core::Core;
use conn_model::event::Event;
use conn_model::reply::{Reply, StepFault};
use keyed_list::KeyedList;
use std::alloc::{AllocError, AllocFailed, Global};
use stick_core::StickTable;

/// How many frontends a configuration has. A text that is none has a fault, with its line; `NoMemory` has no line.
pub fn count_frontends(alloc: Global, text: &str) -> Result<usize, OpenFault>
    ensures { IfErr result (λ fault.
        (fault ≡ OpenFault.NoMemory) ⊎ (meaning text.now ≡ Err fault)) }
{
    let plan = read_plan(alloc, text)?;
    Ok(plan.frontends.len())
}

/// What a new core says of the first connection, which comes to the first listener. The configuration may be refused,
/// and the core may have no such listener, or no memory; then nothing was decided. A core is ended, not dropped: so none is
/// lost with connections that are open.
pub fn judge_first(
    alloc: Global,
    text: &str,
    real: Pair,
) -> Result<Result<Reply, StepFault>, OpenFault>
    ensures { IfErr result (λ fault.
        (fault ≡ OpenFault.NoMemory) ⊎ (meaning text.now ≡ Err fault)) }
{
    let mut core = Core::open(alloc, text)?;
    let reply = core.step(0, &Event::Accept(0, real));
    core.end();
    Ok(reply)
}

/// Adds an item under a key above all others. Without memory the list is as before, and the item comes back.
pub fn add_item(list: &mut KeyedList<u16>, key: u64, item: u16) -> Result<(), AllocFailed<u16>>
    requires { AllByRecursion (λ e. e.0 < key) list.old }
    ensures ok { OnOk result (list.new ≡ list.old ++ (key, item) ∷ []) }
    ensures err { OnErr result (list.new ≡ list.old) }
{
    list.push(key, item)
}

/// Tracks an address, and ends that at once, so that it counts as one visit; how many there were. None where the
/// address is no key of the table, or each entry of a full one has a connection. Without memory nothing is tracked.
pub fn count_visit(
    table: &mut StickTable,
    addr: &Addr,
    moment: u64,
) -> Result<Option<u64>, AllocError>
    requires clock { table.old.clock ≤ moment }
    requires below { cur_at table.old addr.now < 2 ^ 64 - 1 }
{
    let Some(tracked) = table.track(addr, moment)? else {
        return Ok(None);
    };
    table.release(tracked, moment);
    Ok(Some(table.cnt(addr, moment)))
}
