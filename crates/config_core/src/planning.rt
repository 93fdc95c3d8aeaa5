//! The plan of a text.
ghost use Rattle.std.specs.Prelude.{◌≡◌, ◌⊎◌, IfOk, IfErr, Ok, Err};
ghost use Rattle.plan_core.specs.Compiled.{plan_of};
ghost use Rattle.plan_core.specs.Sound.{IsSoundPlan};
ghost use Rattle.config_core.specs.Meaning.{opened, meaning};

use crate::fault::OpenFault;
use plan_core::{ConfKind, Plan, PlanKind, Tree, compile, read_config};
use std::alloc::Global;

/// The plan of a configuration whose lines are right.
fn plan(alloc: Global, tree: &Tree<'_>) -> Result<Plan, OpenFault>
    ensures ok { IfOk result (λ plan. opened (plan_of tree.now) ≡ Ok plan) }
    ensures fault { IfErr result (λ f. (f ≡ OpenFault.NoMemory) ⊎ (opened (plan_of tree.now) ≡ Err f)) }
    ensures sound { IfOk result IsSoundPlan }
{
    match compile(alloc, tree) {
        Ok(plan) => Ok(plan),
        Err(fault) => {
            if matches!(fault.kind, PlanKind::NoMemory) {
                return Err(OpenFault::NoMemory);
            }
            Err(OpenFault::Plan(fault))
        }
    }
}

/// The plan that a text means.
pub fn read_plan(alloc: Global, text: &str) -> Result<Plan, OpenFault>
    ensures ok { IfOk result (λ plan. meaning text.now ≡ Ok plan) }
    ensures fault { IfErr result (λ f. (f ≡ OpenFault.NoMemory) ⊎ (meaning text.now ≡ Err f)) }
    ensures sound { IfOk result IsSoundPlan }
{
    match read_config(alloc, text) {
        Ok(tree) => plan(alloc, &tree),
        Err(fault) => {
            if matches!(fault.kind, ConfKind::NoMemory) {
                return Err(OpenFault::NoMemory);
            }
            Err(OpenFault::Config(fault))
        }
    }
}
