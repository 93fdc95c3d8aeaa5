//! What there is when a plan is opened.
ghost use Rattle.std.specs.Prelude.{◌≡◌, ◌++◌, ◌∷◌, [], map, IfOk, OnOk, OnErr};

use crate::frontend::{FrontendState, end_all_empty};
use list_core::Duplicate;
use plan_types::Frontend;
use std::alloc::{AllocError, Global};

/// Adds a frontend of which nothing is open.
fn push_frontend(
    alloc: Global,
    states: &mut Vec<FrontendState>,
    frontend: &Frontend,
    last: u64,
) -> Result<(), AllocError>
    ensures ok { OnOk result (states.new.items ≡ states.old.items ++ record { name = frontend.now.name; serial = last; rows = [] } ∷ []) }
    ensures err { OnErr result (states.new.items ≡ states.old.items) }
{
    let name = frontend.name.duplicate(alloc)?;
    match states.push(FrontendState::new(alloc, name, last)) {
        Ok(()) => Ok(()),
        Err(failed) => {
            failed.value.end_empty();
            Err(AllocError)
        }
    }
}

/// All frontends, of which nothing is open.
pub fn frontends(
    alloc: Global,
    frontends: &[Frontend],
    last: u64,
) -> Result<Vec<FrontendState>, AllocError>
    ensures { IfOk result (λ states. states.items ≡ map (λ frontend. record { name = frontend.name; serial = last; rows = [] }) frontends.now) }
{
    let mut states = Vec::new(alloc);
    for frontend in frontends {
        if let Err(error) = push_frontend(alloc, &mut states, frontend, last) {
            end_all_empty(states);
            return Err(error);
        }
    }
    Ok(states)
}
