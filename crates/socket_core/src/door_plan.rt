//! What a door knows of a configuration.
use crate::check_plan::CheckPlan;
use plan_types::Plan;
use status_core::Outline;
use std::alloc::{AllocError, Global};
use std::sync::Arc;

/// Which servers of a configuration are checked, and the sections whose state is told.
#[derive(Drop)]
pub struct DoorPlan {
    pub checks: CheckPlan,
    pub outline: Arc<Outline, Global>,
}

impl DoorPlan {
    /// That of the first configuration, in whose order frontends have their numbers for good.
    pub fn first(alloc: Global, plan: &Plan) -> Result<DoorPlan, AllocError> {
        DoorPlan::with(
            CheckPlan::of(alloc, plan)?,
            alloc,
            Outline::of(alloc, plan)?,
        )
    }

    /// That of a later one.
    pub fn later(alloc: Global, plan: &Plan, first: &Outline) -> Result<DoorPlan, AllocError> {
        let mut outline = Outline::of(alloc, plan)?;
        outline.follow(first);
        DoorPlan::with(CheckPlan::of(alloc, plan)?, alloc, outline)
    }

    /// That of a configuration that is not known.
    pub fn none(alloc: Global) -> Result<DoorPlan, AllocError> {
        DoorPlan::with(CheckPlan::none(alloc)?, alloc, Outline::none(alloc))
    }

    fn with(checks: CheckPlan, alloc: Global, outline: Outline) -> Result<DoorPlan, AllocError> {
        Ok(DoorPlan {
            checks,
            outline: Arc::new(alloc, outline).map_err(|_| AllocError)?,
        })
    }
}
