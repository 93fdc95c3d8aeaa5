//! A door with a list of knocks.

use crate::tests::link::FakeLink;
use crate::tests::stage::{Mark, Stage};
use conn_model::reply::{Reply, StepFault};
use crew_core::{Backlog, Door, DoorEvent};
use std::sync::Arc;

/// A door that hands out its knocks, the last of the list first. Then it is closed once that mark is set.
#[derive(Drop)]
pub struct FakeDoor {
    pub stage: Arc<Stage>,
    pub knocks: Vec<DoorEvent<FakeLink>>,
    pub closes_after: Option<Mark>,
    /// How many reloads went well, and how many did not.
    pub reloads: (u32, u32),
    /// What it was last told of a record that does not go out.
    pub warned: Option<Backlog>,
}

impl Door for FakeDoor {
    type Link = FakeLink;

    fn next(&mut self) -> DoorEvent<FakeLink> {
        match self.knocks.pop() {
            Some(knock) => knock,
            None if self.stage.has_come(self.closes_after) => DoorEvent::Closed,
            None => DoorEvent::Idle,
        }
    }

    /// Its links are asked for in every turn, so no worker waits.
    fn wake(&mut self, _worker: usize) {}

    fn report(&mut self, answer: &Result<Reply, StepFault>) {
        let (well, badly) = self.reloads;
        self.reloads = match answer {
            Ok(_) => (well.saturating_add(1), badly),
            Err(_) => (well, badly.saturating_add(1)),
        };
    }

    fn warn(&mut self, backlog: &Backlog) {
        self.warned = Some(*backlog);
        self.stage.set(Mark::Warned);
    }
}
