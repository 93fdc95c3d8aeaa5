//! What the door knows of the checks of servers. The checker, in another thread, makes them.
use crate::WAKE;
use crate::check_plan::{CheckList, CheckPlan};
use crate::checker::{Checker, HealthReport, MOST_ORDERS, ReportLine, WatchOrder};
use crate::dials::SetupFault;
use crate::probe::CheckFailure;
use conn_model::event::Health;
use list_core::Duplicate;
use mio::{Poll, Waker};
use proxy_types::ServerIdentity;
use rtrb::{Consumer, Producer, PushError, RingBuffer};
use status_core::ServerHealth;
use std::alloc::{AllocError, Global};
use std::net::Net;
use std::sync::Arc;

/// How many reports may be on their way to the door. What finds no room is reported after the next check.
const MOST_REPORTS: usize = 1_024;

/// A server whose health changed, and how many of its backend are up.
#[derive(Drop)]
pub struct HealthChange<'a> {
    pub identity: &'a ServerIdentity,
    pub health: Health,
    /// Why its last check failed, if it is down.
    pub failure: CheckFailure,
    pub up: u64,
    pub all: u64,
}

/// What is handed out to be reported.
#[derive(Drop)]
struct HandedOut {
    place: usize,
    failure: CheckFailure,
    /// Where it is down: what it is known by from then on.
    identity: Option<ServerIdentity>,
}

/// The servers that the newest configuration has checked, and which of them are up, as the record has it.
#[derive(Drop)]
pub struct Checks {
    alloc: Global,
    list: CheckList,
    unchecked: Vec<u64>,
    /// The servers that were last reported down, those that no configuration has any more among them.
    down: Vec<ServerIdentity>,
    /// The number of the last order to the checker.
    order: u64,
    orders: Producer<WatchOrder>,
    /// The last order, while there is no room for it.
    held: Option<WatchOrder>,
    reports: Consumer<HealthReport>,
    // The checker keeps it too, since a wake is lost if its waker is dropped first.
    checker: Arc<Waker, Global>,
    handed_out: Option<HandedOut>,
}

/// What a door knows of checks, of which there are none yet, and the checker that is to make them and wakes the door.
pub fn make_checks(
    rt: &impl Net,
    alloc: Global,
    door: Arc<Waker, Global>,
) -> Result<(Checks, Checker), SetupFault> {
    let poll = Poll::new(rt).map_err(SetupFault::System)?;
    let waker = Waker::new(poll.registry(), WAKE).map_err(SetupFault::System)?;
    let waker = Arc::new(alloc, waker).map_err(|_| SetupFault::NoMemory)?;
    let (orders, to_follow) = RingBuffer::new(alloc, MOST_ORDERS)?;
    let (to_door, reports) = RingBuffer::new(alloc, MOST_REPORTS)?;
    let CheckPlan { checked, unchecked } = CheckPlan::none(alloc)?;
    let checks = Checks {
        alloc,
        list: Arc::try_clone(&checked)?,
        unchecked,
        down: Vec::new(alloc),
        order: 0,
        orders,
        held: None,
        reports,
        checker: Arc::try_clone(&waker)?,
        handed_out: None,
    };
    let line = ReportLine::new(to_door, door);
    let checker = Checker::new(alloc, poll, waker, to_follow, line, checked)?;
    Ok((checks, checker))
}

impl Checks {
    fn is_down(&self, identity: &ServerIdentity) -> bool {
        self.down.iter().any(|other| other.is_same(identity))
    }

    /// A configuration is in force: its servers are checked from now on.
    pub fn put_in_force(&mut self, plan: CheckPlan) -> Result<(), AllocError> {
        let CheckPlan { checked, unchecked } = plan;
        for target in checked.as_ref().iter() {
            if self.is_down(&target.identity) {
                target.mark(Health::Down);
            }
        }
        self.list = Arc::try_clone(&checked)?;
        self.unchecked = unchecked;
        self.handed_out = None;
        self.order = self.order.wrapping_add(1);
        self.send(WatchOrder {
            number: self.order,
            list: checked,
        });
        Ok(())
    }

    /// Hands an order to the checker, or keeps it until there is room for it.
    fn send(&mut self, order: WatchOrder) {
        self.held = match self.orders.push(order) {
            Ok(()) => None,
            Err(PushError::Full(back)) => Some(back),
        };
        let _woken = self.checker.wake();
    }

    /// Hands the order that is kept to the checker.
    fn send_held(&mut self) {
        if let Some(order) = self.held.take() {
            self.send(order);
        }
    }

    /// Which of the servers are up, by their numbers.
    pub fn health(&self) -> Result<Vec<ServerHealth>, AllocError> {
        let mut health = Vec::with_capacity(self.alloc, self.list.as_ref().len())?;
        for target in self.list.as_ref().iter() {
            health.push(ServerHealth {
                backend: target.backend,
                server: target.server,
                is_up: target.is_up(),
            })?;
        }
        Ok(health)
    }

    /// The next change that is to be reported: the numbers of the server. What becomes of it comes by `note_report`.
    pub fn next_report(&mut self) -> Option<(u16, u16, Health)> {
        self.send_held();
        for _report in 0..MOST_REPORTS {
            let report = self.reports.pop().ok()?;
            let change = self.hand_out(report);
            if change.is_some() {
                return change;
            }
        }
        None
    }

    /// Hands a report out, unless it is of an earlier order or the record has it already. Without memory it comes after the
    /// next check again.
    fn hand_out(&mut self, report: HealthReport) -> Option<(u16, u16, Health)> {
        let HealthReport {
            order,
            place,
            health,
            failure,
        } = report;
        let target = self.list.as_ref().get(place)?;
        if order != self.order || target.is_up() == (health == Health::Up) {
            return None;
        }
        let identity = match health {
            Health::Up => None,
            Health::Down => {
                self.down.reserve(1).ok()?;
                Some(target.identity.duplicate(self.alloc).ok()?)
            }
        };
        let change = (target.backend, target.server, health);
        self.handed_out = Some(HandedOut {
            place,
            failure,
            identity,
        });
        Some(change)
    }

    /// What was handed out last is refused, and is reported again after the next check. Whether it was a change.
    pub fn drop_report(&mut self) -> bool {
        self.handed_out.take().is_some()
    }

    /// The change that was handed out last is in the record. What is to be said of it.
    pub fn note_report(&mut self, health: Health) -> Option<HealthChange<'_>> {
        let HandedOut {
            place,
            failure,
            identity,
        } = self.handed_out.take()?;
        let target = self.list.as_ref().get(place)?;
        target.mark(health);
        match identity {
            Some(identity) => {
                let _has_room = self.down.push(identity);
            }
            None => {
                let known = &target.identity;
                self.down.retain(|other| !other.is_same(known));
            }
        }
        self.change(place, health, failure)
    }

    fn change(
        &self,
        place: usize,
        health: Health,
        failure: CheckFailure,
    ) -> Option<HealthChange<'_>> {
        let target = self.list.as_ref().get(place)?;
        let others = self
            .unchecked
            .get(usize::from(target.backend))
            .copied()
            .unwrap_or(0);
        let (mut up, mut all) = (others, others);
        for one in self.list.as_ref().iter() {
            if one.backend == target.backend {
                all = all.saturating_add(1);
                up = up.saturating_add(u64::from(one.is_up()));
            }
        }
        Some(HealthChange {
            identity: &target.identity,
            health,
            failure,
            up,
            all,
        })
    }
}
