//! The checker: in a thread of its own it looks again and again whether servers accept connections. So no client waits for a
//! check.
use crate::WAKE;
use crate::addresses::socket_address;
use crate::check_plan::{CheckList, CheckTarget};
use crate::clock::SystemClock;
use crate::probe::{CheckFailure, CheckResult, failure_of, result_of};
use crate::trend::Trend;
use conn_model::event::Health;
use link_core::Clock;
use log::{Log, warn};
use mio::net::TcpStream;
use mio::{Events, Interest, Poll, Registry, Token, Waker};
use proxy_types::ServerIdentity;
use rtrb::{Consumer, Producer};
use std::alloc::{AllocError, Global};
use std::net::Net;
use std::rt;
use std::sync::Arc;
use std::time::Duration;

/// How many events a wait takes from the system at most. Those that are left come with the next one.
const MOST_EVENTS: usize = 256;

/// How many orders may be on their way to the checker, which takes all of them at a time. The newest one waits at the door for
/// room.
pub const MOST_ORDERS: usize = 4;

/// How long a wait for the next check is at least, in ms. Those that become due meanwhile are begun together.
const LEAST_WAIT: u64 = 5;

/// How long it waits at most, in ms. A new configuration ends the wait.
const MOST_WAIT: u64 = 60_000;

/// The servers that are checked from now on.
#[derive(Drop)]
pub struct WatchOrder {
    /// The number of the order, which its reports have.
    pub number: u64,
    pub list: CheckList,
}

/// What the checks of a server say, which is other than what the record has.
#[derive(Clone, Copy, Debug)]
pub struct HealthReport {
    /// The number of the order.
    pub order: u64,
    /// The place of the server in its list.
    pub place: usize,
    pub health: Health,
    /// Why its last check failed, if it is down.
    pub failure: CheckFailure,
}

/// A server that is checked again and again.
#[derive(Drop)]
struct WatchedServer {
    trend: Trend,
    /// When its next check begins; by then the one that is under way has failed.
    due: u64,
    dial: Option<TcpStream>,
    failure: CheckFailure,
}

impl WatchedServer {
    /// One that was not checked before, and is up or down as the record has it. Its first check is at that moment.
    fn new(is_up: bool, due: u64) -> WatchedServer {
        let trend = if is_up {
            Trend::new()
        } else {
            Trend::of_down()
        };
        WatchedServer {
            trend,
            due,
            dial: None,
            failure: CheckFailure::NoAnswer,
        }
    }

    /// Notes what a check says; what is to be reported then. That is said again after each check until the record has it.
    fn note(&mut self, target: &CheckTarget, answer: CheckResult) -> Option<Health> {
        let passed = match answer {
            CheckResult::Passed => true,
            CheckResult::Failed(failure) => {
                self.failure = failure;
                false
            }
            CheckResult::Later => return None,
            CheckResult::Unknown => {
                self.dial = None;
                return None;
            }
        };
        self.dial = None;
        match (self.trend.is_up, target.is_up()) {
            (false, true) => self.trend.mark(Health::Up),
            (true, false) => self.trend.mark(Health::Down),
            (true, true) | (false, false) => {}
        }
        self.trend.note(passed, &target.check)
    }

    /// Begins the next check. The one before has failed, if it is still under way. What is to be reported then.
    fn begin(
        &mut self,
        rt: &impl Net,
        registry: &Registry,
        token: Token,
        target: &CheckTarget,
        now: u64,
    ) -> Option<Health> {
        let report = self.end(target);
        self.due = now.saturating_add(target.check.inter);
        match TcpStream::connect(rt, socket_address(&target.to())) {
            Ok(mut stream) => {
                let is_watched = registry
                    .register(&mut stream, token, Interest::WRITABLE)
                    .is_ok();
                self.dial = is_watched.then_some(stream);
                report
            }
            Err(error) => match failure_of(&error) {
                Some(failure) => self.note(target, CheckResult::Failed(failure)).or(report),
                None => report,
            },
        }
    }

    /// Ends the check that is under way, if one is. An answer counts that came and was not taken yet.
    fn end(&mut self, target: &CheckTarget) -> Option<Health> {
        let answer = match self.answer()? {
            CheckResult::Later => CheckResult::Failed(CheckFailure::NoAnswer),
            known => known,
        };
        self.note(target, answer)
    }

    /// What the check that is under way says by now, if one is.
    fn answer(&self) -> Option<CheckResult> {
        match &self.dial {
            Some(stream) => Some(result_of(stream)),
            None => None,
        }
    }

    /// The system reported its check. What is to be reported then.
    fn take_result(&mut self, target: &CheckTarget) -> Option<Health> {
        let answer = self.answer()?;
        self.note(target, answer)
    }

    /// That it is down or up.
    fn report(&self, order: u64, place: usize, health: Health) -> HealthReport {
        HealthReport {
            order,
            place,
            health,
            failure: self.failure,
        }
    }

    /// Goes on as it was under the order before, with its next check at that moment at the latest. The system reports the
    /// check that is under way under a token of that order, so its answer is taken when the next is due.
    fn go_on(&mut self, before: &mut WatchedServer, latest: u64) {
        self.trend = before.trend;
        self.failure = before.failure;
        self.due = before.due.min(latest);
        self.dial = before.dial.take();
    }
}

/// The place of a server in a list, where it is most likely at that one.
fn place_of(list: &[CheckTarget], identity: &ServerIdentity, likely: usize) -> Option<usize> {
    match list.get(likely) {
        Some(target) if target.identity.is_same(identity) => Some(likely),
        _ => list
            .iter()
            .position(|target| target.identity.is_same(identity)),
    }
}

/// The way of reports to the door.
#[derive(Drop)]
pub struct ReportLine {
    reports: Producer<HealthReport>,
    // The door keeps it too, since a wake is lost if its waker is dropped first.
    door: Arc<Waker, Global>,
    /// Whether the door is still to be woken.
    owes_wake: bool,
}

impl ReportLine {
    pub fn new(reports: Producer<HealthReport>, door: Arc<Waker, Global>) -> ReportLine {
        ReportLine {
            reports,
            door,
            owes_wake: false,
        }
    }

    /// Hands a report to the door. Where there is no room for it, it comes after the next check again.
    fn send(&mut self, report: HealthReport) {
        let _full = self.reports.push(report);
        self.owes_wake = true;
    }

    /// Wakes the door, if it was handed a report.
    fn wake(&mut self) {
        if self.owes_wake {
            let _woken = self.door.wake();
        }
        self.owes_wake = false;
    }
}

/// Checks servers, and reports to the door which of them are down and up. It is used by one thread alone.
#[derive(Drop)]
pub struct Checker {
    alloc: Global,
    poll: Poll,
    events: Events,
    // Kept for as long as the poll: a wake is lost if its waker is dropped first.
    waker: Arc<Waker, Global>,
    orders: Consumer<WatchOrder>,
    line: ReportLine,
    /// The number of the order that it follows, and the servers of it.
    order: u64,
    list: CheckList,
    watched: Vec<WatchedServer>,
}

impl Checker {
    /// Follows the orders of a door, which `waker` announces to that poll. Before the first one it checks nothing: `list` is
    /// empty.
    pub(crate) fn new(
        alloc: Global,
        poll: Poll,
        waker: Arc<Waker, Global>,
        orders: Consumer<WatchOrder>,
        line: ReportLine,
        list: CheckList,
    ) -> Result<Checker, AllocError> {
        Ok(Checker {
            alloc,
            poll,
            events: Events::with_capacity(alloc, MOST_EVENTS)?,
            waker,
            orders,
            line,
            order: 0,
            list,
            watched: Vec::new(alloc),
        })
    }

    /// Checks for as long as the door is there.
    pub fn run<R: Net + rt::Clock + Log>(&mut self, rt: &R) {
        let Ok(clock) = SystemClock::start(rt) else {
            return;
        };
        for _turn in 0..u64::MAX {
            if self.orders.is_abandoned() {
                break;
            }
            self.take_orders(rt, clock.now());
            let due = self.begin_due(rt, clock.now());
            self.wait(due.saturating_sub(clock.now()).clamp(LEAST_WAIT, MOST_WAIT));
        }
    }

    /// Follows the newest order from now on.
    fn take_orders(&mut self, rt: &impl Log, now: u64) {
        let mut newest = None;
        for _order in 0..MOST_ORDERS {
            newest = self.orders.pop().ok().or(newest);
        }
        if let Some(WatchOrder { number, list }) = newest {
            self.watched = match self.watch_all(&list, now) {
                Ok(watched) => watched,
                Err(AllocError) => {
                    warn!(rt; "no memory to check the servers of the configuration");
                    Vec::new(self.alloc)
                }
            };
            self.order = number;
            self.list = list;
        }
    }

    /// The servers of a list, as they are checked from now on. The first checks are spread over the time between two.
    /// None is checked without memory for all.
    fn watch_all(&mut self, list: &CheckList, now: u64) -> Result<Vec<WatchedServer>, AllocError> {
        let count = (list.as_ref().len() as u64).max(1);
        let mut all = Vec::with_capacity(self.alloc, list.as_ref().len())?;
        let mut likely = 0usize;
        for (place, target) in list.as_ref().iter().enumerate() {
            let inter = target.check.inter;
            let wait = inter.saturating_mul(place as u64) / count;
            let mut watched = WatchedServer::new(target.is_up(), now.saturating_add(wait));
            if let Some(before) = place_of(
                self.list.as_ref().as_slice(),
                &target.identity,
                likely,
            ) {
                likely = before.wrapping_add(1);
                if let Some(before) = self.watched.get_mut(before) {
                    watched.go_on(before, now.saturating_add(inter));
                }
            }
            all.push(watched)?;
        }
        Ok(all)
    }

    /// Begins the checks that are due; when the next one is. The check of a place is watched under the token of that place.
    fn begin_due(&mut self, rt: &impl Net, now: u64) -> u64 {
        let mut next = u64::MAX;
        let targets = self.list.as_ref().iter();
        for (place, (watched, target)) in self.watched.iter_mut().zip(targets).enumerate() {
            if watched.due <= now {
                let registry = self.poll.registry();
                if let Some(health) = watched.begin(rt, registry, Token(place), target, now) {
                    self.line.send(watched.report(self.order, place, health));
                }
            }
            next = next.min(watched.due);
        }
        self.line.wake();
        next
    }

    /// Waits for what the system says of checks, for that many ms at the most.
    fn wait(&mut self, limit: u64) {
        let limit = Duration::from_millis(limit);
        let _waited = self.poll.poll(&mut self.events, Some(limit));
        for event in &self.events {
            let place = event.token().0;
            let (Some(watched), Some(target)) = (
                self.watched.get_mut(place),
                self.list.as_ref().get(place),
            ) else {
                continue;
            };
            if let Some(health) = watched.take_result(target) {
                self.line.send(watched.report(self.order, place, health));
            }
        }
        self.line.wake();
    }
}
