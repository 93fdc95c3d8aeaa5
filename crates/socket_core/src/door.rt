//! The door: the commands of an operator, changes of servers, questions for the state, and clients that no worker takes
//! itself.
use crate::WAKE;
use crate::alarm::Alarm;
use crate::checker::Checker;
use crate::checks::{Checks, HealthChange, make_checks};
use crate::commands::{Command, CommandSender, MOST_COMMANDS};
use crate::dials::SetupFault;
use crate::door_plan::DoorPlan;
use crate::link::SocketLink;
use crate::listener_share::ListenerShare;
use crate::listeners::{Listeners, listener_of};
use crate::pace::Pace;
use crate::status_line::{StatusAnswer, StatusAsker, StatusEnd, status_line};
use conn_model::event::Health;
use conn_model::reply::{Reply, Said, StepFault};
use link_core::{Backlog, Clock, Door, DoorEvent};
use log::{Log, info, warn};
use mio::{Events, Poll, Waker};
use rtrb::{Consumer, RingBuffer};
use status_core::{CrewStatus, Outline, ProxyStatus, Question};
use std::alloc::{AllocError, Global};
use std::net::Net;
use std::str;
use std::sync::Arc;
use std::time::Duration;

/// How long the door waits at most, in ms. What comes ends the wait: only a record that does not go out is looked for.
const LONGEST_WAIT: u64 = 1_000;

/// How many events a wait takes from the system at most. The waker has some, and the listeners where it takes clients.
const MOST_EVENTS: usize = 64;

/// How many clients the door hands out before it asks the system at which other listeners clients wait.
const BETWEEN_LOOKS: u32 = 16;

/// Where all comes in that is no connection, and the connections if the workers do not take them from the listeners
/// themselves.
#[derive(Drop)]
pub struct SocketDoor<'a, R: Log, C: Clock> {
    rt: &'a R,
    alloc: Global,
    clock: &'a C,
    poll: Poll,
    events: Events,
    commands: Consumer<Command>,
    // Kept for as long as the poll: a wake is lost if its waker is dropped first.
    waker: Arc<Waker, Global>,
    /// What wakes the workers.
    workers: Vec<Arc<Alarm, Global>>,
    is_closed: bool,
    slow: Pace,
    unwritten: Pace,
    unmarked: Pace,
    /// How many lost segments of the record were reported.
    segments: u64,
    checks: Checks,
    /// What is known of the configuration that was handed out last.
    next_plan: Option<DoorPlan>,
    /// The sections of the configuration in force, and the number of its version.
    outline: Arc<Outline, Global>,
    version: u64,
    /// Where the state is asked for.
    askers: Vec<StatusEnd>,
    /// The place of the asker whose question was handed out last, and the number of that question.
    asked: Option<(usize, u64)>,
    /// The clients that it takes, if it takes some, and how many it handed out since it last asked the system for more.
    share: Option<ListenerShare<'a, R, C>>,
    handed_out: u32,
}

impl<'a, R: Log + Net, C: Clock> SocketDoor<'a, R, C> {
    /// A door for the first configuration, of which it knows that, the sender by which commands come to it, and what checks
    /// servers for it in another thread.
    pub fn new(
        rt: &'a R,
        alloc: Global,
        clock: &'a C,
        plan: DoorPlan,
    ) -> Result<(SocketDoor<'a, R, C>, CommandSender, Checker), SetupFault> {
        let poll = Poll::new(rt).map_err(SetupFault::System)?;
        let waker = Waker::new(poll.registry(), WAKE).map_err(SetupFault::System)?;
        let waker = Arc::new(alloc, waker).map_err(|_| SetupFault::NoMemory)?;
        let (to_door, commands) = RingBuffer::new(alloc, MOST_COMMANDS)?;
        let sender = CommandSender::new(to_door, Arc::try_clone(&waker)?);
        let DoorPlan {
            checks: checked,
            outline,
        } = plan;
        let (checks, checker) = make_checks(rt, alloc, Arc::try_clone(&waker)?)?;
        let mut door = SocketDoor {
            rt,
            alloc,
            clock,
            poll,
            events: Events::with_capacity(alloc, MOST_EVENTS)?,
            commands,
            waker,
            workers: Vec::new(alloc),
            is_closed: false,
            slow: Pace::new(),
            unwritten: Pace::new(),
            unmarked: Pace::new(),
            segments: 0,
            checks,
            next_plan: None,
            outline,
            version: 1,
            askers: Vec::new(alloc),
            asked: None,
            share: None,
            handed_out: 0,
        };
        door.checks.put_in_force(checked)?;
        Ok((door, sender, checker))
    }
}

impl<'a, R: Log + Net, C: Clock> SocketDoor<'a, R, C> {
    /// Has the door wake the next worker by that alarm. The workers are added in their order.
    pub fn add_worker(&mut self, alarm: Arc<Alarm, Global>) -> Result<(), AllocError> {
        Ok(self.workers.push(alarm)?)
    }

    /// The next word, if one came. Where none will come any more, that is `Quit`.
    fn next_command(&mut self) -> Option<Command> {
        // In this order: a word that was handed in before the sender was dropped is not missed.
        let is_last = self.commands.is_abandoned();
        match self.commands.pop() {
            Ok(word) => Some(word),
            Err(_) if is_last => Some(Command::Quit),
            Err(_) => None,
        }
    }

    /// Reports when a client comes to one of the listeners.
    pub fn watch(&mut self, listeners: &mut Listeners) -> Result<(), SetupFault> {
        listeners
            .watch(self.poll.registry())
            .map_err(SetupFault::System)
    }

    /// Hands out the clients of that share of the listeners, which it watches.
    pub fn take_clients(&mut self, share: ListenerShare<'a, R, C>) {
        self.share = Some(share);
    }

    /// A change of a server, a question for the state or a client, in this order.
    fn next_other(&mut self) -> Option<DoorEvent<SocketLink>> {
        if let Some((backend, server, health)) = self.checks.next_report() {
            return Some(DoorEvent::Mark(backend, server, health));
        }
        if let Some(asks) = self.next_question() {
            return Some(DoorEvent::Status(asks));
        }
        let (listener, real, link) = self.share.as_mut()?.accept()?;
        self.handed_out = self.handed_out.saturating_add(1);
        Some(DoorEvent::Conn(listener, real, link))
    }

    /// What came, if anything did. Words come first.
    fn next_event(&mut self) -> Option<DoorEvent<SocketLink>> {
        match self.next_command() {
            Some(Command::Reload(text, plan)) => {
                self.next_plan = Some(plan);
                Some(DoorEvent::Reload(text))
            }
            Some(Command::Quit) => {
                self.is_closed = true;
                Some(DoorEvent::Closed)
            }
            None => self.next_other(),
        }
    }

    /// Waits until something comes, for `limit` ms at the most, unless a client is known to wait.
    fn wait(&mut self, limit: u64) {
        self.handed_out = 0;
        let limit = match &mut self.share {
            Some(share) => share.limit(limit),
            None => limit,
        };
        let limit = Duration::from_millis(limit);
        let _waited = self.poll.poll(&mut self.events, Some(limit));
        let Some(share) = &mut self.share else {
            return;
        };
        for event in self.events.iter() {
            if let Some(listener) = listener_of(event.token()) {
                share.note_ready(listener);
            }
        }
    }

    /// What is checked and told from now on, once a configuration is in force as the version of that number.
    fn put_plan_in_force(&mut self, version: u64) {
        self.version = version;
        let Some(DoorPlan { checks, outline }) = self.next_plan.take() else {
            return;
        };
        self.outline = outline;
        if self.checks.put_in_force(checks).is_err() {
            warn!(self.rt; "no memory to check the servers of the new configuration");
        }
    }

    /// Says that a server is down or up, in one line.
    fn say_mark(&mut self, health: Health) {
        let Some(change) = self.checks.note_report(health) else {
            return;
        };
        let backend = str::from_utf8(change.identity.backend.as_slice()).unwrap_or("");
        let server = str::from_utf8(change.identity.name.as_slice()).unwrap_or("");
        let HealthChange {
            failure,
            up,
            all,
            ..
        } = &change;
        let are_up = if *all == 1 { "server" } else { "servers" };
        match change.health {
            Health::Down => warn!(self.rt;
                "server {backend}/{server} is DOWN: {failure}. {up} of {all} {are_up} of {backend} are up"
            ),
            Health::Up => info!(self.rt;
                "server {backend}/{server} is UP. {up} of {all} {are_up} of {backend} are up"
            ),
        }
    }
}

impl<'a, R: Log, C: Clock> SocketDoor<'a, R, C> {
    /// What asks for the state from another thread.
    pub fn add_asker(&mut self) -> Result<StatusAsker, AllocError> {
        let (asker, end) = status_line(self.alloc, Arc::try_clone(&self.waker)?)?;
        self.askers.push(end)?;
        Ok(asker)
    }

    /// The first question that waits, if one does: the place of its asker, and its number.
    fn take_question(&mut self) -> Option<(usize, u64)> {
        for (place, end) in self.askers.iter_mut().enumerate() {
            if let Ok(number) = end.questions.pop() {
                return Some((place, number));
            }
        }
        None
    }

    /// Of what it is asked how much is open, if somebody asks for the state. Without memory for that it is answered at once.
    fn next_question(&mut self) -> Option<Question> {
        self.asked = Some(self.take_question()?);
        match self.outline.question(self.alloc) {
            Ok(question) => Some(question),
            Err(_) => {
                self.answer(None);
                None
            }
        }
    }

    /// Hands the state to who asked for it last.
    fn answer(&mut self, status: Option<ProxyStatus>) {
        let Some((place, number)) = self.asked.take() else {
            return;
        };
        if let Some(end) = self.askers.get_mut(place) {
            let _full = end.answers.push(StatusAnswer { number, status });
        }
    }

    /// The state of the crew with what the door knows besides.
    fn whole_status(&self, crew: CrewStatus) -> Result<ProxyStatus, AllocError> {
        Ok(ProxyStatus {
            outline: Arc::try_clone(&self.outline)?,
            version: self.version,
            health: self.checks.health()?,
            crew,
        })
    }

    /// Says that a mark is refused, in at most one line a second.
    fn say_unmarked(&mut self, fault: &StepFault) {
        if self.unmarked.allows(self.clock.now()) {
            warn!(self.rt; "a server that is down or up is not marked, and is checked again: {fault:?}");
        }
    }

    /// Says that a reload is refused, in one line.
    fn say_not_reloaded(&mut self, fault: &StepFault) {
        self.next_plan = None;
        match fault {
            StepFault::BadConfig(fault) => warn!(self.rt; "the reload is refused: {fault}"),
            StepFault::BindChanged => {
                warn!(self.rt; "the reload is refused: it binds other addresses than are in force")
            }
            fault => warn!(self.rt; "the reload is refused: {fault:?}"),
        }
    }
}

impl<'a, R: Log + Net, C: Clock> Door for SocketDoor<'a, R, C> {
    type Link = SocketLink;

    fn next(&mut self) -> DoorEvent<SocketLink> {
        if self.is_closed {
            return DoorEvent::Closed;
        }
        if self.handed_out >= BETWEEN_LOOKS {
            self.wait(0);
        }
        if let Some(next_event) = self.next_event() {
            return next_event;
        }
        self.wait(LONGEST_WAIT);
        self.next_event().unwrap_or(DoorEvent::Idle)
    }

    fn wake(&mut self, worker: usize) {
        if let Some(alarm) = self.workers.get(worker) {
            alarm.set_off();
        }
    }

    /// Says what became of a reload or of a mark, in one line for each.
    fn report(&mut self, answer: &Result<Reply, StepFault>) {
        match answer {
            Ok(reply) => match &reply.said {
                Said::Reloaded { version } => {
                    info!(self.rt; "reloaded as version {version}");
                    self.put_plan_in_force(*version);
                }
                Said::Marked { line: _, health } => self.say_mark(*health),
                _ => {}
            },
            Err(fault) if self.checks.drop_report() => self.say_unmarked(fault),
            Err(fault) => self.say_not_reloaded(fault),
        }
    }

    /// Answers the question that was handed out last.
    fn report_status(&mut self, status: Result<CrewStatus, AllocError>) {
        let status = match status {
            Ok(crew) => self.whole_status(crew).ok(),
            Err(_) => None,
        };
        self.answer(status);
    }

    /// Says that records wait or are lost, in at most one line a second for each of the two. Lost segments are reported
    /// again only where there are more of them.
    fn warn(&mut self, backlog: &Backlog) {
        let Backlog { refused, waiting } = *backlog;
        let now = self.clock.now();
        if waiting > 0 && self.slow.allows(now) {
            warn!(self.rt; "standard output is slow: at least {waiting} records wait in memory");
        }
        if refused > self.segments && self.unwritten.allows(now) {
            self.segments = refused;
            let are_lost = if refused == 1 {
                "segment of the record is lost"
            } else {
                "segments of the record are lost"
            };
            warn!(self.rt; "standard output cannot be written: {refused} {are_lost}");
        }
    }
}
