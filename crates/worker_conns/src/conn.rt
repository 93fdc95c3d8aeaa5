//! A connection of a worker.
ghost use Rattle.std.specs.Prelude.{◌≡◌, ◌++◌, ◌↔◌, Some, None, IsTrue, IfOk, OnOk, OnErr, IsSomeAnd, drop};
ghost use Rattle.relay_core.specs.Relay.{IsBegun, Ways};
ghost use Rattle.worker_conns.specs.Conns.{HasFlows, IsRelayed, PassesOn};
ghost use Rattle.worker_conns.specs.Dues.{client_side, dial_begun, dialled_side, due_in, next_look_in, server_side};
ghost use Rattle.link_core.specs.Idle.{time_begun, waited_for};

use addr_core::Endpoint;
use conn_model::event::Why;
use conn_model::settings::Settings;
use link_core::{
    Flags, Link, Progress, Ready, Side, Spares, Times, WaitedFor, first_end_of_both, is_overdue,
    overdue, pump, retry_pause, time_begun, waited_for_by,
};
use plan_types::Redispatch;
use relay_core::{Relay, Way};
use status_core::Sent;
use std::alloc::AllocError;

/// What a connection waits for.
#[derive(Clone, Copy, Debug)]
pub enum ConnStage {
    /// For its PROXY header.
    Header,
    /// For a link to its server.
    Server(Endpoint),
    /// For the pause to end before its server is dialled again.
    Retry(Endpoint),
    /// For bytes in either direction.
    Bytes,
}

/// A connection that is open.
#[derive(Drop)]
pub struct Conn<K: Link> {
    // It is dropped before the client, whose end makes room for another connection.
    server: Option<K>,
    pub client: K,
    /// None while no byte is held and neither end has come.
    relay: Option<Relay>,
    pub stage: ConnStage,
    pub client_flags: Flags,
    server_flags: Flags,
    /// Whether the client sent bytes after its header before there was a link to its server.
    has_sent: bool,
    /// How it is served.
    settings: Settings,
    /// How often its server was dialled again.
    retries: u64,
    /// How many of the bytes that its server is sent first are its header.
    header: usize,
    /// When the times of the sides began. That of the server is also the time of its dial, and of a pause.
    times: Times,
    /// Of which sides something was expected when that was last noted.
    waited_for: WaitedFor,
}

/// What is due of a connection.
#[derive(Clone, Copy, Debug)]
pub enum DueAction {
    /// Its server did not accept it in time.
    DialTimeout(Endpoint),
    /// Its server is dialled again.
    Retry(Endpoint),
    /// A side was silent for too long.
    End(Why),
}

impl<K: Link> Conn<K> {
    /// Of a client whose header is awaited.
    pub fn new(client: K) -> Conn<K>
        ensures stage { result.stage ≡ ConnStage.Header }
        ensures relay { result.relay ≡ None }
    {
        Conn {
            server: None,
            client,
            relay: None,
            stage: ConnStage::Header,
            client_flags: Flags::of_client(),
            server_flags: Flags::of_server(),
            has_sent: false,
            settings: Settings {
                client: 0,
                connect: 0,
                server: 0,
                retries: 0,
                redispatch: Redispatch::Never,
            },
            retries: 0,
            header: 0,
            times: Times {
                client: 0,
                server: 0,
            },
            waited_for: WaitedFor {
                client: false,
                server: false,
            },
        }
    }

    /// How it is served from now on.
    pub fn set_settings(&mut self, settings: Settings)
        ensures { self.new ≡ record self.old { settings = settings } }
    {
        self.settings = settings;
    }

    /// Its server was dialled. The time of the dial begins, unless it is over already.
    pub fn begin_dial(&mut self, now: u64)
        ensures { self.new.times ≡ dial_begun self.old.stage self.old.times now }
    {
        if let ConnStage::Server(_) = self.stage {
            self.times.server = now;
        }
    }

    /// Begins the pause before its server is dialled again; whether it may be, and another one is not to be asked for.
    pub fn begin_pause(&mut self, now: u64) -> bool
        ensures { IsTrue result → self.new.times.server ≡ now }
    {
        match self.stage {
            ConnStage::Server(to) if self.retries < self.settings.retries => {
                self.retries += 1;
                if self.is_to_move() {
                    return false;
                }
                self.times.server = now;
                self.stage = ConnStage::Retry(to);
                true
            }
            _ => false,
        }
    }

    /// Whether the next dial is to be of another server.
    fn is_to_move(&self) -> bool {
        let Settings {
            retries,
            redispatch,
            ..
        } = &self.settings;
        redispatch.is_move(self.retries, *retries)
    }

    /// The pause is over, and its server is dialled again.
    pub fn end_pause(&mut self, to: Endpoint)
        ensures { self.new.stage ≡ ConnStage.Server to }
    {
        self.stage = ConnStage::Server(to);
        self.server_flags = Flags::of_server();
    }

    /// Both links are read and written at the next turn, whether they were reported or not.
    pub fn expect_bytes(&mut self) {
        self.client_flags.reads = true;
        self.client_flags.writes = true;
        self.server_flags.reads = true;
        self.server_flags.writes = true;
    }

    /// Of which sides something is expected.
    fn waited_for(&self) -> WaitedFor
        ensures { result ≡ waited_for self.now.relay }
    {
        match &self.relay {
            Some(relay) => waited_for_by(relay),
            None => WaitedFor {
                client: true,
                server: true,
            },
        }
    }

    /// Notes which of the links moved bytes, and of which sides something is expected now.
    pub fn note_activity(&mut self, now: u64)
        ensures client { self.new.times.client ≡ time_begun self.old.times.client self.old.waited_for.client self.old.client_flags.is_active now }
        ensures server { self.new.times.server ≡ time_begun self.old.times.server self.old.waited_for.server self.old.server_flags.is_active now }
        ensures waited_for { self.new.waited_for ≡ waited_for self.old.relay }
        ensures relay { self.new.relay ≡ self.old.relay }
    {
        let was = self.waited_for;
        let client_is_active = self.client_flags.take_activity();
        let server_is_active = self.server_flags.take_activity();
        self.times = Times {
            client: time_begun(self.times.client, was.client, client_is_active, now),
            server: time_begun(self.times.server, was.server, server_is_active, now),
        };
        self.waited_for = self.waited_for();
    }

    /// How many bytes were written to its links since it was asked last.
    pub fn take_sent(&mut self) -> Sent {
        Sent {
            to_servers: self.server_flags.take_sent(),
            to_clients: self.client_flags.take_sent(),
        }
    }

    /// What is due, if anything is.
    pub fn due(&self, now: u64) -> Option<DueAction>
        ensures { result ≡ due_in self.now.stage self.now.settings self.now.times (waited_for self.now.relay) now }
    {
        match self.stage {
            ConnStage::Header => None,
            ConnStage::Server(to) => {
                let connect = self.settings.connect;
                is_overdue(now, self.dialled_side(connect)).then_some(DueAction::DialTimeout(to))
            }
            ConnStage::Retry(to) => {
                let pause = retry_pause(self.settings.connect);
                is_overdue(now, self.dialled_side(pause)).then_some(DueAction::Retry(to))
            }
            ConnStage::Bytes => overdue(now, self.client_side(), self.server_side()).map(
                DueAction::End,
            ),
        }
    }

    /// The first moment at which something may be due, by what is known now. Where bytes are passed on nothing is due
    /// before it, whatever is noted of the sides meanwhile; before that its stage changes, so it is looked at again.
    pub(crate) fn next_look(&self, now: u64) -> u64
        ensures { result ≡ next_look_in self.now.stage self.now.settings self.now.times
            (waited_for self.now.relay) now }
    {
        match self.stage {
            ConnStage::Header | ConnStage::Server(_) | ConnStage::Retry(_) => 0,
            ConnStage::Bytes => first_end_of_both(now, self.client_side(), self.server_side()),
        }
    }

    /// Its server, until it accepts the connection or is dialled again.
    fn dialled_side(&self, limit: u64) -> Side
        ensures { result ≡ dialled_side self.now.times limit }
    {
        Side {
            is_waited_for: true,
            since: self.times.server,
            limit,
        }
    }

    fn client_side(&self) -> Side
        ensures { result ≡ client_side self.now.settings self.now.times (waited_for self.now.relay) }
    {
        Side {
            is_waited_for: self.waited_for().client,
            since: self.times.client,
            limit: self.settings.client,
        }
    }

    fn server_side(&self) -> Side
        ensures { result ≡ server_side self.now.settings self.now.times (waited_for self.now.relay) }
    {
        Side {
            is_waited_for: self.waited_for().server,
            since: self.times.server,
            limit: self.settings.server,
        }
    }

    /// Whether the client has left before there was a link to its server, and nothing that it sent is to be passed on.
    pub fn has_left(&mut self) -> bool {
        self.client_flags.is_closed && !self.has_sent && self.client.has_left()
    }

    pub(crate) fn raise(&mut self, ready: &Ready) {
        if ready.of_server {
            self.server_flags.raise(ready);
        } else {
            self.client_flags.raise(ready);
        }
    }

    /// Whether one of its links failed, as far as the dial reported it.
    pub fn is_reset(&self) -> bool {
        self.client_flags.is_reset || self.server_flags.is_reset
    }

    /// It was offered a server, which is sent `send` before the stream; `rest` is what the client sent after its own
    /// header.
    pub fn offer(
        &mut self,
        spares: &mut Spares,
        to: Endpoint,
        send: &[u8],
        rest: &[u8],
    ) -> Result<(), AllocError>
        ensures lent { OnOk result (IsSomeAnd self.new.relay (λ relay. IsBegun relay (send.now ++ rest.now))) }
        ensures stage { OnOk result (self.new.stage ≡ ConnStage.Server to) }
    {
        self.relay = Some(spares.take(send, rest)?);
        self.has_sent = !rest.is_empty();
        self.header = send.len();
        self.stage = ConnStage::Server(to);
        Ok(())
    }

    /// It was offered another server, which is sent `send` before the stream, in place of the header for the one before.
    /// What the client sent follows. Whether there is room for it.
    pub fn offer_again(&mut self, to: Endpoint, send: &[u8]) -> bool
        ensures stage { IsTrue result → self.new.stage ≡ ConnStage.Server to }
        ensures lent { IsTrue result → (relay : Ways) → self.old.relay ≡ Some relay →
            IsSomeAnd self.new.relay (λ next. next.forth.bytes ≡ send.now ++ drop self.old.header relay.forth.bytes) }
    {
        let Some(relay) = &mut self.relay else {
            return false;
        };
        if !relay.restart(self.header, send) {
            return false;
        }
        self.header = send.len();
        self.stage = ConnStage::Server(to);
        self.server_flags = Flags::of_server();
        true
    }

    /// There is a link to its server. The times of both sides begin.
    pub fn connect(&mut self, server: K, now: u64)
        ensures stage { self.new.stage ≡ ConnStage.Bytes }
        ensures times { self.new.times ≡ record { client = now; server = now } }
        ensures waited_for { self.new.waited_for ≡ waited_for self.old.relay }
    {
        self.server = Some(server);
        self.stage = ConnStage::Bytes;
        self.times = Times {
            client: now,
            server: now,
        };
        self.waited_for = self.waited_for();
    }

    /// The relay of the connection, or a new one.
    fn take_relay(&mut self, spares: &mut Spares) -> Result<Relay, AllocError>
        ensures relay { IfOk result (λ relay. HasFlows self.old.relay relay) }
        ensures failed { OnErr result (self.old.relay ≡ None) }
        ensures rest { self.new ≡ record self.old { relay = None } }
    {
        match self.relay.take() {
            Some(relay) => Ok(relay),
            None => spares.take(&[], &[]),
        }
    }

    /// Keeps the relay, unless it holds nothing and neither end came.
    fn keep_relay(&mut self, spares: &mut Spares, relay: Relay)
        requires { self.old.relay ≡ None }
        ensures relay { HasFlows self.new.relay relay }
        ensures client { self.new.client ≡ self.old.client }
        ensures server { self.new.server ≡ self.old.server }
    {
        if relay.is_idle() {
            spares.give_back(relay);
        } else {
            self.relay = Some(relay);
        }
    }

    /// Passes bytes on in both directions, as far as its links are ready. `None` says that both directions are over.
    pub fn relay(&mut self, spares: &mut Spares, buffer: &mut [u8]) -> Option<Progress>
        ensures { (server : K) → self.old.server ≡ Some server → IsSomeAnd self.new.server (λ new_server.
            IsRelayed K.left K.held self.old.client server self.old.relay self.new.client new_server result self.new.relay) }
    {
        match self.take_relay(spares) {
            Ok(relay) => self.relay_by(spares, relay, buffer),
            Err(_) => Some(Progress::Fault),
        }
    }

    fn relay_by(
        &mut self,
        spares: &mut Spares,
        mut relay: Relay,
        buffer: &mut [u8],
    ) -> Option<Progress>
        requires { self.old.relay ≡ None }
        ensures { (server : K) → self.old.server ≡ Some server → IsSomeAnd self.new.server (λ new_server.
            IsRelayed K.left K.held self.old.client server (Some relay) self.new.client new_server result self.new.relay) }
    {
        let progress = self.pump_both(&mut relay, buffer);
        if relay.is_over() {
            spares.give_back(relay);
            return None;
        }
        self.keep_relay(spares, relay);
        Some(progress)
    }

    fn pump_both(&mut self, relay: &mut Relay, buffer: &mut [u8]) -> Progress
        ensures passes { (server : K) → self.old.server ≡ Some server → IsSomeAnd self.new.server (λ new_server.
            PassesOn K.left K.held self.old.client server (Some relay.old) self.new.client new_server (Some relay.new)) }
        ensures relay { self.new.relay ≡ self.old.relay }
    {
        let Some(server) = &mut self.server else {
            return Progress::Fault;
        };
        let forth = pump(
            relay,
            Way::Forth,
            &mut self.client,
            server,
            &mut self.client_flags,
            &mut self.server_flags,
            buffer,
        );
        let back = pump(
            relay,
            Way::Back,
            server,
            &mut self.client,
            &mut self.server_flags,
            &mut self.client_flags,
            buffer,
        );
        forth.and(back)
    }
}
