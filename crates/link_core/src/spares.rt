//! Relays that no connection uses at the moment.
ghost use Rattle.std.specs.Prelude.{◌++◌, IfOk};
ghost use Rattle.relay_core.specs.Relay.{IsBegun};

use crate::stream::FLOW;
use relay_core::Relay;
use std::alloc::{AllocError, Global};

/// How many of them a worker keeps.
const MOST_SPARES: usize = 16;

/// The relays of a worker that no connection uses. A connection whose relay holds nothing needs none, so that a
/// connection without traffic takes no memory for one.
#[derive(Drop)]
pub struct Spares {
    alloc: Global,
    relays: Vec<Relay>,
}

impl Spares {
    pub fn new(alloc: Global) -> Result<Spares, AllocError> {
        Ok(Spares {
            alloc,
            relays: Vec::with_capacity(alloc, MOST_SPARES)?,
        })
    }

    /// A relay that sends the server these bytes first, which are not more than a flow holds. Nothing of the
    /// connection that had it before is in it.
    pub fn take(&mut self, send: &[u8], rest: &[u8]) -> Result<Relay, AllocError>
        ensures { IfOk result (λ relay. IsBegun relay (send.now ++ rest.now)) }
    {
        if send.len() > FLOW || rest.len() > FLOW - send.len() {
            return Err(AllocError);
        }
        let Some(mut relay) = self.relays.pop() else {
            return Relay::new(self.alloc, FLOW, send, rest);
        };
        if relay.capacity() < send.len() + rest.len() {
            return Relay::new(self.alloc, FLOW, send, rest);
        }
        relay.reset(send, rest);
        Ok(relay)
    }

    /// Keeps a relay that a connection does not need any more, unless there are enough of them.
    pub fn give_back(&mut self, relay: Relay) {
        if self.relays.len() < MOST_SPARES {
            let _full = self.relays.push(relay);
        }
    }
}
