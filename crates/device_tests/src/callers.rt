//! A caller of a relay.
ghost use Rattle.std.specs.Prelude.{◌≡◌, ◌≤◌, ◌++◌, [], Err, length, IfOk};
ghost use Rattle.device_tests.specs.declared.callers.TheConstants.{ROOM};

use device_core::{Input, Output};
use relay_core::{FlowFault, Relay, Way};
use std::alloc::{AllocError, Global};

/// How many bytes a relay holds for each direction at most.
pub const ROOM: usize = 64;

/// A relay whose server is sent these bytes before what its client sends. Without memory there is none.
pub fn begin_relay(alloc: Global, send: &[u8]) -> Result<Relay, AllocError>
    requires { length send.now ≤ ROOM }
    ensures { IfOk result (λ relay. relay.forth.bytes ≡ send.now ++ []) }
{
    Relay::new(alloc, ROOM, send, &[])
}

/// Reads once from a client and writes once to its server; whether the server has all that the client sent. If reading
/// fails, nothing is lost or written. If writing fails, the relay holds what was read.
pub fn pass_on<I: Input, O: Output>(
    relay: &mut Relay,
    client: &mut I,
    server: &mut O,
) -> Result<bool, FlowFault>
    ensures other { relay.new.back ≡ relay.old.back }
    ensures unread { result ≡ Err FlowFault.Read → relay.new.forth ≡ relay.old.forth }
{
    let mut piece = [0; ROOM];
    relay.pass(Way::Forth, client, server, &mut piece)?;
    Ok(relay.is_done(Way::Forth))
}
