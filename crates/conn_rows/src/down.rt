//! The servers that were reported down.
ghost use Rattle.std.specs.Prelude.{◌≡◌, Some, OnOk, OnErr};
ghost use Rattle.std.specs.List.{list_any};
ghost use Rattle.proxy_types.specs.ServerIdentity.{same_server};
ghost use Rattle.conn_model.specs.History.{marked_by, with_down, without_down};

use conn_model::event::Health;
use proxy_types::ServerIdentity;
use std::alloc::AllocError;

/// Whether a server is one of those.
fn has(down: &[ServerIdentity], server: &ServerIdentity) -> bool
    ensures { result ≡ list_any (same_server server.now) down.now }
{
    down.iter().any(|other| server.is_same(other))
}

fn add(down: &mut Vec<ServerIdentity>, server: ServerIdentity) -> Result<(), AllocError>
    ensures ok { OnOk result (down.new.items ≡ with_down server down.old.items) }
    ensures err { OnErr result (down.new.items ≡ down.old.items) }
{
    if has(down.as_slice(), &server) {
        return Ok(());
    }
    down.push(server)?;
    Ok(())
}

fn remove(down: &mut Vec<ServerIdentity>, server: &ServerIdentity)
    ensures { down.new.items ≡ without_down server.now down.old.items }
{
    down.retain(|other| !server.is_same(other));
}

/// A server is down from now on, or is not.
pub fn mark(
    down: &mut Vec<ServerIdentity>,
    health: Health,
    server: ServerIdentity,
) -> Result<(), AllocError>
    ensures ok { OnOk result (down.new.items ≡ marked_by (Some (server, health)) down.old.items) }
    ensures err { OnErr result (down.new.items ≡ down.old.items) }
{
    match health {
        Health::Down => add(down, server),
        Health::Up => {
            remove(down, &server);
            Ok(())
        }
    }
}
