//! The state in which a plan is opened.
ghost use Rattle.std.specs.Prelude.{◌≡◌, ◌≤◌, ◌++◌, flat_map, length, IfOk, OnOk};
ghost use Rattle.std.specs.List.{enumerate_from};
ghost use Rattle.proxy_types.specs.declared.limits.TheConstants.{MOST_SECTIONS};
ghost use Rattle.conn_model.specs.History.{listeners_of};

use conn_model::plain::Listener;
use list_core::Seq;
use plan_types::Frontend;
use std::alloc::{AllocError, Global};

/// Adds where a frontend listens.
fn push_listeners(
    listeners: &mut Seq<Listener>,
    number: u16,
    frontend: &Frontend,
) -> Result<(), AllocError>
    ensures { OnOk result (listeners.new ≡ listeners.old ++ listeners_of (number, frontend.now)) }
{
    for bind in frontend.binds.as_slice() {
        listeners.push(Listener {
            frontend: number,
            at: bind.at,
            accept_proxy: bind.accept_proxy,
        })?;
    }
    Ok(())
}

/// The listeners of all frontends, in written order.
pub fn listeners(alloc: Global, frontends: &[Frontend]) -> Result<Seq<Listener>, AllocError>
    requires { length frontends.now ≤ MOST_SECTIONS }
    ensures { IfOk result (λ all. all ≡ flat_map listeners_of (enumerate_from 0 frontends.now)) }
{
    let mut all = Seq::new(alloc);
    for (number, frontend) in frontends.iter().enumerate() {
        push_listeners(&mut all, number as u16, frontend)?;
    }
    Ok(all)
}
