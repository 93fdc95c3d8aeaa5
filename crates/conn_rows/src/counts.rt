//! How many connections are open.
ghost use Rattle.std.specs.Prelude.{◌≡◌, ◌≤◌, ◌<◌, ◌^◌, length};
ghost use Rattle.std.specs.Str.{bytes_eq};
ghost use Rattle.keyed_list.specs.Entries.{IsFew};
ghost use Rattle.proxy_types.specs.declared.limits.TheConstants.{MOST_SECTIONS};
ghost use Rattle.conn_model.specs.Counts.{total};
ghost use Rattle.conn_rows.specs.Counts.{open_stored};

use crate::frontend::FrontendState;
use text_core::is_same_name;

fn has_name(own: &FrontendState, name: &[u8]) -> bool
    ensures { result ≡ bytes_eq own.now.name name.now }
{
    is_same_name(own.name(), name)
}

/// How many connections of a frontend are open, if it has the name.
fn open_if(own: &FrontendState, name: &[u8]) -> u64
    ensures value { result ≡ open_stored name.now own.now }
    ensures few { IsFew result }
{
    let count = own.count();
    if has_name(own, name) { count } else { 0 }
}

/// How many connections of the frontends of that name are open.
pub fn open_named(frontends: &[FrontendState], name: &[u8]) -> u64
    requires { length frontends.now ≤ MOST_SECTIONS }
    ensures value { result ≡ total (open_stored name.now) frontends.now }
    ensures few { result < 2 ^ 63 }
{
    let mut count = 0;
    for own in frontends {
        count += open_if(own, name);
    }
    count
}
