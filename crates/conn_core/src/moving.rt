//! Another server for a connection whose server is out of reach.
ghost use Rattle.std.specs.Prelude.{◌≡◌, ◌≤◌, ◌∷◌, length, option_map};
ghost use Rattle.plan_types.specs.declared.plan.TheConstants.{MOST_MOVES};
ghost use Rattle.plan_types.specs.Sound.{IsSoundPlan};
ghost use Rattle.conn_model.specs.Answer.{backend_at};
ghost use Rattle.conn_model.specs.declared.plain.Assignment.{Assignment};
ghost use Rattle.conn_model.specs.declared.plain.Plain.{Plain};
ghost use Rattle.conn_model.specs.declared.plain.Row.{Row};
ghost use Rattle.conn_rows.specs.Versions.{AreSound};
ghost use Rattle.conn_core.specs.Counts.{IsStateOf};
ghost use Rattle.conn_core.specs.Moving.{other_offer, IsPendingIn};

use crate::outcome::{Offer, offer_of};
use arrayvec::ArrayVec;
use conn_rows::{PendingOffer, Rows, item, line_place};
use plan_types::{MOST_MOVES, Plan};

/// How many servers a connection is not offered again at most: the one that it has, and those before.
const MOST_FAILED: usize = MOST_MOVES + 1;

/// The number of the backend of a plan that has the server of that line.
fn backend_number(plan: &Plan, line: u32) -> Option<u16>
    requires { IsSoundPlan plan.now }
    ensures { result ≡ option_map (λ at. at.0) (backend_at plan.now line) }
{
    let place = line_place(plan.backends.as_slice(), line)?;
    u16::try_from(place).ok()
}

/// The lines of the servers that a connection is not offered again.
fn failed_lines(pending: &PendingOffer<'_>) -> ArrayVec<u32, MOST_FAILED>
    requires { length pending.now.failed.now ≤ MOST_MOVES }
    ensures { result ≡ record { items = pending.now.line ∷ pending.now.failed.now } }
{
    let mut lines = ArrayVec::new();
    lines.push(pending.line);
    match lines.try_extend_from_slice(pending.failed) {
        Ok(()) => lines,
        Err(_) => unreachable!(),
    }
}

/// The offer of another server of its backend, by the version of its accept, if that backend has one for it and says that it
/// may be moved once more.
pub fn other_offer(rows: &Rows, pending: &PendingOffer<'_>) -> Option<Offer>
    requires { AreSound rows.now.versions }
    ensures { (p : Plain) (row : Row) (given : Assignment) → IsStateOf p rows.now → IsPendingIn pending.now row given →
        result ≡ other_offer p row given }
{
    let version = rows.version(pending.version)?;
    let number = backend_number(&version.plan, pending.line)?;
    let backend = item(version.plan.backends.as_slice(), number)?;
    if pending.failed.len() as u64 >= backend.redispatch.moves(backend.retries) {
        return None;
    }
    let lines = failed_lines(pending);
    let source = pending.judged.source().addr;
    let place = rows.pick_other(pending.version, number, lines.as_slice(), &source)?;
    let server = item(backend.servers.as_slice(), place)?;
    Some(offer_of(place, server, pending.judged))
}
