//! The line of a connection that ended.
ghost use Rattle.std.specs.Prelude.{◌≡◌, ◌++◌, Option, Some, is_some, IfOk, OnOk};
ghost use Rattle.audit_core.specs.Line.{audit_text, front_text, offer_text, written_line};

use addr_core::Endpoint;
use conn_model::event::ConnId;
use conn_model::reply::{Reply, Said};
use event_text::{write_cause, write_endpoint, write_id, write_why};
use list_core::Seq;
use std::alloc::{AllocError, Global};
use text_core::decimal::append_decimal;

fn write_front(out: &mut Vec<u8>, id: &ConnId, peer: &Endpoint) -> Result<(), AllocError>
    ensures { OnOk result (out.new.items ≡ out.old.items ++ front_text id.now peer.now) }
{
    out.extend_from_slice(b"conn ")?;
    write_id(out, id)?;
    out.extend_from_slice(b" real ")?;
    write_endpoint(out, peer)?;
    out.extend_from_slice(b" ")
}

fn write_offer(out: &mut Vec<u8>, offered: Option<(Endpoint, u32)>) -> Result<(), AllocError>
    ensures { OnOk result (out.new.items ≡ out.old.items ++ offer_text offered) }
{
    let Some((source, line)) = offered else {
        return Ok(());
    };
    out.extend_from_slice(b"src ")?;
    write_endpoint(out, &source)?;
    out.extend_from_slice(b" line ")?;
    append_decimal(out, u64::from(line))?;
    out.extend_from_slice(b" ")
}

/// Appends the line of a connection, without its end, if the reply ends it, and says whether it does. If memory
/// runs out, the front of that line may be there.
pub fn write_audit_line(
    out: &mut Vec<u8>,
    real: &Endpoint,
    offered: Option<(Endpoint, u32)>,
    reply: &Reply,
) -> Result<bool, AllocError>
    ensures ends { IfOk result (λ ends. ends ≡ is_some (audit_text real.now offered reply.now.said)) }
    ensures text { OnOk result (out.new.items ≡ out.old.items ++ written_line (audit_text real.now offered reply.now.said)) }
{
    match &reply.said {
        Said::Wait { .. }
        | Said::Offer { .. }
        | Said::Up { .. }
        | Said::Reloaded { .. }
        | Said::Marked { .. } => Ok(false),
        Said::Refuse { id, used: _, cause } => {
            write_front(out, id, real)?;
            out.extend_from_slice(b"refuse ")?;
            write_cause(out, cause)?;
            Ok(true)
        }
        Said::Closed { id, why } => {
            write_front(out, id, real)?;
            write_offer(out, offered)?;
            out.extend_from_slice(b"closed ")?;
            write_why(out, why)?;
            Ok(true)
        }
    }
}

/// The line of a connection, without its end, if the reply ends it: its peer, and, if it was offered a server, the
/// source that was judged and the server's line.
pub fn audit_line(
    alloc: Global,
    real: &Endpoint,
    offered: Option<(Endpoint, u32)>,
    reply: &Reply,
) -> Result<Option<Seq<u8>>, AllocError>
    ensures { IfOk result (λ line. line ≡ audit_text real.now offered reply.now.said) }
{
    let mut out = Vec::new(alloc);
    if write_audit_line(&mut out, real, offered, reply)? {
        return Ok(Some(Seq::of(out)));
    }
    Ok(None)
}
