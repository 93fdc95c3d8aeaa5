//! The texts of decisions, and of connections that are lost or saved.
ghost use Rattle.std.specs.Prelude.{◌≡◌, ◌++◌, OnOk};
ghost use Rattle.whatif_core.specs.Deciding.{brief_text, decision_text, pair_text};
ghost use Rattle.whatif_core.specs.Reporting.{decisions_text, difference_line, parting_text, real_text, where_text};

use crate::decision::ComparedDecision;
use addr_core::Endpoint;
use conn_model::event::ConnId;
use event_text::{write_cause, write_endpoint, write_id};
use std::alloc::AllocError;
use text_core::decimal::append_decimal;

pub fn write_text(out: &mut Vec<u8>, text: &[u8]) -> Result<(), AllocError>
    ensures { OnOk result (out.new.items ≡ out.old.items ++ text.now) }
{
    out.extend_from_slice(text)
}

/// Appends a decision.
fn write_decision(out: &mut Vec<u8>, decision: &ComparedDecision) -> Result<(), AllocError>
    ensures { OnOk result (out.new.items ≡ out.old.items ++ decision_text decision.now) }
{
    match decision {
        ComparedDecision::Wait => out.extend_from_slice(b"wait"),
        ComparedDecision::Offer {
            backend,
            server,
            line,
        } => {
            out.extend_from_slice(b"offer ")?;
            out.extend_from_slice(backend.as_slice())?;
            out.extend_from_slice(b"/")?;
            out.extend_from_slice(server.as_slice())?;
            out.extend_from_slice(b" line ")?;
            append_decimal(out, u64::from(*line))
        }
        ComparedDecision::Refuse(cause) => {
            out.extend_from_slice(b"refuse ")?;
            write_cause(out, cause)
        }
    }
}

/// Appends a decision in short: an offer is named by its backend alone.
fn write_brief(out: &mut Vec<u8>, decision: &ComparedDecision) -> Result<(), AllocError>
    ensures { OnOk result (out.new.items ≡ out.old.items ++ brief_text decision.now) }
{
    match decision {
        ComparedDecision::Wait => out.extend_from_slice(b"wait"),
        ComparedDecision::Offer { backend, .. } => {
            out.extend_from_slice(b"offer ")?;
            out.extend_from_slice(backend.as_slice())
        }
        ComparedDecision::Refuse(cause) => {
            out.extend_from_slice(b"refuse ")?;
            write_cause(out, cause)
        }
    }
}

/// Appends what was decided and what would be, in short.
pub fn write_pair(
    out: &mut Vec<u8>,
    was: &ComparedDecision,
    would: &ComparedDecision,
) -> Result<(), AllocError>
    ensures { OnOk result (out.new.items ≡ out.old.items ++ pair_text (was.now, would.now)) }
{
    out.extend_from_slice(b"was ")?;
    write_brief(out, was)?;
    out.extend_from_slice(b", would be ")?;
    write_brief(out, would)
}

fn write_real(out: &mut Vec<u8>, real: Option<Endpoint>) -> Result<(), AllocError>
    ensures { OnOk result (out.new.items ≡ out.old.items ++ real_text real) }
{
    match real {
        Some(peer) => {
            out.extend_from_slice(b" real ")?;
            write_endpoint(out, &peer)
        }
        None => Ok(()),
    }
}

/// Appends the connection, the moment in ms, and the peer, if that is known.
fn write_where(
    out: &mut Vec<u8>,
    moment: u64,
    id: &ConnId,
    real: Option<Endpoint>,
) -> Result<(), AllocError>
    ensures { OnOk result (out.new.items ≡ out.old.items ++ where_text moment id.now real) }
{
    out.extend_from_slice(b"conn ")?;
    write_id(out, id)?;
    out.extend_from_slice(b" at ")?;
    append_decimal(out, moment)?;
    write_real(out, real)
}

/// Appends both decisions and the end of their line.
fn write_decisions(
    out: &mut Vec<u8>,
    was: &ComparedDecision,
    would: &ComparedDecision,
) -> Result<(), AllocError>
    ensures { OnOk result (out.new.items ≡ out.old.items ++ decisions_text (was.now, would.now)) }
{
    out.extend_from_slice(b": was ")?;
    write_decision(out, was)?;
    out.extend_from_slice(b", would be ")?;
    write_decision(out, would)?;
    out.extend_from_slice(b"\n")
}

/// Appends the line of two decisions on a connection that differ: with the moment in ms, and the peer, if that is known.
/// If memory runs out, the front of the line may be there.
pub fn write_difference(
    out: &mut Vec<u8>,
    moment: u64,
    id: &ConnId,
    real: Option<Endpoint>,
    was: &ComparedDecision,
    would: &ComparedDecision,
) -> Result<(), AllocError>
    ensures { OnOk result (out.new.items ≡ out.old.items ++ difference_line moment id.now real (was.now, would.now)) }
{
    write_where(out, moment, id, real)?;
    write_decisions(out, was, would)
}

/// Appends the line of a connection that is lost or saved, with the moment in ms; and nothing if it is neither.
/// If memory runs out, the front of the line may be there.
pub fn write_parting(
    out: &mut Vec<u8>,
    moment: u64,
    id: &ConnId,
    lost: bool,
    saved: bool,
) -> Result<(), AllocError>
    ensures { OnOk result (out.new.items ≡ out.old.items ++ parting_text moment id.now lost saved) }
{
    if lost {
        write_where(out, moment, id, None)?;
        write_text(out, b": was moved, would be closed failed\n")
    } else if saved {
        write_where(out, moment, id, None)?;
        write_text(out, b": was closed failed, would be moved\n")
    } else {
        Ok(())
    }
}
