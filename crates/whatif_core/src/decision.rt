//! What a balancer decides of a connection, and what comes of one whose server is out of reach.
ghost use Rattle.std.specs.Prelude.{◌≡◌, Some, IfOk, option_map};
ghost use Rattle.whatif_core.specs.Deciding.{alike, decision_with, failure_outcome, is_ended, is_lost, is_moved};
ghost use Rattle.whatif_core.specs.Deciding.{is_other_server, is_saved, offer_of, same_kind};
ghost use Rattle.conn_model.specs.History.{id_of};
ghost use Rattle.conn_core.specs.Summaries.{names_in};

use conn_core::ServerNames;
use conn_model::event::ConnId;
use conn_model::reply::{Cause, Said};
use list_core::Seq;
use std::alloc::{AllocError, Global};

/// What is decided of a connection, at its accept or once its header is whole.
#[derive(Debug, Drop)]
pub enum ComparedDecision {
    /// It has to wait for its PROXY header, or for the rest of it.
    Wait,
    /// It is offered a server.
    Offer {
        /// The name of the backend.
        backend: Seq<u8>,
        /// The name of the server in it.
        server: Seq<u8>,
        /// The line of the server.
        line: u32,
    },
    /// It is refused.
    Refuse(Cause),
}

/// What comes of a connection whose server is out of reach.
#[derive(Clone, Copy, Debug, PartialEq, Eq)]
pub enum AfterFailure {
    /// It is offered another server of its backend.
    Moved,
    /// It ends.
    Ended,
}

/// Of whom a reply speaks.
pub fn named(said: &Said) -> Option<ConnId>
    ensures { result ≡ id_of said.now }
{
    match said {
        Said::Wait { id, .. }
        | Said::Offer { id, .. }
        | Said::Refuse { id, .. }
        | Said::Up { id }
        | Said::Closed { id, .. } => Some(*id),
        Said::Reloaded { .. } | Said::Marked { .. } => None,
    }
}

/// An offer of the server of these names; they are empty if there are none.
fn offer(
    alloc: Global,
    names: Option<ServerNames<'_>>,
    line: u32,
) -> Result<ComparedDecision, AllocError>
    ensures { IfOk result (λ decision. decision ≡ offer_of (option_map names_in names.entry) line) }
{
    match names {
        Some(names) => Ok(ComparedDecision::Offer {
            backend: Seq::duplicate_of(alloc, names.backend)?,
            server: Seq::duplicate_of(alloc, names.server)?,
            line,
        }),
        None => Ok(ComparedDecision::Offer {
            backend: Seq::new(alloc),
            server: Seq::new(alloc),
            line,
        }),
    }
}

/// What a reply decides of its connection, which was offered the server of these names.
pub fn decision_in(
    alloc: Global,
    said: &Said,
    names: Option<ServerNames<'_>>,
) -> Result<Option<ComparedDecision>, AllocError>
    ensures { IfOk result (λ decision. decision ≡ decision_with (option_map names_in names.entry) said.now) }
{
    match said {
        Said::Wait { .. } => Ok(Some(ComparedDecision::Wait)),
        Said::Offer { line, .. } => {
            let offered = offer(alloc, names, *line)?;
            Ok(Some(offered))
        }
        Said::Refuse { cause, .. } => Ok(Some(ComparedDecision::Refuse(*cause))),
        Said::Up { .. } | Said::Closed { .. } | Said::Reloaded { .. } | Said::Marked { .. } => Ok(
            None,
        ),
    }
}

/// Whether two refusals are for the same kind of cause. The numbers of lines are not compared.
fn same_kind(cause: &Cause, other: &Cause) -> bool
    ensures { result ≡ same_kind cause.now other.now }
{
    match cause {
        Cause::Line(_) => matches!(other, Cause::Line(_)),
        Cause::Header(_) => matches!(other, Cause::Header(_)),
        Cause::Expired => matches!(other, Cause::Expired),
        Cause::NoBackend(_) => matches!(other, Cause::NoBackend(_)),
        Cause::NoServer(_) => matches!(other, Cause::NoServer(_)),
    }
}

/// Whether both wait, both are offered a server of a backend of one name, or both are refused for the same kind of cause.
pub fn alike(was: &ComparedDecision, would: &ComparedDecision) -> bool
    ensures { result ≡ alike was.now would.now }
{
    match was {
        ComparedDecision::Wait => matches!(would, ComparedDecision::Wait),
        ComparedDecision::Offer { backend, .. } => match would {
            ComparedDecision::Offer { backend: other, .. } => {
                backend.as_slice() == other.as_slice()
            }
            ComparedDecision::Wait | ComparedDecision::Refuse(_) => false,
        },
        ComparedDecision::Refuse(cause) => match would {
            ComparedDecision::Refuse(other) => same_kind(cause, other),
            ComparedDecision::Wait | ComparedDecision::Offer { .. } => false,
        },
    }
}

/// Whether these are offers of different servers of one backend.
pub fn is_other_server(was: &ComparedDecision, would: &ComparedDecision) -> bool
    ensures { result ≡ is_other_server was.now would.now }
{
    match was {
        ComparedDecision::Offer {
            backend,
            server,
            line: _,
        } => match would {
            ComparedDecision::Offer {
                backend: other_backend,
                server: other_server,
                line: _,
            } => {
                backend.as_slice() == other_backend.as_slice()
                    && server.as_slice() != other_server.as_slice()
            }
            ComparedDecision::Wait | ComparedDecision::Refuse(_) => false,
        },
        ComparedDecision::Wait | ComparedDecision::Refuse(_) => false,
    }
}

/// What comes of a connection whose server is out of reach, by the reply.
pub fn failure_outcome(said: &Said) -> AfterFailure
    ensures { result ≡ failure_outcome said.now }
{
    match said {
        Said::Offer { .. } => AfterFailure::Moved,
        _ => AfterFailure::Ended,
    }
}

fn is_moved(outcome: Option<AfterFailure>) -> bool
    ensures { result ≡ is_moved outcome }
{
    match outcome {
        Some(AfterFailure::Moved) => true,
        Some(AfterFailure::Ended) | None => false,
    }
}

fn is_ended(outcome: Option<AfterFailure>) -> bool
    ensures { result ≡ is_ended outcome }
{
    match outcome {
        Some(AfterFailure::Ended) => true,
        Some(AfterFailure::Moved) | None => false,
    }
}

/// Whether the record moved the connection, and the trial ends it.
pub fn is_lost(came: Option<AfterFailure>, would_come: Option<AfterFailure>) -> bool
    ensures { result ≡ is_lost came would_come }
{
    is_moved(came) && is_ended(would_come)
}

/// Whether the record ended the connection, and the trial moves it.
pub fn is_saved(came: Option<AfterFailure>, would_come: Option<AfterFailure>) -> bool
    ensures { result ≡ is_saved came would_come }
{
    is_ended(came) && is_moved(would_come)
}
