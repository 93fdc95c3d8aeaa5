//! What was counted, as samples. Words are those of the record.
use crate::counts::{Closes, HeaderFaults, Reports, Sent};
use crate::decisions::Decisions;
use crate::line_counts::LineCounts;
use crate::outline::FrontendOutline;
use crate::page::{Kind, Label, Page};
use crate::status::{Records, Reloads, Traffic};
use crate::tally::Tally;
use std::alloc::AllocError;

/// Writes how many connections of each frontend were accepted.
pub(crate) fn write_accepted(
    page: &mut Page<'_>,
    frontends: &[FrontendOutline],
    accepted: &[u64],
) -> Result<(), AllocError> {
    page.begin(
        b"l4proxy_frontend_accepted_total",
        Kind::Counter,
        b"Connections that were accepted by the frontend.",
    )?;
    for (number, frontend) in frontends.iter().enumerate() {
        let count = match accepted.get(number) {
            Some(count) => *count,
            None => 0,
        };
        page.sample(&[Label::of(b"frontend", frontend.name.as_slice())], count)?;
    }
    Ok(())
}

fn write_lines(
    page: &mut Page<'_>,
    cause: &'static [u8],
    counts: &LineCounts,
) -> Result<(), AllocError> {
    let cause = Label::of(b"cause", cause);
    for (line, count) in counts.lines().iter() {
        page.line_sample(cause, *line, *count)?;
    }
    if counts.other() > 0 {
        page.sample(&[cause, Label::of(b"line", b"other")], counts.other())?;
    }
    Ok(())
}

fn write_faults(page: &mut Page<'_>, faults: &HeaderFaults) -> Result<(), AllocError> {
    let cause = Label::of(b"cause", b"header");
    let counts: [(&'static [u8], u64); 9] = [
        (b"NotProxy", faults.not_proxy),
        (b"TooLong", faults.too_long),
        (b"BadLine", faults.bad_line),
        (b"BadAddress", faults.bad_address),
        (b"BadPort", faults.bad_port),
        (b"BadVersion", faults.bad_version),
        (b"BadCommand", faults.bad_command),
        (b"BadFamily", faults.bad_family),
        (b"ShortBlock", faults.short_block),
    ];
    for (fault, count) in &counts {
        page.sample(&[cause, Label::of(b"fault", fault)], *count)?;
    }
    Ok(())
}

/// Writes how many connections were refused, by cause, and by line or by the fault of the header.
pub(crate) fn write_refused(page: &mut Page<'_>, tally: &Tally) -> Result<(), AllocError> {
    page.begin(
        b"l4proxy_refused_total",
        Kind::Counter,
        b"Connections that were refused, by the cause that the record has.",
    )?;
    write_lines(page, b"line", &tally.by_line)?;
    write_lines(page, b"nobackend", &tally.no_backend)?;
    write_lines(page, b"noserver", &tally.no_server)?;
    page.sample(&[Label::of(b"cause", b"expired")], tally.decisions.expired)?;
    write_faults(page, &tally.decisions.header_faults)
}

/// Writes how many connections were closed, by the note of the record.
pub(crate) fn write_closed(page: &mut Page<'_>, closes: &Closes) -> Result<(), AllocError> {
    page.begin(
        b"l4proxy_closed_total",
        Kind::Counter,
        b"Connections that were closed, by the note that the record has.",
    )?;
    let counts: [(&'static [u8], u64); 6] = [
        (b"done", closes.done),
        (b"fault", closes.fault),
        (b"stopped", closes.stopped),
        (b"failed", closes.failed),
        (b"client-timeout", closes.client_timeout),
        (b"server-timeout", closes.server_timeout),
    ];
    for (why, count) in &counts {
        page.sample(&[Label::of(b"why", why)], *count)?;
    }
    Ok(())
}

fn write_one(
    page: &mut Page<'_>,
    name: &'static [u8],
    help: &[u8],
    number: u64,
) -> Result<(), AllocError> {
    page.begin(name, Kind::Counter, help)?;
    page.sample(&[], number)
}

/// Writes how many connections were offered a server.
pub(crate) fn write_offers(page: &mut Page<'_>, decisions: &Decisions) -> Result<(), AllocError> {
    write_one(
        page,
        b"l4proxy_offered_total",
        b"Connections that were offered a server.",
        decisions.offered,
    )?;
    write_one(
        page,
        b"l4proxy_moved_total",
        b"Offers of another server after one that was out of reach.",
        decisions.moved,
    )?;
    write_one(
        page,
        b"l4proxy_connected_total",
        b"Connections that their server accepted.",
        decisions.connected,
    )
}

/// Writes how often servers were reported down or up.
pub(crate) fn write_reports(page: &mut Page<'_>, reports: &Reports) -> Result<(), AllocError> {
    page.begin(
        b"l4proxy_server_reports_total",
        Kind::Counter,
        b"How often a server that is checked was reported down or up.",
    )?;
    page.sample(&[Label::of(b"health", b"down")], reports.down)?;
    page.sample(&[Label::of(b"health", b"up")], reports.up)
}

/// Writes what the workers do beside their decisions.
pub(crate) fn write_traffic(page: &mut Page<'_>, traffic: &Traffic) -> Result<(), AllocError> {
    write_one(
        page,
        b"l4proxy_failed_dials_total",
        b"Dials that a server refused or did not answer in time.",
        traffic.failed_dials,
    )?;
    write_one(
        page,
        b"l4proxy_retries_total",
        b"Dials that were made again after one that failed.",
        traffic.retries,
    )?;
    write_sent(page, &traffic.sent)
}

/// Writes how many bytes were written.
fn write_sent(page: &mut Page<'_>, sent: &Sent) -> Result<(), AllocError> {
    page.begin(
        b"l4proxy_sent_bytes_total",
        Kind::Counter,
        b"Bytes that were written to clients and to servers.",
    )?;
    page.sample(&[Label::of(b"to", b"client")], sent.to_clients)?;
    page.sample(&[Label::of(b"to", b"server")], sent.to_servers)
}

/// Writes what became of the record.
pub(crate) fn write_records(page: &mut Page<'_>, records: &Records) -> Result<(), AllocError> {
    write_one(
        page,
        b"l4proxy_records_total",
        b"Records of decisions that were made.",
        records.made,
    )?;
    write_one(
        page,
        b"l4proxy_records_written_total",
        b"Records that were written to standard output.",
        records.written,
    )?;
    page.begin(
        b"l4proxy_records_waiting",
        Kind::Gauge,
        b"Records that are neither written nor lost yet.",
    )?;
    page.sample(&[], records.waiting)?;
    page.begin(
        b"l4proxy_segments_waiting",
        Kind::Gauge,
        b"Segments of the record that are not written yet.",
    )?;
    page.sample(&[], records.segments_waiting)?;
    write_one(
        page,
        b"l4proxy_segments_refused_total",
        b"Segments of the record that could not be written and are lost.",
        records.segments_refused,
    )
}

/// Writes what became of reloads.
pub(crate) fn write_reloads(page: &mut Page<'_>, reloads: &Reloads) -> Result<(), AllocError> {
    page.begin(
        b"l4proxy_reloads_total",
        Kind::Counter,
        b"Reloads that were accepted or refused.",
    )?;
    page.sample(&[Label::of(b"result", b"accepted")], reloads.accepted)?;
    page.sample(&[Label::of(b"result", b"refused")], reloads.refused)
}
