//! The state of a running proxy as text.
use crate::counter_text::{
    write_accepted, write_closed, write_offers, write_records, write_refused, write_reloads,
    write_reports, write_traffic,
};
use crate::outline::Outline;
use crate::page::{Kind, Label, Page, Style};
use crate::section_text::{
    OpenCounts, write_backends, write_frontends, write_health, write_tables,
};
use crate::status::{CrewStatus, ProxyStatus};
use std::alloc::AllocError;

/// What is known of the process.
#[derive(Clone, Copy, Debug)]
pub struct Process<'a> {
    /// The version of the program.
    pub version: &'a str,
    /// When it was started, in ms since 1970.
    pub started: u64,
}

fn write_process(page: &mut Page<'_>, process: &Process<'_>) -> Result<(), AllocError> {
    page.begin(
        b"l4proxy_build_info",
        Kind::Gauge,
        b"Always 1. The version of the program is in its label.",
    )?;
    page.sample(&[Label::of(b"version", process.version.as_bytes())], 1)?;
    page.begin(
        b"process_start_time_seconds",
        Kind::Gauge,
        b"When the program was started, in seconds since 1970.",
    )?;
    page.seconds_sample(process.started)
}

fn write_versions(page: &mut Page<'_>, version: u64, kept: u64) -> Result<(), AllocError> {
    page.begin(
        b"l4proxy_config_version",
        Kind::Gauge,
        b"The number of the version of the configuration that is in force.",
    )?;
    page.sample(&[], version)?;
    page.begin(
        b"l4proxy_config_versions_kept",
        Kind::Gauge,
        b"Versions of the configuration that are kept: the one in force, and those that judge an open connection.",
    )?;
    page.sample(&[], kept)
}

fn write_page(
    page: &mut Page<'_>,
    process: &Process<'_>,
    status: &ProxyStatus,
) -> Result<(), AllocError> {
    let outline = status.outline.as_ref();
    let crew = &status.crew;
    let mut counts = OpenCounts::of(crew.connections.as_slice());
    write_process(page, process)?;
    write_versions(page, status.version, crew.versions)?;
    write_frontends(page, outline.frontends.as_slice(), &mut counts)?;
    write_backends(page, outline.backends.as_slice(), &mut counts)?;
    write_health(page, outline, status.health.as_slice())?;
    write_tables(page, outline.tables.as_slice(), crew.entries.as_slice())?;
    write_counters(page, outline, crew)
}

fn write_counters(
    page: &mut Page<'_>,
    outline: &Outline,
    crew: &CrewStatus,
) -> Result<(), AllocError> {
    let decisions = &crew.tally.decisions;
    write_accepted(
        page,
        outline.frontends.as_slice(),
        crew.tally.accepted.as_slice(),
    )?;
    write_offers(page, decisions)?;
    write_refused(page, &crew.tally)?;
    write_closed(page, &decisions.closes)?;
    write_reports(page, &decisions.reports)?;
    write_traffic(page, &crew.traffic)?;
    write_records(page, &crew.records)?;
    write_reloads(page, &crew.reloads)
}

/// Appends the state in the text format of Prometheus. Where memory runs out, the front of that text may be there.
pub fn write_metrics(
    out: &mut Vec<u8>,
    process: &Process<'_>,
    status: &ProxyStatus,
) -> Result<(), AllocError> {
    write_page(&mut Page::new(out, Style::Metrics), process, status)
}

/// Appends the same samples for an operator, one in a line after the name of the program. Where memory runs out, the
/// front of that text may be there.
pub fn write_status(
    out: &mut Vec<u8>,
    process: &Process<'_>,
    status: &ProxyStatus,
) -> Result<(), AllocError> {
    write_page(&mut Page::new(out, Style::Status), process, status)
}
