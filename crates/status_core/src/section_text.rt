//! What is open of each section, as samples.
use crate::outline::{BackendOutline, FrontendOutline, Outline, ServerOutline, TableOutline};
use crate::page::{Kind, Label, Page};
use crate::status::ServerHealth;
use plan_types::Section;
use std::alloc::AllocError;

fn frontend_label(frontend: &FrontendOutline) -> Label<'_> {
    Label::of(b"frontend", frontend.name.as_slice())
}

fn backend_label(backend: &BackendOutline) -> Label<'_> {
    Label::of(b"backend", backend.name.as_slice())
}

fn server_label(server: &ServerOutline) -> Label<'_> {
    Label::of(b"server", server.name.as_slice())
}

/// Tables of a frontend and of a backend may have one name.
fn section_label(table: &TableOutline) -> Label<'_> {
    match table.section {
        Section::Frontend => Label::of(b"section", b"frontend"),
        Section::Backend => Label::of(b"section", b"backend"),
    }
}

fn table_label(table: &TableOutline) -> Label<'_> {
    Label::of(b"table", table.name.as_slice())
}

/// What is open to each that was asked for, in the order of `Outline::question`, from the first on.
#[derive(Drop)]
pub(crate) struct OpenCounts<'a> {
    counts: &'a [u64],
    place: usize,
}

impl<'a> OpenCounts<'a> {
    pub(crate) fn of(counts: &'a [u64]) -> OpenCounts<'a> {
        OpenCounts { counts, place: 0 }
    }

    fn next(&mut self) -> u64 {
        let count = match self.counts.get(self.place) {
            Some(count) => *count,
            None => 0,
        };
        self.place = self.place.wrapping_add(1);
        count
    }
}

/// Writes what is open of the frontends.
pub(crate) fn write_frontends(
    page: &mut Page<'_>,
    frontends: &[FrontendOutline],
    counts: &mut OpenCounts<'_>,
) -> Result<(), AllocError> {
    page.begin(
        b"l4proxy_frontend_connections",
        Kind::Gauge,
        b"Connections of the frontend that are open.",
    )?;
    for frontend in frontends {
        page.sample(&[frontend_label(frontend)], counts.next())?;
    }
    page.begin(
        b"l4proxy_frontend_connections_limit",
        Kind::Gauge,
        b"How many connections of the frontend may be open.",
    )?;
    for frontend in frontends {
        page.sample(&[frontend_label(frontend)], frontend.limit)?;
    }
    Ok(())
}

/// Writes what is open to the backends, and then to their servers.
pub(crate) fn write_backends(
    page: &mut Page<'_>,
    backends: &[BackendOutline],
    counts: &mut OpenCounts<'_>,
) -> Result<(), AllocError> {
    page.begin(
        b"l4proxy_backend_connections",
        Kind::Gauge,
        b"Open connections that were offered a server of the backend.",
    )?;
    for backend in backends {
        page.sample(&[backend_label(backend)], counts.next())?;
    }
    page.begin(
        b"l4proxy_server_connections",
        Kind::Gauge,
        b"Open connections that were offered the server.",
    )?;
    for backend in backends {
        for server in &backend.servers {
            page.sample(
                &[backend_label(backend), server_label(server)],
                counts.next(),
            )?;
        }
    }
    write_limits(page, backends)
}

fn write_limits(page: &mut Page<'_>, backends: &[BackendOutline]) -> Result<(), AllocError> {
    page.begin(
        b"l4proxy_server_connections_limit",
        Kind::Gauge,
        b"How many connections of the server may be open. Absent without a limit.",
    )?;
    for backend in backends {
        for server in &backend.servers {
            if server.limit != 0 {
                page.sample(
                    &[backend_label(backend), server_label(server)],
                    server.limit,
                )?;
            }
        }
    }
    Ok(())
}

/// Writes which of the servers that are checked are up.
pub(crate) fn write_health(
    page: &mut Page<'_>,
    outline: &Outline,
    health: &[ServerHealth],
) -> Result<(), AllocError> {
    page.begin(
        b"l4proxy_server_up",
        Kind::Gauge,
        b"1 while the server is up, 0 while it is reported down. Absent where it is not checked.",
    )?;
    for one in health {
        let Some(backend) = outline.backends.get(usize::from(one.backend)) else {
            continue;
        };
        if let Some(server) = backend.servers.get(usize::from(one.server)) {
            page.sample(
                &[backend_label(backend), server_label(server)],
                u64::from(one.is_up),
            )?;
        }
    }
    Ok(())
}

/// Writes how many entries of the tables are in memory, and how many there may be.
pub(crate) fn write_tables(
    page: &mut Page<'_>,
    tables: &[TableOutline],
    entries: &[u64],
) -> Result<(), AllocError> {
    page.begin(
        b"l4proxy_table_entries",
        Kind::Gauge,
        b"Entries of the stick table that are in memory. One that expired is, until another one takes its place.",
    )?;
    for (table, count) in tables.iter().zip(entries.iter()) {
        page.sample(&[section_label(table), table_label(table)], *count)?;
    }
    page.begin(
        b"l4proxy_table_size",
        Kind::Gauge,
        b"How many entries the stick table may have.",
    )?;
    for table in tables {
        page.sample(&[section_label(table), table_label(table)], table.size)?;
    }
    Ok(())
}
