//! The sections of a configuration whose state is told, with their names and limits.
use conn_model::ask::Ask;
use list_core::{Duplicate, Seq};
use plan_types::{Backend, Frontend, Plan, Section, Server, Table};
use std::alloc::{AllocError, Global};

#[derive(Debug, Drop)]
pub struct FrontendOutline {
    pub name: Seq<u8>,
    /// How many connections may be open.
    pub limit: u64,
}

#[derive(Debug, Drop)]
pub struct ServerOutline {
    pub name: Seq<u8>,
    /// How many connections may be open, 0 for any number.
    pub limit: u64,
}

#[derive(Debug, Drop)]
pub struct BackendOutline {
    pub name: Seq<u8>,
    pub servers: Vec<ServerOutline>,
}

#[derive(Debug, Drop)]
pub struct TableOutline {
    /// The kind of section that it is written in.
    pub section: Section,
    /// The name of that section.
    pub name: Seq<u8>,
    /// How many entries it may have.
    pub size: u64,
}

/// What is asked for of a crew.
#[derive(Debug, Drop)]
pub struct Question {
    /// Of what it is asked how many connections are open.
    pub asks: Vec<Ask>,
    /// Of how many stick tables it is asked how many entries are in memory, from the first on.
    pub tables: u16,
}

/// The sections of a configuration: frontends by the numbers that they have for good, and the others in written order.
#[derive(Debug, Drop)]
pub struct Outline {
    pub frontends: Vec<FrontendOutline>,
    pub backends: Vec<BackendOutline>,
    pub tables: Vec<TableOutline>,
}

fn frontend_outline(alloc: Global, frontend: &Frontend) -> Result<FrontendOutline, AllocError> {
    Ok(FrontendOutline {
        name: frontend.name.duplicate(alloc)?,
        limit: frontend.limit,
    })
}

fn server_outline(alloc: Global, server: &Server) -> Result<ServerOutline, AllocError> {
    Ok(ServerOutline {
        name: server.name.duplicate(alloc)?,
        limit: server.limit,
    })
}

fn backend_outline(alloc: Global, backend: &Backend) -> Result<BackendOutline, AllocError> {
    let mut servers = Vec::with_capacity(alloc, backend.servers.len())?;
    for server in backend.servers.as_slice() {
        servers.push(server_outline(alloc, server)?)?;
    }
    Ok(BackendOutline {
        name: backend.name.duplicate(alloc)?,
        servers,
    })
}

fn table_outline(alloc: Global, table: &Table) -> Result<TableOutline, AllocError> {
    Ok(TableOutline {
        section: table.section,
        name: table.name.duplicate(alloc)?,
        size: table.size,
    })
}

/// How many there are, as their numbers are counted. A configuration has at most 64 sections of a kind, of 64 servers.
fn count(len: usize) -> u16 {
    u16::try_from(len).unwrap_or(u16::MAX)
}

impl Outline {
    /// That of a configuration that is not known.
    pub fn none(alloc: Global) -> Outline {
        Outline {
            frontends: Vec::new(alloc),
            backends: Vec::new(alloc),
            tables: Vec::new(alloc),
        }
    }

    /// That of a configuration, with the frontends in written order.
    pub fn of(alloc: Global, plan: &Plan) -> Result<Outline, AllocError> {
        let mut outline = Outline::none(alloc);
        for frontend in plan.frontends.as_slice() {
            outline.frontends.push(frontend_outline(alloc, frontend)?)?;
        }
        for backend in plan.backends.as_slice() {
            outline.backends.push(backend_outline(alloc, backend)?)?;
        }
        for table in plan.tables.as_slice() {
            outline.tables.push(table_outline(alloc, table)?)?;
        }
        Ok(outline)
    }

    /// Puts its frontends in the order of those of the configuration before, whose numbers they keep.
    pub fn follow(&mut self, before: &Outline) {
        for (number, known) in before.frontends.iter().enumerate() {
            let found = self.frontends.iter().position(|frontend| frontend.name.as_slice()
                == known.name.as_slice());
            if let Some(place) = found {
                if number < self.frontends.len() {
                    self.frontends.swap(number, place);
                }
            }
        }
    }

    /// What is asked for of it: the entries of each table, and how many connections are open of each frontend, then to each
    /// backend, and then to each server of the first backend, of the second one, and so on.
    pub fn question(&self, alloc: Global) -> Result<Question, AllocError> {
        let mut asks = Vec::new(alloc);
        for number in 0..count(self.frontends.len()) {
            asks.push(Ask::Frontend(number))?;
        }
        for number in 0..count(self.backends.len()) {
            asks.push(Ask::Backend(number))?;
        }
        for number in 0..count(self.backends.len()) {
            self.ask_servers(&mut asks, number)?;
        }
        Ok(Question {
            asks,
            tables: count(self.tables.len()),
        })
    }

    /// Asks for the servers of the backend of that number.
    fn ask_servers(&self, asks: &mut Vec<Ask>, number: u16) -> Result<(), AllocError> {
        if let Some(backend) = self.backends.get(usize::from(number)) {
            for place in 0..count(backend.servers.len()) {
                asks.push(Ask::Server(number, place))?;
            }
        }
        Ok(())
    }
}
