//! Frontends with their rules, backends with their servers, and stick tables.
use acl_core::{Acl, When};
use addr_core::Endpoint;
use list_core::Seq;
use proxy_types::{KeyType, Method, Stores};

/// What a rule does once its condition holds (HAProxy manual, `tcp-request connection`).
#[derive(Clone, Copy, Debug, PartialEq, Eq)]
pub enum Action {
    Accept,
    Reject,
    /// The counter, 0 to 2, tracks the source address in the table of that number (`track-sc0`).
    Track(u8, u16),
    /// The connection has to begin with a PROXY header (`expect-proxy layer4`). The list goes on.
    ExpectProxy,
}

/// A rule, with its line.
#[derive(Debug, Drop)]
pub struct Rule {
    pub line: u32,
    pub action: Action,
    pub when: When,
}

/// A `use_backend` line.
#[derive(Debug, Drop)]
pub struct Choice {
    pub line: u32,
    pub when: When,
    /// The number of the backend.
    pub backend: u16,
}

/// A `bind` line: where connections are accepted.
#[derive(Clone, Copy, Debug, PartialEq, Eq)]
pub struct Bind {
    pub at: Endpoint,
    /// Whether each connection begins with a PROXY header.
    pub accept_proxy: bool,
}

/// A `frontend` section.
#[derive(Debug, Drop)]
pub struct Frontend {
    pub name: Seq<u8>,
    pub line: u32,
    pub binds: Seq<Bind>,
    /// How many connections may be open.
    pub limit: u64,
    /// The line that says so.
    pub limit_line: u32,
    /// How long a client may be silent, in ms, 0 for any time (HAProxy manual, `timeout client`).
    pub client_timeout: u64,
    pub connection_rules: Seq<Rule>,
    pub session_rules: Seq<Rule>,
    /// The names that `acl` lines declare, in the order of their first declarations, each with the tests
    /// of all its declarations. Conditions ask for them by their numbers in this list, from 0.
    pub acls: Seq<Acl>,
    pub choices: Seq<Choice>,
    /// The number of the default backend.
    pub default: Option<u16>,
}

/// The kind of section in which a table is written.
#[derive(Clone, Copy, Debug, PartialEq, Eq)]
pub enum Section {
    Frontend,
    Backend,
}

/// A `stick-table` line.
#[derive(Debug, Drop)]
pub struct Table {
    pub section: Section,
    pub name: Seq<u8>,
    pub kind: KeyType,
    /// How many entries there may be.
    pub size: u64,
    pub stores: Stores,
    /// How long an entry is kept that nobody uses, in ms, 0 for any time (HAProxy manual, `stick-table`).
    pub expire: u64,
}

/// How a server is checked (HAProxy manual, `check`).
#[derive(Clone, Copy, Debug, PartialEq, Eq)]
pub struct Check {
    /// How much time is between two checks, in ms, from 1 on (`inter`).
    pub inter: u64,
    /// How many checks in a row fail until the server is down, from 1 on.
    pub fall: u64,
    /// How many succeed until it is up again, from 1 on.
    pub rise: u64,
}

/// Which of the times that a server is dialled again go to another server (HAProxy manual, `option redispatch`).
#[derive(Clone, Copy, Debug, PartialEq, Eq)]
pub enum Redispatch {
    Never,
    /// The last one.
    Last,
    /// Each of that number, which is not 0.
    Every(u64),
}

/// How often a connection is moved to another server at most.
pub const MOST_MOVES: usize = 8;

impl Redispatch {
    ghost use Rattle.std.specs.Prelude.{◌≡◌};
    ghost use Rattle.plan_types.specs.Moves.{is_move, moves_of};

    /// How often a connection may be moved to another server, where a server may be dialled again so often.
    pub fn moves(&self, retries: u64) -> u64
        ensures { result ≡ moves_of retries self.now }
    {
        match self {
            Redispatch::Never => 0,
            Redispatch::Last => retries.min(1),
            Redispatch::Every(number) => match retries.checked_div(*number) {
                Some(times) => times.min(MOST_MOVES as u64),
                None => 0,
            },
        }
    }

    /// Whether that retry, where there are so many, goes to another server. They are counted from 1 on.
    pub fn is_move(&self, retry: u64, retries: u64) -> bool
        ensures { result ≡ is_move retry retries self.now }
    {
        match self {
            Redispatch::Never => false,
            Redispatch::Last => retry == retries,
            Redispatch::Every(number) => match (
                retry.checked_div(*number),
                retry.checked_rem(*number),
            ) {
                (Some(times), Some(0)) => times <= MOST_MOVES as u64,
                _ => false,
            },
        }
    }
}

/// A `server` line.
#[derive(Debug, Drop)]
pub struct Server {
    pub name: Seq<u8>,
    pub line: u32,
    pub to: Endpoint,
    /// 0 to 256.
    pub weight: u16,
    /// How many connections may be open, 0 for any number.
    pub limit: u64,
    pub disabled: bool,
    pub send_proxy: bool,
    pub send_proxy_v2: bool,
    /// None where it is not checked.
    pub check: Option<Check>,
}

/// A `backend` section.
#[derive(Debug, Drop)]
pub struct Backend {
    pub name: Seq<u8>,
    pub line: u32,
    pub method: Method,
    /// How long a server may take to accept a connection, in ms, 0 for any time (HAProxy manual, `timeout connect`).
    pub connect_timeout: u64,
    /// How long a server may be silent, in ms, 0 for any time (HAProxy manual, `timeout server`).
    pub server_timeout: u64,
    /// How often a server that is out of reach may be dialled again (HAProxy manual, `retries`).
    pub retries: u64,
    pub redispatch: Redispatch,
    pub servers: Seq<Server>,
}

/// A whole configuration. Frontends, backends and tables are in the order of the text; tables of
/// frontends and backends are mixed.
#[derive(Debug, Drop)]
pub struct Plan {
    pub frontends: Seq<Frontend>,
    pub backends: Seq<Backend>,
    pub tables: Seq<Table>,
}
