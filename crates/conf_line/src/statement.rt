//! What the lines of a configuration say.
use acl_core::{Test, When};
use addr_core::Endpoint;
use proxy_types::{KeyType, Method, Stores};
use text_core::Word;

/// The kind of a section.
#[derive(Clone, Copy)]
pub enum SectionKind {
    /// Before any section.
    Outside,
    Global,
    Defaults,
    Frontend,
    Backend,
}

/// The two lists of rules of a frontend (HAProxy manual, `tcp-request`).
#[derive(Clone, Copy)]
pub enum Ruleset {
    Connection,
    Session,
}

/// What a rule does once it applies (HAProxy manual, `tcp-request connection`).
#[derive(Drop)]
pub enum ActionWords<'a> {
    Accept,
    Reject,
    Track(TrackWords<'a>),
    /// A PROXY header has to come first (`expect-proxy layer4`, a rule of connections alone).
    ExpectProxy,
}

/// A source address is tracked (HAProxy manual, `track-sc0`).
#[derive(Drop)]
pub struct TrackWords<'a> {
    /// The counter, 0 to 2.
    pub counter: u8,
    /// The section whose table it is, the rule's own where none is named.
    pub table: Option<Word<'a>>,
}

/// The words of a `stick-table` line.
#[derive(Clone, Copy)]
pub struct TableWords {
    pub keys: KeyType,
    /// How many entries there may be, from 1 on.
    pub size: u64,
    pub stores: Stores,
    /// How long an entry is kept that nobody uses, in ms, 0 for any time.
    pub expire: u64,
}

/// An option of a `stick-table` line.
#[derive(Drop)]
pub enum TableOption {
    Keys(KeyType),
    Size(u64),
    Store(Stores),
    /// In ms, from 1 on.
    Expire(u64),
}

/// An option of a `server` line.
#[derive(Drop)]
pub enum ServerOption {
    Weight(u16),
    MaxConn(u64),
    Disabled,
    SendProxy,
    SendProxyV2,
    Check,
    /// In ms.
    Inter(u64),
    Fall(u64),
    Rise(u64),
}

/// The words of a `server` line.
#[derive(Drop)]
pub struct ServerWords<'a> {
    pub name: Word<'a>,
    pub to: Endpoint,
    /// 0 to 256.
    pub weight: Option<u16>,
    /// How many connections may be open, 0 for any number.
    pub limit: Option<u64>,
    pub disabled: bool,
    pub send_proxy: bool,
    pub send_proxy_v2: bool,
    /// Whether the server is checked (HAProxy manual, `check`).
    pub check: bool,
    /// How much time is between two checks, in ms, from 1 on.
    pub inter: Option<u64>,
    /// How many checks in a row fail until the server is down, from 1 on.
    pub fall: Option<u64>,
    /// How many succeed until it is up again, from 1 on.
    pub rise: Option<u64>,
}

/// What a `timeout` line bounds (HAProxy manual, `timeout client`, `timeout connect`, `timeout server`).
#[derive(Clone, Copy, Debug, PartialEq, Eq)]
pub enum TimeoutKind {
    /// How long a server may take to accept a connection.
    Connect,
    /// How long a client may send nothing and take nothing.
    Client,
    /// The same of a server.
    Server,
}

/// Of the number of a `retries` line, and of that after `option redispatch`.
pub const MOST_RETRIES: u64 = 100;

/// Of `inter`, in ms: a day.
pub const MOST_INTERVAL: u64 = 86_400_000;

/// Of `fall` and `rise`.
pub const MOST_CHECKS: u64 = 255;

/// What a line says.
#[derive(Drop)]
pub enum Statement<'a> {
    /// It has no word, or is read and has no effect. A tree has no such item.
    Nothing,
    Global,
    Defaults,
    Frontend(Word<'a>),
    Backend(Word<'a>),
    /// How many connections may be open.
    MaxConn(u64),
    /// A time in ms, 0 for no bound.
    Timeout(TimeoutKind, u64),
    /// How often a server that is out of reach may be dialled again (HAProxy manual, `retries`).
    Retries(u64),
    /// Of these times the last one goes to another server, or each of that number does, where one is given; none for 0
    /// (HAProxy manual, `option redispatch`).
    Redispatch(Option<u64>),
    DefaultBackend(Word<'a>),
    Balance(Method),
    /// Where connections are accepted, and whether each begins with a PROXY header.
    Bind(Endpoint, bool),
    /// A name, and a test that it means.
    Acl(Word<'a>, Test),
    Rule(Ruleset, ActionWords<'a>, When),
    /// The backend that is used, and when.
    UseBackend(Word<'a>, When),
    StickTable(TableWords),
    Server(ServerWords<'a>),
}

/// What a line says by its words alone.
#[derive(Drop)]
pub struct LineReading<'a> {
    pub statement: Statement<'a>,
    /// A word that may be given once is given twice.
    pub repeats: bool,
    /// A number is greater than its limit.
    pub exceeds: bool,
}
