//! How an open connection is served.
use plan_types::Redispatch;

/// How long a connection may be silent, in ms, 0 for any time, and how often its server is dialled again, by the version
/// that judges it.
#[derive(Clone, Copy, Debug, PartialEq, Eq)]
pub struct Settings {
    /// Its client, by the frontend.
    pub client: u64,
    /// Its server, until it accepts the connection, by the backend.
    pub connect: u64,
    /// Its server after that, by the backend.
    pub server: u64,
    /// How often its server is dialled again.
    pub retries: u64,
    /// Which of these times go to another server.
    pub redispatch: Redispatch,
}
