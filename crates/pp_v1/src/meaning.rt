//! What a header says.

use addr_core::Pair;

/// What a PROXY header says of a connection (proxy-protocol.txt, section 2).
#[derive(Clone, Copy, Debug, PartialEq, Eq)]
pub enum Meaning {
    /// It declares no addresses: those of the connection itself count.
    Real,
    /// It declares the addresses and ports of the connection that was relayed.
    Declared(Pair),
}
