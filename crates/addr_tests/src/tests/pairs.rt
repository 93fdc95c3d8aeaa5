//! Pairs that several tests start from.
use addr_core::{Pair, read_endpoint};

/// The pair of two endpoints, each as text.
pub fn pair(source: &[u8], destination: &[u8]) -> Option<Pair> {
    let source = read_endpoint(source).ok()?;
    let destination = read_endpoint(destination).ok()?;
    Pair::of(source, destination)
}
