//! Books with no record yet.
ghost use Rattle.std.specs.Prelude.{◌≡◌, ◌<◌, ◌≤◌, ◌+◌, IfSome, vec_capacity, vec_len};
ghost use Rattle.conn_model.specs.Counts.{open_connections};
ghost use Rattle.rtrb.specs.Ring.{IsPair};

use addr_core::{Addr, Endpoint, Pair};
use book_core::Book;
use book_core::laws::open_connections_change;
use conn_core::Core;
use desk_core::Lease;
use record_core::Segment;
use rtrb::{Consumer, RingBuffer};
use std::alloc::Global;
use std::sync::ledger::Ledger;

/// A frontend that rejects 198.51.100.0/24 by its third line.
pub const RULE: &str =
    "frontend f\nbind 127.0.0.1:9000\ntcp-request connection reject if { src 198.51.100.0/24 }\ndefault_backend b\nbackend b\nserver s 10.0.0.20:80\n";

/// A book over the configuration, if it opens, and the other end of its ring, which has room for so many segments.
pub fn open_with_ring(
    alloc: Global,
    text: &str,
    segments: usize,
) -> Option<(Book, Consumer<Segment>)>
    ensures made { IfSome result (λ opened. opened.0.made ≡ 0) }
    ensures state { IfSome result (λ opened. open_connections opened.0.state ≡ 0) }
    ensures base { IfSome result (λ opened. open_connections opened.0.base ≡ 0) }
    ensures ring { IfSome result (λ opened. IsPair opened.0.segments opened.1) }
{
    open_connections_change();
    let Ok((producer, consumer)) = RingBuffer::new(alloc, segments) else {
        return None;
    };
    let Ok(core) = Core::open(alloc, text) else {
        return None;
    };
    let (core, _producer) = match Book::open(alloc, core, producer) {
        Ok(book) => return Some((book, consumer)),
        Err(failed) => failed.value,
    };
    core.end();
    None
}

/// A book over the configuration, if it opens, of which no segment is taken.
pub fn open_book(alloc: Global, text: &str) -> Option<Book>
    ensures made { IfSome result (λ book. book.made ≡ 0) }
    ensures state { IfSome result (λ book. open_connections book.state ≡ 0) }
    ensures base { IfSome result (λ book. open_connections book.base ≡ 0) }
{
    match open_with_ring(alloc, text, 1) {
        Some((book, _segments)) => Some(book),
        None => None,
    }
}

/// The addresses of a connection from a port of that address to a port of 127.0.0.1.
pub fn pair_from(source: u32, from: u16, to: u16) -> Option<Pair> {
    let source = Endpoint {
        addr: Addr::V4(source),
        port: from,
    };
    let destination = Endpoint {
        addr: Addr::V4(0x7f00_0001),
        port: to,
    };
    Pair::of(source, destination)
}

type Room<O> = (Vec<Lease<O>>, Vec<Vec<Lease<O>>>);

/// What may be the leases of three connections.
pub type Three<O> = (Option<Lease<O>>, Option<Lease<O>>, Option<Lease<O>>);

/// Lists with room for three leases, so that none of them is without a place.
pub fn room<O: Ledger>(alloc: Global) -> Option<Room<O>>
    ensures leases { IfSome result (λ r. (vec_len r.0 ≡ 0) × (3 ≤ vec_capacity r.0)) }
    ensures lists { IfSome result (λ r. (vec_len r.1 ≡ 0) × (1 ≤ vec_capacity r.1)) }
{
    let mut leases = Vec::new(alloc);
    let mut left = Vec::new(alloc);
    if leases.reserve(3).is_ok() && left.reserve(1).is_ok() {
        Some((leases, left))
    } else {
        leases.destroy_empty();
        left.destroy_empty();
        None
    }
}

/// Puts a lease, if there is one, into a list with room for it.
fn put<O: Ledger>(leases: &mut Vec<Lease<O>>, lease: Option<Lease<O>>)
    requires { vec_len leases.old < vec_capacity leases.old }
    ensures len { vec_len leases.new ≤ vec_len leases.old + 1 }
    ensures room { vec_capacity leases.new ≡ vec_capacity leases.old }
{
    if let Some(lease) = lease {
        leases.push_reserved(lease);
    }
}

/// The lists with these leases in them.
pub fn filled<O: Ledger>(lists: Room<O>, three: Three<O>) -> Vec<Vec<Lease<O>>>
    requires leases { (vec_len lists.0 ≡ 0) × (3 ≤ vec_capacity lists.0) }
    requires lists { (vec_len lists.1 ≡ 0) × (1 ≤ vec_capacity lists.1) }
{
    let (mut leases, mut left) = lists;
    let (one, other, third) = three;
    put(&mut leases, one);
    put(&mut leases, other);
    put(&mut leases, third);
    left.push_reserved(leases);
    left
}
