//! The addresses of sockets as those of a configuration, and back.
use addr_core::{Addr, Endpoint, Pair};
use std::net::{IpAddr, Ipv4Addr, Ipv6Addr, SocketAddr};

/// The address of a socket at that endpoint. An IPv6 address has no scope and no flow information.
pub fn socket_address(at: &Endpoint) -> SocketAddr {
    let address = match at.addr {
        Addr::V4(bits) => IpAddr::V4(Ipv4Addr::from_bits(bits)),
        Addr::V6(bits) => IpAddr::V6(Ipv6Addr::from_bits(bits)),
    };
    SocketAddr::new(address, at.port)
}

/// The endpoint of a socket.
pub fn endpoint_of(address: &SocketAddr) -> Endpoint {
    let addr = match address.ip() {
        IpAddr::V4(ip) => Addr::V4(ip.to_bits()),
        IpAddr::V6(ip) => Addr::V6(ip.to_bits()),
    };
    Endpoint {
        addr,
        port: address.port(),
    }
}

/// The IPv4 endpoint that an IPv6 one maps, as `[::ffff:192.0.2.1]:80` maps 192.0.2.1:80 (RFC 4291, section 2.5.5.2).
fn unmapped(at: &Endpoint) -> Option<Endpoint> {
    match at.addr {
        Addr::V4(_) => None,
        Addr::V6(bits) => Some(Endpoint {
            addr: Addr::V4(Ipv6Addr::from_bits(bits).to_ipv4_mapped()?.to_bits()),
            port: at.port,
        }),
    }
}

/// Whether a listener there takes connections to more than one address.
pub fn is_wildcard(at: &Endpoint) -> bool {
    match at.addr {
        Addr::V4(bits) => bits == 0,
        Addr::V6(bits) => bits == 0,
    }
}

/// The pair of a connection, if its ends are of one family.
///
/// A listener on `[::]` also takes IPv4 connections, both ends of which the system then states as IPv6 addresses that
/// map them. They are IPv4 addresses to rules, tables and PROXY headers, so where both ends are mapped, both are taken
/// back.
pub fn pair_of(peer: &Endpoint, local: &Endpoint) -> Option<Pair> {
    match (unmapped(peer), unmapped(local)) {
        (Some(source), Some(destination)) => Pair::of(source, destination),
        _ => Pair::of(*peer, *local),
    }
}
