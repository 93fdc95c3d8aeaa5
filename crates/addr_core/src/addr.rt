//! Addresses and endpoints.
ghost use Rattle.std.specs.Prelude.{◌≡◌};
ghost use Rattle.addr_core.specs.Family.{same_family};
ghost use Rattle.addr_core.specs.Same.{same_addr, same_endpoint};
ghost use Rattle.addr_core.specs.Prefix.{width_of};

/// The most bytes that the text of an address has: eight groups of four digits, and the colons
/// between them.
pub const MOST_ADDR_BYTES: usize = 39;

/// The most bytes that the text of an endpoint has: an address of IPv6 in brackets, a colon and a
/// port of five digits.
pub const MOST_ENDPOINT_BYTES: usize = 47;

/// An internet address. The number of an IPv4 address is that of its four octets in network byte
/// order, so that 127.0.0.1 is 0x7F00_0001 (RFC 791, section 3.2). The number of an IPv6 address is
/// that of its sixteen octets, so that ::1 is 1 (RFC 4291, section 2). An IPv4 address and the IPv6
/// address ::ffff:a.b.c.d that maps it are two addresses.
#[derive(Clone, Copy, Debug, PartialEq, Eq, Hash)]
pub enum Addr {
    V4(u32),
    V6(u128),
}

impl Addr {
    /// How many bits an address of the family has.
    pub fn width(&self) -> u8
        ensures { result ≡ width_of self.now }
    {
        match *self {
            Addr::V4(_) => 32,
            Addr::V6(_) => 128,
        }
    }

    /// Whether both are addresses of IPv4, or both of IPv6.
    pub fn is_same_family(&self, other: &Addr) -> bool
        ensures { result ≡ same_family self.now other.now }
    {
        match (*self, *other) {
            (Addr::V4(_), Addr::V4(_)) => true,
            (Addr::V6(_), Addr::V6(_)) => true,
            (Addr::V4(_), Addr::V6(_)) => false,
            (Addr::V6(_), Addr::V4(_)) => false,
        }
    }

    /// Whether both are one address of one family.
    pub fn is_same(&self, other: &Addr) -> bool
        ensures { result ≡ same_addr self.now other.now }
    {
        match (*self, *other) {
            (Addr::V4(a), Addr::V4(b)) => a == b,
            (Addr::V6(a), Addr::V6(b)) => a == b,
            (Addr::V4(_), Addr::V6(_)) | (Addr::V6(_), Addr::V4(_)) => false,
        }
    }
}

/// An address with a port of TCP.
#[derive(Clone, Copy, Debug, PartialEq, Eq, Hash)]
pub struct Endpoint {
    pub addr: Addr,
    pub port: u16,
}

impl Endpoint {
    /// Whether both are one port of one address.
    pub fn is_same(&self, other: &Endpoint) -> bool
        ensures { result ≡ same_endpoint self.now other.now }
    {
        self.addr.is_same(&other.addr) && self.port == other.port
    }
}
