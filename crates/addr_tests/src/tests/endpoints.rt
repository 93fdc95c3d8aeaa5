//! Texts of endpoints, and pairs of them.
use crate::tests::pairs::pair;
use addr_core::{Addr, Endpoint, read_endpoint, write_endpoint};

/// Texts, the endpoint of each, and how that is written.
static READ: [(&str, Addr, u16, &str); 7] = [
    ("1.2.3.4:8080", Addr::V4(0x0102_0304), 8080, "1.2.3.4:8080"),
    ("0.0.0.0:0", Addr::V4(0), 0, "0.0.0.0:0"),
    ("[::1]:80", Addr::V6(1), 80, "[::1]:80"),
    ("[::]:0", Addr::V6(0), 0, "[::]:0"),
    (
        "[2001:DB8::1]:65535",
        Addr::V6(0x2001_0DB8_0000_0000_0000_0000_0000_0001),
        65535,
        "[2001:db8::1]:65535",
    ),
    (
        "[::ffff:1.2.3.4]:1",
        Addr::V6(0xFFFF_0102_0304),
        1,
        "[::ffff:102:304]:1",
    ),
    (
        "[ffff:ffff:ffff:ffff:ffff:ffff:ffff:ffff]:65535",
        Addr::V6(u128::MAX),
        65535,
        "[ffff:ffff:ffff:ffff:ffff:ffff:ffff:ffff]:65535",
    ),
];

/// Whether the pair of two texts has the endpoints of these texts, which differ.
fn has_its_endpoints(source: &[u8], destination: &[u8]) -> bool {
    match pair(source, destination) {
        Some(pair) => {
            read_endpoint(source) == Ok(pair.source())
                && read_endpoint(destination) == Ok(pair.destination())
                && !pair.source().is_same(&pair.destination())
        }
        None => false,
    }
}

#[test]
fn endpoints_that_are_read_and_written(rt: HostRuntime) {
    for (text, addr, port, written) in &READ {
        let (addr, port) = (*addr, *port);
        let endpoint = Endpoint { addr, port };
        assert_eq!(rt; read_endpoint(text.as_bytes()), Ok(endpoint), "{text}");
        assert_eq!(rt; write_endpoint(&endpoint).as_str(), *written);
    }
}

#[test]
fn pairs_have_one_family(rt: HostRuntime) {
    let (four, six) = (b"10.0.0.1:50000".as_slice(), b"[::1]:1".as_slice());
    assert!(rt; has_its_endpoints(four, b"10.0.0.2:80"));
    assert!(rt; has_its_endpoints(six, b"[::2]:1"));
    assert!(rt; pair(four, six).is_none());
    assert!(rt; pair(six, four).is_none());
}
