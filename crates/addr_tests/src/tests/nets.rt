//! Networks, alone and in an index.
use addr_core::{Addr, Net, read_addr, read_net};
use net_index::NetIndex;
use std::alloc::{AllocError, Global};

/// Networks and addresses, and whether the one holds the other.
static HELD: [(&str, &str, bool); 21] = [
    ("10.1.2.3/8", "10.9.9.9", true),
    ("10.1.2.3/8", "11.0.0.0", false),
    ("10.1.2.3/0", "255.255.255.255", true),
    ("10.1.2.3/32", "10.1.2.3", true),
    ("10.1.2.3/32", "10.1.2.2", false),
    ("10.1.2.3", "10.1.2.3", true),
    ("10.1.2.3", "10.1.2.2", false),
    ("192.0.2.0/31", "192.0.2.1", true),
    ("192.0.2.0/31", "192.0.2.2", false),
    ("2001:db8::/32", "2001:db8::1", true),
    ("2001:db8:ffff::1/32", "2001:db8::1", true),
    ("2001:db9::/32", "2001:db8::1", false),
    ("2001:db8::/127", "2001:db8::1", true),
    ("2001:db8::/128", "2001:db8::1", false),
    ("2001:db8::1", "2001:db8::1", true),
    ("::/0", "ffff:ffff:ffff:ffff:ffff:ffff:ffff:ffff", true),
    ("::/0", "0.0.0.0", false),
    ("0.0.0.0/0", "::", false),
    ("1.2.3.4", "::ffff:1.2.3.4", false),
    ("::ffff:0:0/96", "::ffff:1.2.3.4", true),
    ("::ffff:0:0/96", "1.2.3.4", false),
];

/// Networks that lie in one another, meet, and are apart.
static INDEXED: [&str; 8] = [
    "10.1.0.0/16",
    "192.0.2.128/25",
    "10.0.0.0/8",
    "2001:db8::/32",
    "255.255.255.255",
    "192.0.3.0/24",
    "2001:db8:1::/48",
    "ffff::/16",
];

/// Addresses, and whether one of these networks holds them.
static IN_INDEX: [(&str, bool); 17] = [
    ("10.1.2.3", true),
    ("11.0.0.0", false),
    ("9.255.255.255", false),
    ("10.0.0.0", true),
    ("10.255.255.255", true),
    ("192.0.2.127", false),
    ("192.0.2.128", true),
    ("192.0.3.255", true),
    ("192.0.4.0", false),
    ("255.255.255.255", true),
    ("0.0.0.0", false),
    ("2001:db8:1::5", true),
    ("2001:db8:ffff:ffff:ffff:ffff:ffff:ffff", true),
    ("2001:db9::", false),
    ("ffff:ffff:ffff:ffff:ffff:ffff:ffff:ffff", true),
    ("::", false),
    ("::a01:203", false),
];

/// Whether an address is held by a network, where the texts are those of both.
fn is_held(net: &str, addr: &str) -> Option<bool> {
    let net = read_net(net.as_bytes()).ok()?;
    let addr = read_addr(addr.as_bytes()).ok()?;
    Some(net.contains(&addr))
}

/// An index of the networks of a list.
fn index_of(alloc: Global, texts: &[&str]) -> Result<NetIndex, AllocError> {
    let mut nets = Vec::new(alloc);
    for text in texts {
        if let Ok(net) = read_net(text.as_bytes()) {
            nets.push(net)?;
        }
    }
    NetIndex::of(alloc, nets.as_slice())
}

/// The first address of which the index of the networks says something else.
fn wrong_in_index(
    alloc: Global,
    texts: &[&str],
    table: &[(&'static str, bool)],
) -> Result<Option<&'static str>, AllocError> {
    let index = index_of(alloc, texts)?;
    for (text, is_held) in table {
        let answer = read_addr(text.as_bytes()).map(|addr| index.holds(&addr));
        if index.nets().len() != texts.len() || answer != Ok(*is_held) {
            return Ok(Some(*text));
        }
    }
    Ok(None)
}

#[test]
fn addresses_that_networks_hold(rt: HostRuntime) {
    for (net, addr, answer) in &HELD {
        assert_eq!(rt; is_held(net, addr), Some(*answer), "{net} {addr}");
    }
    let inside = Addr::V6(0x2001_0DB8_0000_0000_0000_0000_0000_0001);
    let net = Net::of(inside, 32);
    assert!(rt; net.addr() == inside && net.bits() == 32 && inside.width() == 128);
}

#[test]
fn an_index_holds_what_its_networks_hold(rt: HostRuntime) {
    assert_eq!(rt; wrong_in_index(rt.alloc(), &INDEXED, &IN_INDEX), Ok(None));
}

#[test]
fn an_index_of_no_network_holds_nothing(rt: HostRuntime) {
    assert_eq!(rt;
        wrong_in_index(rt.alloc(), &[], &[("0.0.0.0", false)]),
        Ok(None)
    );
}
