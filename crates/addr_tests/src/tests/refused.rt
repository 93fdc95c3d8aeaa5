//! Texts that are no addresses, endpoints or networks, and the fault of each.
use addr_core::{AddrFault, read_addr, read_endpoint, read_net};

/// What a text is read as.
#[derive(Clone, Copy, Debug)]
enum Kind {
    Address,
    Endpoint,
    Net,
}

static REFUSED: [(Kind, &str, AddrFault); 81] = [
    (Kind::Address, "", AddrFault::Empty),
    (Kind::Address, "01.2.3.4", AddrFault::LeadingZero),
    (Kind::Address, "1.2.3.00", AddrFault::LeadingZero),
    (Kind::Address, "1.2.3", AddrFault::BadGroups),
    (Kind::Address, "1.2.3.4.5", AddrFault::BadGroups),
    (Kind::Address, "1..2.3", AddrFault::BadGroups),
    (Kind::Address, "1.2.3.", AddrFault::BadGroups),
    (Kind::Address, "1.2.3.256", AddrFault::OutOfRange),
    (
        Kind::Address,
        "1.2.3.99999999999999999999",
        AddrFault::OutOfRange,
    ),
    (Kind::Address, "1.2.3.x", AddrFault::BadDigit),
    (Kind::Address, "1.2.3.0x", AddrFault::BadDigit),
    (Kind::Address, "300.01.x.4", AddrFault::OutOfRange),
    (Kind::Address, " 1.2.3.4", AddrFault::BadDigit),
    (Kind::Address, ":", AddrFault::BadGroups),
    (Kind::Address, ":::", AddrFault::BadGroups),
    (Kind::Address, "::::", AddrFault::BadGroups),
    (Kind::Address, "1:::2", AddrFault::BadGroups),
    (Kind::Address, "1::2::3", AddrFault::BadGroups),
    (Kind::Address, ":1::2", AddrFault::BadGroups),
    (Kind::Address, "1::2:", AddrFault::BadGroups),
    (Kind::Address, ":1:2:3:4:5:6:7:8", AddrFault::BadGroups),
    (Kind::Address, "1:2:3:4:5:6:7:8:", AddrFault::BadGroups),
    (Kind::Address, "1:2:3:4:5:6:7", AddrFault::BadGroups),
    (Kind::Address, "1:2:3:4:5:6:7:8:9", AddrFault::BadGroups),
    (Kind::Address, "1:2:3:4::5:6:7:8", AddrFault::BadGroups),
    (Kind::Address, "1.2.3.4::", AddrFault::BadGroups),
    (Kind::Address, "1.2.3.4:1:2:3:4:5:6", AddrFault::BadGroups),
    (Kind::Address, "::1.2.3.4:5", AddrFault::BadGroups),
    (Kind::Address, "::1.2.3", AddrFault::BadGroups),
    (Kind::Address, "::1.2..4", AddrFault::BadGroups),
    (Kind::Address, "1:2:3:4:5:6:7:1.2.3.4", AddrFault::BadGroups),
    (Kind::Address, "12345", AddrFault::BadGroups),
    (Kind::Address, "12345:1", AddrFault::BadGroups),
    (Kind::Address, "::12345", AddrFault::OutOfRange),
    (Kind::Address, "::00001", AddrFault::OutOfRange),
    (Kind::Address, "12345::1.2.3", AddrFault::OutOfRange),
    (Kind::Address, "::1.2.3.256", AddrFault::OutOfRange),
    (Kind::Address, "::1.2.03.4", AddrFault::LeadingZero),
    (Kind::Address, "::1.2.3.a", AddrFault::BadDigit),
    (Kind::Address, "::g", AddrFault::BadDigit),
    (Kind::Address, ":::g", AddrFault::BadDigit),
    (Kind::Address, "12345::1%eth0", AddrFault::BadDigit),
    (Kind::Address, "::1/64", AddrFault::BadDigit),
    (Kind::Address, "[::1]", AddrFault::BadDigit),
    (Kind::Address, " ::1", AddrFault::BadDigit),
    (Kind::Endpoint, "", AddrFault::Empty),
    (Kind::Endpoint, ":80", AddrFault::Empty),
    (Kind::Endpoint, "1.2.3.4", AddrFault::BadPort),
    (Kind::Endpoint, "1.2.3.4:", AddrFault::BadPort),
    (Kind::Endpoint, "1.2.3.4:080", AddrFault::BadPort),
    (Kind::Endpoint, "1.2.3.4:65536", AddrFault::BadPort),
    (Kind::Endpoint, "1.2.3.4:80:80", AddrFault::BadPort),
    (Kind::Endpoint, "1.2.3.4:+80", AddrFault::BadPort),
    (Kind::Endpoint, "1.2.3:x", AddrFault::BadGroups),
    (Kind::Endpoint, "[", AddrFault::BadPort),
    (Kind::Endpoint, "[::1]", AddrFault::BadPort),
    (Kind::Endpoint, "[::1]80", AddrFault::BadPort),
    (Kind::Endpoint, "[::1", AddrFault::BadPort),
    (Kind::Endpoint, "[::1]:", AddrFault::BadPort),
    (Kind::Endpoint, "[::1]:080", AddrFault::BadPort),
    (Kind::Endpoint, "[::1]:65536", AddrFault::BadPort),
    (Kind::Endpoint, "[]:80", AddrFault::Empty),
    (Kind::Endpoint, "[1.2.3.256]:80", AddrFault::OutOfRange),
    (Kind::Endpoint, "[1.2.3.4]:80", AddrFault::BadGroups),
    (Kind::Endpoint, "[1.2.3.4]:x", AddrFault::BadGroups),
    (Kind::Endpoint, "[1.2.3.4]x]:80", AddrFault::BadDigit),
    (Kind::Endpoint, "[::g]:x", AddrFault::BadDigit),
    (Kind::Endpoint, "::1:80", AddrFault::Empty),
    (Kind::Endpoint, "2001:db8::1", AddrFault::BadGroups),
    (Kind::Net, "", AddrFault::Empty),
    (Kind::Net, "/8", AddrFault::Empty),
    (Kind::Net, "10.0.0.0/33", AddrFault::BadPrefix),
    (Kind::Net, "10.0.0.0/08", AddrFault::BadPrefix),
    (Kind::Net, "10.0.0.0/", AddrFault::BadPrefix),
    (Kind::Net, "10.0.0.0/8/8", AddrFault::BadPrefix),
    (Kind::Net, "10.0.0/33", AddrFault::BadGroups),
    (Kind::Net, "::/129", AddrFault::BadPrefix),
    (Kind::Net, "::/", AddrFault::BadPrefix),
    (Kind::Net, "::/064", AddrFault::BadPrefix),
    (Kind::Net, ":/129", AddrFault::BadGroups),
    (Kind::Net, "/64", AddrFault::Empty),
];

fn fault_of(kind: Kind, text: &[u8]) -> Option<AddrFault> {
    match kind {
        Kind::Address => read_addr(text).err(),
        Kind::Endpoint => read_endpoint(text).err(),
        Kind::Net => read_net(text).err(),
    }
}

#[test]
fn texts_that_are_refused(rt: HostRuntime) {
    for (kind, text, fault) in &REFUSED {
        assert_eq!(rt;
            fault_of(*kind, text.as_bytes()),
            Some(*fault),
            "{kind:?} {text}"
        );
    }
}
