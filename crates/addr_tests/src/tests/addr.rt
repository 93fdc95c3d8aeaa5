//! Texts of addresses.
use addr_core::{Addr, read_addr, write_addr};

static FOUR: [(&str, u32); 4] = [
    ("0.0.0.0", 0),
    ("127.0.0.1", 0x7F00_0001),
    ("192.0.2.1", 0xC000_0201),
    ("255.255.255.255", 0xFFFF_FFFF),
];

/// The examples of RFC 4291, section 2.2.
static SIX: [(&str, u128); 13] = [
    (
        "ABCD:EF01:2345:6789:ABCD:EF01:2345:6789",
        0xABCD_EF01_2345_6789_ABCD_EF01_2345_6789,
    ),
    (
        "2001:DB8:0:0:8:800:200C:417A",
        0x2001_0DB8_0000_0000_0008_0800_200C_417A,
    ),
    (
        "2001:DB8::8:800:200C:417A",
        0x2001_0DB8_0000_0000_0008_0800_200C_417A,
    ),
    (
        "FF01:0:0:0:0:0:0:101",
        0xFF01_0000_0000_0000_0000_0000_0000_0101,
    ),
    ("FF01::101", 0xFF01_0000_0000_0000_0000_0000_0000_0101),
    ("0:0:0:0:0:0:0:1", 1),
    ("::1", 1),
    ("0:0:0:0:0:0:0:0", 0),
    ("::", 0),
    ("0:0:0:0:0:0:13.1.68.3", 0x0D01_4403),
    ("::13.1.68.3", 0x0D01_4403),
    ("0:0:0:0:0:FFFF:129.144.52.38", 0xFFFF_8190_3426),
    ("::FFFF:129.144.52.38", 0xFFFF_8190_3426),
];

/// The texts of RFC 5952, section 2, in the form of its section 4; and runs of zeros.
static FORMS: [(&str, &str); 25] = [
    ("2001:db8:0:0:1:0:0:1", "2001:db8::1:0:0:1"),
    ("2001:0db8:0:0:1:0:0:1", "2001:db8::1:0:0:1"),
    ("2001:db8::1:0:0:1", "2001:db8::1:0:0:1"),
    ("2001:db8::0:1:0:0:1", "2001:db8::1:0:0:1"),
    ("2001:0db8::1:0:0:1", "2001:db8::1:0:0:1"),
    ("2001:db8:0:0:1::1", "2001:db8::1:0:0:1"),
    ("2001:DB8:0:0:1::1", "2001:db8::1:0:0:1"),
    (
        "2001:db8:aaaa:bbbb:cccc:dddd:eeee:0001",
        "2001:db8:aaaa:bbbb:cccc:dddd:eeee:1",
    ),
    ("2001:0db8::0001", "2001:db8::1"),
    ("2001:db8:0:0:0:0:2:1", "2001:db8::2:1"),
    ("2001:db8::0:1", "2001:db8::1"),
    ("2001:db8:0:1:1:1:1:1", "2001:db8:0:1:1:1:1:1"),
    ("2001:db8::1:1:1:1:1", "2001:db8:0:1:1:1:1:1"),
    ("2001:0:0:1:0:0:0:1", "2001:0:0:1::1"),
    (
        "2001:db8:aaaa:bbbb:cccc:dddd:eeee:AAAA",
        "2001:db8:aaaa:bbbb:cccc:dddd:eeee:aaaa",
    ),
    ("1:0:0:2:0:0:0:3", "1:0:0:2::3"),
    ("1:0:0:2:0:0:3:4", "1::2:0:0:3:4"),
    ("::ffff:1.2.3.4", "::ffff:102:304"),
    ("1:2:3:4:5:6:7::", "1:2:3:4:5:6:7:0"),
    ("::2:3:4:5:6:7:8", "0:2:3:4:5:6:7:8"),
    ("1:2:3:4:5:6::", "1:2:3:4:5:6::"),
    ("0:0:0:0:0:0:0:0", "::"),
    ("0:1:2:3:4:5:6:7", "0:1:2:3:4:5:6:7"),
    ("1:2:3:4:5:6:1.2.3.4", "1:2:3:4:5:6:102:304"),
    ("00aB:0::", "ab::"),
];

/// Whether the text is one of an address that is written in that form.
fn has_form(text: &str, form: &str) -> bool {
    match read_addr(text.as_bytes()) {
        Ok(addr) => write_addr(&addr).as_str() == form,
        Err(_) => false,
    }
}

#[test]
fn addresses_that_are_read(rt: HostRuntime) {
    for (text, number) in &FOUR {
        let addr = Addr::V4(*number);
        assert_eq!(rt; read_addr(text.as_bytes()), Ok(addr), "{text}");
        assert_eq!(rt; write_addr(&addr).as_str(), *text);
    }
    for (text, number) in &SIX {
        let addr = Addr::V6(*number);
        assert_eq!(rt; read_addr(text.as_bytes()), Ok(addr), "{text}");
    }
}

#[test]
fn addresses_that_are_written(rt: HostRuntime) {
    for (text, form) in &FORMS {
        assert!(rt; has_form(text, form), "{text}");
    }
}
