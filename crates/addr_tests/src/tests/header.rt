//! PROXY headers of both versions: what no run of the program shows. How headers are read is tried in `tests/replay`.
use crate::tests::pairs::pair;
use addr_core::Pair;
use pp_any::{Fed, Parser, Rest, write_v1, write_v2};
use pp_v1::Meaning;
use pp_v2::{Family, read_block};

/// A line, the same as a header of version 2, and the same with an extension of type 4 (NOOP).
const LINE: &[u8] = b"PROXY TCP4 203.0.113.7 198.51.100.1 4000 443\r\n";

const BLOCK: &[u8] =
    b"\r\n\r\n\0\r\nQUIT\n\x21\x11\x00\x0c\xcb\x00\x71\x07\xc6\x33\x64\x01\x0f\xa0\x01\xbb";

const EXTENDED: &[u8] =
    b"\r\n\r\n\0\r\nQUIT\n\x21\x11\x00\x13\xcb\x00\x71\x07\xc6\x33\x64\x01\x0f\xa0\x01\xbb\x04\x00\x04GET ";

/// A header of version 2 from `[2001:db8::1]:4000` to `[2001:db8::2]:443`.
const BLOCK_OF_SIX: &[u8] =
    b"\r\n\r\n\0\r\nQUIT\n\x21\x21\x00\x24\x20\x01\x0d\xb8\0\0\0\0\0\0\0\0\0\0\0\x01\x20\x01\x0d\xb8\0\0\0\0\0\0\0\0\0\0\0\x02\x0f\xa0\x01\xbb";

/// Endpoints, and the line of each two.
static LINES: [(&str, &str, &str); 4] = [
    (
        "203.0.113.7:4000",
        "198.51.100.1:443",
        "PROXY TCP4 203.0.113.7 198.51.100.1 4000 443\r\n",
    ),
    (
        "[2001:db8::1]:4000",
        "[2001:db8::2]:443",
        "PROXY TCP6 2001:db8::1 2001:db8::2 4000 443\r\n",
    ),
    (
        "[2001:db8::1]:1",
        "[::ffff:1.2.3.4]:0",
        "PROXY TCP6 2001:db8::1 ::ffff:102:304 1 0\r\n",
    ),
    (
        "[ffff:ffff:ffff:ffff:ffff:ffff:ffff:ffff]:65535",
        "[ffff:ffff:ffff:ffff:ffff:ffff:ffff:ffff]:65535",
        "PROXY TCP6 ffff:ffff:ffff:ffff:ffff:ffff:ffff:ffff ffff:ffff:ffff:ffff:ffff:ffff:ffff:ffff 65535 65535\r\n",
    ),
];

/// The pair that `LINE` and `BLOCK` declare.
fn four() -> Option<Pair> {
    pair(b"203.0.113.7:4000", b"198.51.100.1:443")
}

/// The pair that `BLOCK_OF_SIX` declares.
fn six() -> Option<Pair> {
    pair(b"[2001:db8::1]:4000", b"[2001:db8::2]:443")
}

/// Whether it is a whole header of so many bytes with that meaning.
fn is_whole(fed: Fed, meaning: &Meaning, length: usize) -> bool {
    match fed {
        Fed::Whole(found, used) => found == *meaning && used == length,
        _ => false,
    }
}

/// The first place at which the header is cut in two, with payload after it, and has not the meaning.
fn wrong_place(header: &[u8], meaning: &Meaning) -> Option<usize> {
    for cut in 0..header.len() {
        let (front, back) = header.split_at(cut);
        let fed = Parser::new().feed_all(&[front, back, b"GET / HTTP/1.0"]);
        if !is_whole(fed, meaning, header.len()) {
            return Some(cut);
        }
    }
    None
}

/// Headers in several pieces at once.
#[test]
fn all_pieces_at_once(rt: HostRuntime) {
    let Some(pair) = four() else {
        assert!(rt; false, "the endpoints are of one family");
        return;
    };
    let meaning = Meaning::Declared(pair);
    assert_eq!(rt; wrong_place(LINE, &meaning), None);
    assert_eq!(rt; wrong_place(BLOCK, &meaning), None);
    assert_eq!(rt; wrong_place(EXTENDED, &meaning), None);
}

/// Whether a parser that waits after these bytes holds these of them, declares a pair of that family, and misses so many
/// bytes.
fn holds(bytes: &[u8], held: &[u8], family: Option<Family>, missing: u32) -> bool {
    let Fed::More(parser) = Parser::new().feed(bytes) else {
        return false;
    };
    match parser.rest() {
        Rest::Read(read) => read.as_slice() == held && family.is_none() && missing == 0,
        Rest::Block(of, read, left) => {
            read.as_slice() == held && family == Some(of) && missing == left
        }
        Rest::Skip(left) => held.is_empty() && family.is_none() && missing == left,
    }
}

#[test]
fn rests(rt: HostRuntime) {
    let four = Some(Family::V4);
    assert!(rt; holds(&LINE[..45], &LINE[..45], None, 0));
    assert!(rt; holds(&BLOCK[..15], &BLOCK[..15], None, 0));
    assert!(rt; holds(&BLOCK[..20], b"\xcb\x00\x71\x07", four, 8));
    assert!(rt; holds(&EXTENDED[..30], &BLOCK[16..], four, 5));
    assert!(rt; holds(b"\r\n\r\n\0\r\nQUIT\n\x20\x11\x01\x00abcd", b"", None, 252));
}

/// The first line that is not written for its endpoints.
fn wrong_line(table: &[(&'static str, &'static str, &'static str)]) -> Option<&'static str> {
    for (source, destination, line) in table {
        match pair(source.as_bytes(), destination.as_bytes()) {
            Some(pair) if write_v1(&pair).as_slice() == line.as_bytes() => {}
            _ => return Some(*line),
        }
    }
    None
}

#[test]
fn lines_that_are_written(rt: HostRuntime) {
    assert_eq!(rt; wrong_line(&LINES), None);
}

/// Whether there is a pair, and its header of version 2 is this one.
fn is_written(pair: Option<Pair>, header: &[u8]) -> bool {
    match pair {
        Some(pair) => write_v2(&pair).as_slice() == header,
        None => false,
    }
}

#[test]
fn blocks_that_are_written_and_read(rt: HostRuntime) {
    assert!(rt; is_written(four(), BLOCK));
    assert!(rt; is_written(six(), BLOCK_OF_SIX));
    assert!(rt; four() == Some(read_block(Family::V4, &BLOCK[16..])));
    assert!(rt; six() == Some(read_block(Family::V6, &BLOCK_OF_SIX[16..])));
}
