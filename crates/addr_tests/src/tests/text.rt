//! Words, cuts and numbers.
use std::alloc::{AllocError, Global};
use text_core::decimal::{append_decimal, read_decimal, read_number, write_decimal};
use text_core::{Word, cut, cut_at, cut_line};

/// Texts, marks, and the parts before and after the mark.
static CUTS: [(&str, &str, Option<(&str, &str)>); 6] = [
    ("80:90", ":", Some(("80", "90"))),
    (":1::2", ":", Some(("", "1::2"))),
    (":1::2", "::", Some((":1", "2"))),
    ("80", ":", None),
    ("", ":", None),
    ("1:", "::", None),
];

/// Texts, and the number of each that is one.
static NUMBERS: [(&str, Option<u64>); 13] = [
    ("0", Some(0)),
    ("7", Some(7)),
    ("10", Some(10)),
    ("65535", Some(65535)),
    ("18446744073709551615", Some(u64::MAX)),
    ("", None),
    ("00", None),
    ("01", None),
    ("+1", None),
    ("-1", None),
    ("1 ", None),
    ("0x1", None),
    ("18446744073709551616", None),
];

/// Whether the text is cut at the mark into these parts.
fn is_cut(text: &[u8], mark: &[u8], parts: Option<(&[u8], &[u8])>) -> bool {
    if mark.is_empty() {
        return false;
    }
    cut(text, mark) == parts && (mark != b":".as_slice() || cut_at(text, b':') == parts)
}

/// The first text that is cut otherwise.
fn wrong_cut(
    table: &[(
        &'static str,
        &'static str,
        Option<(&'static str, &'static str)>,
    )],
) -> Option<&'static str> {
    for (text, mark, parts) in table {
        let parts = match parts {
            Some((front, back)) => Some((front.as_bytes(), back.as_bytes())),
            None => None,
        };
        if !is_cut(text.as_bytes(), mark.as_bytes(), parts) {
            return Some(*text);
        }
    }
    None
}

/// Whether the number is written as that text.
fn is_written(alloc: Global, number: u64, text: &str) -> Result<bool, AllocError> {
    let mut out = Vec::new(alloc);
    append_decimal(&mut out, number)?;
    Ok(write_decimal(number).as_str() == text && out.as_slice() == text.as_bytes())
}

#[test]
fn words(rt: HostRuntime) {
    let word = Word::of(b"bind");
    assert!(rt; word.is(b"bind") && word.bytes() == b"bind".as_slice());
    assert!(rt; !word.again().is(b"Bind") && !word.is(b"bin"));
    assert!(rt; Word::of(b"").is(b""));
}

#[test]
fn cuts(rt: HostRuntime) {
    assert_eq!(rt; wrong_cut(&CUTS), None);
    let parts = (b"first".as_slice(), b"second".as_slice());
    assert!(rt; cut_line(b"first\nsecond") == Some(parts));
    assert!(rt; cut_line(b"second").is_none());
}

#[test]
fn decimal_numbers(rt: HostRuntime) {
    for (text, number) in &NUMBERS {
        assert_eq!(rt; read_decimal(text.as_bytes(), u64::MAX), *number, "{text}");
        if let Some(number) = number {
            assert_eq!(rt; is_written(rt.alloc(), *number, text), Ok(true), "{text}");
        }
    }
    assert!(rt; read_decimal(b"255", 255) == Some(255) && read_decimal(b"256", 255).is_none());
    assert!(rt; read_number(b"007", 7) == Some(7));
}
