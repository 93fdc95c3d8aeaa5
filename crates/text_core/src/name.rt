//! Names.
ghost use Rattle.std.specs.Prelude.{◌≡◌, ◌↔◌, ◌+◌, ◌≤◌, length, IsTrue};
ghost use Rattle.std.specs.List.{list_all};
ghost use Rattle.std.specs.Str.{bytes_eq};
ghost use Rattle.text_core.specs.Names.{is_name_byte, is_name, place_of, AreSameBetween};

use crate::word::Word;

fn is_name_byte(b: u8) -> bool
    ensures { result ≡ is_name_byte b }
{
    b'0' <= b && b <= b':'
        || b'A' <= b && b <= b'Z'
        || b'a' <= b && b <= b'z'
        || b == b'-'
        || b == b'.'
        || b == b'_'
}

fn has_name_bytes(text: &[u8]) -> bool
    ensures { result ≡ list_all is_name_byte text.now }
{
    text.iter().all(|byte| is_name_byte(*byte))
}

/// Whether the text is a name: letters, digits, `-`, `_`, `.` and `:`, at least one (HAProxy manual,
/// "proxies").
pub fn is_name(text: &[u8]) -> bool
    ensures { result ≡ is_name text.now }
{
    !text.is_empty() && has_name_bytes(text)
}

/// How many bytes are compared at once.
const EIGHT: usize = 8;

/// Whether two texts have the same eight bytes at a place.
#[inline(always)]
fn have_same_eight(one: &[u8], other: &[u8], at: usize) -> bool
    requires one { at + EIGHT ≤ length one.now }
    requires other { at + EIGHT ≤ length other.now }
    ensures { IsTrue result ↔ AreSameBetween one.now other.now at (at + EIGHT) }
{
    let mut same = true;
    for place in at..at + EIGHT {
        same &= one[place] == other[place];
    }
    same
}

/// Whether two texts of one length, of fewer than eight bytes, are the same.
fn is_same_short(one: &[u8], other: &[u8]) -> bool
    requires { length one.now ≡ length other.now }
    ensures { result ≡ bytes_eq one.now other.now }
{
    for place in 0..one.len() {
        if one[place] != other[place] {
            return false;
        }
    }
    true
}

/// Whether two texts of one length, of eight bytes or more, are the same.
fn is_same_long(one: &[u8], other: &[u8]) -> bool
    requires length { length one.now ≡ length other.now }
    requires long { EIGHT ≤ length one.now }
    ensures { result ≡ bytes_eq one.now other.now }
{
    for eighth in 0..one.len() / EIGHT {
        if !have_same_eight(one, other, EIGHT * eighth) {
            return false;
        }
    }
    have_same_eight(one, other, one.len() - EIGHT)
}

/// Whether two names are the same. Their last bytes are compared first, since the names of a file often begin alike.
pub fn is_same_name(one: &[u8], other: &[u8]) -> bool
    ensures { result ≡ bytes_eq one.now other.now }
{
    let length = one.len();
    if length != other.len() {
        return false;
    }
    if length > 0 && one[length - 1] != other[length - 1] {
        return false;
    }
    if length < EIGHT {
        return is_same_short(one, other);
    }
    is_same_long(one, other)
}

/// The place of the first of that name.
pub fn place_of(name: &[u8], names: &[Word]) -> Option<usize>
    ensures { result ≡ place_of name.now names.now }
{
    names
        .iter()
        .position(|other| is_same_name(other.bytes(), name))
}
