//! Bytes in hexadecimal, in lower case.
ghost use Rattle.std.specs.Prelude.{◌≡◌, ◌/◌, ◌%◌, ◌≤◌, ◌++◌, ◌∷◌, [], length, slice_index, take, option_map, OnOk};
ghost use Rattle.std.specs.List.{list_any};
ghost use Rattle.hex.specs.Hex.{encode_lower, lower_digits};
ghost use Rattle.pp_v1.specs.declared.TheConstants.{LINE_LIMIT};
ghost use Rattle.event_text.specs.Script.{bytes_in, bytes_text, is_upper_digit};

use std::alloc::AllocError;

const DIGITS: [u8; 16] = *b"0123456789abcdef";

/// A byte as two digits.
fn write_pair(out: &mut Vec<u8>, byte: u8) -> Result<(), AllocError>
    ensures { OnOk result (out.new.items ≡ out.old.items ++ slice_index lower_digits (byte / 16) ∷ slice_index lower_digits (byte % 16) ∷ []) }
{
    let high = DIGITS[usize::from(byte / 16)];
    let low = DIGITS[usize::from(byte % 16)];
    out.extend_from_slice(&[high, low])
}

fn write_digits(out: &mut Vec<u8>, bytes: &[u8]) -> Result<(), AllocError>
    ensures { OnOk result (out.new.items ≡ out.old.items ++ encode_lower bytes.now) }
{
    for byte in bytes {
        write_pair(out, *byte)?;
    }
    Ok(())
}

/// Appends the digits of the bytes of a piece, or a dash where there are none.
pub fn write_piece(out: &mut Vec<u8>, bytes: &[u8]) -> Result<(), AllocError>
    ensures { OnOk result (out.new.items ≡ out.old.items ++ bytes_text bytes.now) }
{
    if bytes.is_empty() {
        return out.extend_from_slice(b"-");
    }
    write_digits(out, bytes)
}

/// The most hexadecimal digits of a header that is sent: two for each of the `LINE_LIMIT` bytes.
const HEADER_DIGITS: usize = 214;

fn write_header_digits(out: &mut Vec<u8>, bytes: &[u8]) -> Result<(), AllocError>
    requires { length bytes.now ≤ LINE_LIMIT }
    ensures { OnOk result (out.new.items ≡ out.old.items ++ encode_lower bytes.now) }
{
    let mut digits = [0u8; HEADER_DIGITS];
    let text = &mut digits[..2 * bytes.len()];
    let _fits = hex::encode_to_slice(bytes, text);
    out.extend_from_slice(text)
}

/// Appends the digits of the header that a server is sent, or a dash where there is none.
pub fn write_header(out: &mut Vec<u8>, bytes: &[u8]) -> Result<(), AllocError>
    requires { length bytes.now ≤ LINE_LIMIT }
    ensures { OnOk result (out.new.items ≡ out.old.items ++ bytes_text bytes.now) }
{
    if bytes.is_empty() {
        return out.extend_from_slice(b"-");
    }
    write_header_digits(out, bytes)
}

/// Reads bytes in lower-case hexadecimal into the front of a buffer, if there is room, and says how many
/// they are.
pub fn read_hex(text: &[u8], buffer: &mut [u8]) -> Option<usize>
    ensures bytes { option_map (λ length. take length buffer.new) result ≡ bytes_in (length buffer.old) text.now }
    ensures room { length buffer.new ≡ length buffer.old }
{
    let count = text.len() / 2;
    if has_upper(text) || count > buffer.len() {
        return None;
    }
    let front = &mut buffer[..count];
    match hex::decode_to_slice(text, front) {
        Ok(()) => Some(count),
        Err(_) => None,
    }
}

fn has_upper(text: &[u8]) -> bool
    ensures { result ≡ list_any is_upper_digit text.now }
{
    text.iter().any(|byte| b'A' <= *byte && *byte <= b'F')
}
