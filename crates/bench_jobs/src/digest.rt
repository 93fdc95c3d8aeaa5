//! A digest of what a job gave.

const PRIME: u64 = 0x0000_0100_0000_01b3;

/// A digest with one more number.
pub fn with_number(digest: u64, number: u64) -> u64 {
    (digest ^ number).wrapping_mul(PRIME).rotate_left(29)
}

/// A digest with bytes, eight at a time.
pub fn with_bytes(digest: u64, bytes: &[u8]) -> u64 {
    let mut all = digest;
    for part in bytes.chunks(8) {
        let mut word = 0u64;
        for byte in part {
            word = word << 8 | u64::from(*byte);
        }
        all = with_number(all, word);
    }
    with_number(all, bytes.len() as u64)
}
