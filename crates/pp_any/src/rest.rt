//! What a parser that waits holds.
use arrayvec::ArrayVec;
use pp_v1::LINE_LIMIT;
use pp_v2::{Family, MOST_PAIR_BYTES};

/// What a parser that waits holds of the bytes that it was fed.
#[derive(Debug, Drop)]
pub enum Rest {
    /// The bytes themselves, of version 1 or fewer than 16.
    Read(ArrayVec<u8, LINE_LIMIT>),
    /// Of a version 2 header that declares a pair: the bytes of the addresses and ports that were read, and how
    /// many bytes are missing to the end of the header.
    Block(Family, ArrayVec<u8, MOST_PAIR_BYTES>, u32),
    /// Of one that declares none: how many bytes are missing to the end of the header.
    Skip(u32),
}
