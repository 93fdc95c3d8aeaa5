//! What may be wrong with a header of version 2.

/// What is wrong with a header of version 2. Where several hold of one header, it is the first of them in
/// this order.
#[derive(Clone, Copy, Debug, PartialEq, Eq)]
pub enum V2Fault {
    /// The first 12 bytes are not the signature.
    NotProxy,
    /// The high half of byte 13 is not 2.
    BadVersion,
    /// The low half of byte 13 is neither 0, LOCAL, nor 1, PROXY.
    BadCommand,
    /// Under PROXY: the high half of byte 14, the family, is above 3, or the low half, the transport, above 2.
    BadFamily,
    /// Under PROXY: the block is too short for the pair that byte 14 announces.
    ShortBlock,
}
