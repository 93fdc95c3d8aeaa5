//! What may be wrong with a header.
use pp_v1::V1Fault;
use pp_v2::V2Fault;

/// What is wrong with a header (proxy-protocol.txt, sections 2.1 and 2.2). It is reported at the first byte that
/// makes it certain.
#[derive(Clone, Copy, Debug, PartialEq, Eq)]
pub enum HeaderFault {
    /// The bytes begin neither with `PROXY` and a space nor with the signature of version 2.
    NotProxy,
    /// 107 bytes of version 1 without CR LF.
    TooLong,
    /// A line of version 1 with another protocol than `TCP4`, `TCP6` or `UNKNOWN`, or not four fields after `TCP4`
    /// or `TCP6`, or an empty one.
    BadLine,
    /// One of the first two fields is no address of the line's family.
    BadAddress,
    /// One of the last two fields is no decimal number from 0 to 65535 without leading zeros.
    BadPort,
    /// The high half of byte 13 of version 2 is not 2.
    BadVersion,
    /// The low half of byte 13 is neither 0, LOCAL, nor 1, PROXY.
    BadCommand,
    /// Under PROXY: the high half of byte 14, the family, is above 3, or the low half, the transport, above 2.
    BadFamily,
    /// Under PROXY: the block is too short for the pair that byte 14 announces.
    ShortBlock,
}

impl From<V1Fault> for HeaderFault {
    ghost use Rattle.std.specs.Prelude.{◌≡◌};
    ghost use Rattle.pp_any.specs.Faults.{of_line};

    ghost from_gives = { λ fault kind. kind ≡ of_line fault };

    fn from(fault: V1Fault) -> HeaderFault {
        match fault {
            V1Fault::BadLine => HeaderFault::BadLine,
            V1Fault::BadAddress => HeaderFault::BadAddress,
            V1Fault::BadPort => HeaderFault::BadPort,
        }
    }
}

impl From<V2Fault> for HeaderFault {
    ghost use Rattle.std.specs.Prelude.{◌≡◌};
    ghost use Rattle.pp_any.specs.Faults.{of_head};

    ghost from_gives = { λ fault kind. kind ≡ of_head fault };

    fn from(fault: V2Fault) -> HeaderFault {
        match fault {
            V2Fault::NotProxy => HeaderFault::NotProxy,
            V2Fault::BadVersion => HeaderFault::BadVersion,
            V2Fault::BadCommand => HeaderFault::BadCommand,
            V2Fault::BadFamily => HeaderFault::BadFamily,
            V2Fault::ShortBlock => HeaderFault::ShortBlock,
        }
    }
}
