//! Writing a header.
ghost use Rattle.std.specs.Prelude.{◌≡◌, ◌+◌, ◌≤◌, ◌++◌, length, take, drop, true, Ok};
ghost use Rattle.pp_v2.specs.Head.{head_of, pair_length};
ghost use Rattle.pp_v2.specs.Block.{family_in, head_for, header_of, pair_in};
ghost use Rattle.addr_core.specs.Family.{same_family};
ghost use Rattle.addr_core.specs.Text.{IsEndpoint};

use addr_core::{Addr, Pair};
use arrayvec::ArrayVec;

const IPV4_HEAD: [u8; 16] = *b"\r\n\r\n\0\r\nQUIT\n\x21\x11\x00\x0c";

const IPV6_HEAD: [u8; 16] = *b"\r\n\r\n\0\r\nQUIT\n\x21\x21\x00\x24";

/// The most bytes of a header that is written: 16, and the `MOST_PAIR_BYTES` of a pair of IPv6
/// (proxy-protocol.txt, section 2.2).
pub const MOST_WRITTEN_BYTES: usize = 52;

fn append(header: &mut ArrayVec<u8, MOST_WRITTEN_BYTES>, bytes: &[u8])
    requires { length header.old.items + length bytes.now ≤ MOST_WRITTEN_BYTES }
    ensures { header.new.items ≡ header.old.items ++ bytes.now }
{
    let Ok(()) = header.try_extend_from_slice(bytes) else {
        unreachable!()
    };
}

fn header_of(pair: &Pair) -> ArrayVec<u8, MOST_WRITTEN_BYTES>
    ensures header { result.items ≡ header_of pair.now }
    ensures source { IsEndpoint pair.now.source }
    ensures destination { IsEndpoint pair.now.destination }
    ensures family { same_family pair.now.source.addr pair.now.destination.addr ≡ true }
{
    let source = pair.source();
    let destination = pair.destination();
    let mut header = ArrayVec::new();
    match (source.addr, destination.addr) {
        (Addr::V4(from), Addr::V4(to)) => {
            append(&mut header, &IPV4_HEAD);
            append(&mut header, &from.to_be_bytes());
            append(&mut header, &to.to_be_bytes());
        }
        (Addr::V6(from), Addr::V6(to)) => {
            append(&mut header, &IPV6_HEAD);
            append(&mut header, &from.to_be_bytes());
            append(&mut header, &to.to_be_bytes());
        }
        (Addr::V4(_), Addr::V6(_)) => unreachable!(),
        (Addr::V6(_), Addr::V4(_)) => unreachable!(),
    }
    append(&mut header, &source.port.to_be_bytes());
    append(&mut header, &destination.port.to_be_bytes());
    header
}

/// The header of version 2 that declares the pair under the command PROXY: 28 bytes for addresses of IPv4,
/// 52 for those of IPv6. Its block has the pair and nothing after it.
pub fn write_v2(pair: &Pair) -> ArrayVec<u8, MOST_WRITTEN_BYTES>
    ensures header { result.items ≡ header_of pair.now }
    ensures length { length result.items ≡ 16 + pair_length (family_in pair.now.source.addr) }

    // What is written is read again.
    ensures head { head_of (take 16 result.items) ≡ Ok (head_for pair.now) }
    ensures block { pair_in (family_in pair.now.source.addr) (drop 16 result.items) ≡ pair.now }
{
    header_of(pair)
}
