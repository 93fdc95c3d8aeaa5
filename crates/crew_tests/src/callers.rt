//! A caller of `serve`.
ghost use Rattle.std.specs.Prelude.{◌≡◌, ◌⊎◌, Err, IfErr, vec_len};
ghost use Rattle.conn_core.specs.Meaning.{meaning};

use conn_core::OpenFault;
use crew_core::{Clock, CrewFault, Dial, Door, Link, Served, open_book, serve};
use device_core::Output;
use std::alloc::Global;
use std::sync::Wait;
use std::thread::Threads;

/// Serves by one worker what comes to a door, until that is closed, and writes the record. The configuration may be refused,
/// and memory for the threads may be lacking; then nothing was served. What became of the record, and of the accounts of the
/// threads, is in what was served.
pub fn serve_text<
    R: Threads + Wait + Sync,
    K: Link + Send,
    L: Dial<Link = K> + Send + Drop,
    D: Door<Link = K>,
    C: Clock + Sync,
    W: Output + Send + Drop,
>(
    rt: &R,
    alloc: Global,
    text: &str,
    door: &mut D,
    dials: Vec<L>,
    clock: &C,
    writer: W,
) -> Result<Result<Served<W>, CrewFault>, OpenFault>
    requires { vec_len dials ≡ 1 }
    ensures { IfErr result (λ fault.
        (fault ≡ OpenFault.NoMemory) ⊎ (meaning text.now ≡ Err fault)) }
{
    let (book, segments) = open_book(alloc, text)?;
    Ok(serve(rt, alloc, book, segments, door, dials, clock, 1, writer))
}
