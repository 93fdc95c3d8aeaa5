//! Scripts over devices that are short, blocked or failing.
use crate::tests::devices::{Course, calls_for, length_of, lines_in, moved_by};
use crate::tests::runs::{End, plain_replay, replay};
use std::alloc::{AllocError, Global};

const SCRIPT: &[u8] =
    b"0 accept 0 192.0.2.5:4000 127.0.0.1:9000\n1 accept 0 198.51.100.9:4001 127.0.0.1:9000\n2 close 0.1 done";

const ANSWERS: &[u8] =
    b"offer 0.1 used 0 line 6 to 10.0.0.20:80 src 192.0.2.5:4000 dst 127.0.0.1:9000 send -\nrefuse 0.2 used 0 line 3\nclosed 0.1 done\n";

/// Servers take connections and are out of reach, and it is asked what they have; and the answers.
const SERVERS: (&[u8], &[u8]) = (
    b"0 accept 0 192.0.2.5:4000 127.0.0.1:9000\n1 connected 0.1\n2 connected 0.1\n3 accept 0 192.0.2.5:4001 127.0.0.1:9000\nask backend 0\nask server 0 0\n4 failed 0.2\nask server 0 0\nask server 0 1\nask backend 1\n5 failed 0.2\n",
    b"offer 0.1 used 0 line 6 to 10.0.0.20:80 src 192.0.2.5:4000 dst 127.0.0.1:9000 send -\nup 0.1\nfault NotOffered\noffer 0.2 used 0 line 6 to 10.0.0.20:80 src 192.0.2.5:4001 dst 127.0.0.1:9000 send -\ncount 2\ncount 2\nclosed 0.2 failed\ncount 1\ncount none\ncount none\nfault NoSuch\n",
);

/// All is answered.
fn whole() -> End {
    ("end", 3, Some(ANSWERS.len()))
}

/// What a fault of the reader comes to after so many reads: the lines that were whole by then are answered.
fn after_reads(reads: u64) -> End {
    let read = moved_by(reads, SCRIPT.len());
    let lines = lines_in(SCRIPT.get(..read).unwrap_or(SCRIPT));
    ("read", 0, Some(length_of(ANSWERS, lines)))
}

/// What a fault of the writer comes to after so many writes.
fn after_writes(writes: u64) -> End {
    ("write", 0, Some(moved_by(writes, ANSWERS.len())))
}

/// Bytes come and go in pieces, and calls are blocked between them.
#[test]
fn bytes_come_in_pieces(rt: HostRuntime) {
    for per_call in [1, 7, 4096] {
        let course = Course::Interrupted(per_call, 200);
        let end = replay(rt.alloc(), SCRIPT, ANSWERS, course, course);
        assert_eq!(rt; end, Ok(whole()), "{per_call} at a time");
    }
}

#[test]
fn servers_in_a_script(rt: HostRuntime) {
    let (script, answers) = SERVERS;
    let end = plain_replay(rt.alloc(), script, answers);
    assert_eq!(rt; end, Ok(("end", 11, Some(answers.len()))));
}

/// Replays of which the reads or the writes go in that course.
fn ends_of(alloc: Global, course: Course) -> Result<(End, End), AllocError> {
    let by_read = replay(alloc, SCRIPT, ANSWERS, course, Course::Plain)?;
    let by_write = replay(alloc, SCRIPT, ANSWERS, Course::Plain, course)?;
    Ok((by_read, by_write))
}

/// Each read, that of the end too, and each write fails in turn.
#[test]
fn each_call_fails_in_turn(rt: HostRuntime) {
    for at in 0..12 {
        let reads = if at <= calls_for(SCRIPT.len()) {
            after_reads(at)
        } else {
            whole()
        };
        let writes = if at < calls_for(ANSWERS.len()) {
            after_writes(at)
        } else {
            whole()
        };
        let ends = ends_of(rt.alloc(), Course::Fails(at));
        assert_eq!(rt; ends, Ok((reads, writes)), "at {at}");
    }
}

/// A reader or a writer is blocked from a call on.
#[test]
fn calls_are_blocked_for_ever(rt: HostRuntime) {
    for from in [0, 4] {
        let ends = ends_of(rt.alloc(), Course::Blocked(from));
        assert_eq!(rt;
            ends,
            Ok((after_reads(from), after_writes(from))),
            "from {from}"
        );
    }
}

/// Replays a connection that is refused, and a comment of so many bytes.
fn replay_long_line(alloc: Global, length: usize) -> Result<End, AllocError> {
    let mut script = Vec::new(alloc);
    script.extend_from_slice(b"0 accept 0 198.51.100.9:4001 127.0.0.1:9000\n")?;
    for _ in 0..length {
        script.push(b'#')?;
    }
    plain_replay(alloc, script.as_slice(), b"refuse 0.1 used 0 line 3\n")
}

#[test]
fn long_lines_end_a_replay(rt: HostRuntime) {
    let (end, too_long) = (("end", 1, Some(25)), ("too long", 2, Some(25)));
    assert_eq!(rt; replay_long_line(rt.alloc(), 131_200), Ok(end));
    assert_eq!(rt; replay_long_line(rt.alloc(), 131_201), Ok(too_long));
    assert_eq!(rt; replay_long_line(rt.alloc(), 400_000), Ok(too_long));
}
