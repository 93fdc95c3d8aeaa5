//! Reloads in scripts: their lines, what is refused of them, and devices and memory that fail within them.
use crate::tests::devices::Course;
use crate::tests::runs::{End, plain_replay, replay};
use std::alloc::{AllocError, Global};

const BEFORE: &[u8] = b"0 accept 0 192.0.2.5:4000 127.0.0.1:9000\n";

/// It refuses what the configuration before it lets in, and has another server.
const RELOAD: &[u8] =
    b"1 reload 6\n|frontend f\n|bind 127.0.0.1:9000\n|tcp-request connection reject if { src 192.0.2.0/24 }\n|default_backend b\n|backend b\n|server s 10.0.0.21:80\n";

const AFTER: &[u8] =
    b"2 accept 0 192.0.2.5:4001 127.0.0.1:9000\n3 accept 0 198.51.100.9:4002 127.0.0.1:9000\n4 close 0.1 done";

/// What is answered before the reload, to it, and after it.
const OFFER: &[u8] =
    b"offer 0.1 used 0 line 6 to 10.0.0.20:80 src 192.0.2.5:4000 dst 127.0.0.1:9000 send -\n";

const RELOADED: &[u8] = b"reloaded 2\n";

const LATER: &[u8] =
    b"refuse 0.2 used 0 line 3\noffer 0.3 used 0 line 6 to 10.0.0.21:80 src 198.51.100.9:4002 dst 127.0.0.1:9000 send -\nclosed 0.1 done\n";

/// Texts in a row.
fn joined(alloc: Global, texts: &[&[u8]]) -> Result<Vec<u8>, AllocError> {
    let mut all = Vec::new(alloc);
    for text in texts {
        all.extend_from_slice(text)?;
    }
    Ok(all)
}

/// Replays the connections before the reload, the reload and those after it.
fn replay_all(alloc: Global, reads: Course, writes: Course) -> Result<End, AllocError> {
    let script = joined(alloc, &[BEFORE, RELOAD, AFTER])?;
    let answers = joined(alloc, &[OFFER, RELOADED, LATER])?;
    replay(alloc, script.as_slice(), answers.as_slice(), reads, writes)
}

/// All of it is answered.
fn whole() -> End {
    let length = OFFER.len() + RELOADED.len() + LATER.len();
    ("end", 5, Some(length))
}

/// The lines of a reload come in pieces, and calls are blocked between them. From the reload on the new configuration
/// judges, and the open connection stays.
#[test]
fn reload_comes_in_pieces(rt: HostRuntime) {
    for per_call in [1, 7, 4096] {
        let course = Course::Interrupted(per_call, 200);
        let end = replay_all(rt.alloc(), course, course);
        assert_eq!(rt; end, Ok(whole()), "{per_call} at a time");
    }
}

/// Reloads that are refused, and the answer to each.
static REFUSED: [(&str, &str); 7] = [
    (
        "0 reload 1\n|frontend f\n",
        "fault BadConfig line 1: NoBind\n",
    ),
    ("0 reload 1\n|\n", "fault BadConfig line 0: NoFrontend\n"),
    (
        "0 reload 1\n|listen f\n",
        "fault BadConfig line 1: Unsupported\n",
    ),
    (
        "0 reload 1\n|frontend 'f'\n",
        "fault BadConfig line 1: Text Quoting\n",
    ),
    (
        "0 reload 3\n|frontend f\n|bind 127.0.0.1:9000\n|tcp-request connection reject if x\n",
        "fault BadConfig line 3: Acl UnknownName\n",
    ),
    (
        "0 reload 2\n|frontend f\n|bind 127.0.0.1:9001\n",
        "fault BindChanged\n",
    ),
    (
        "0 reload 2\n|frontend f\n|bind 127.0.0.1:9000 accept-proxy\n",
        "fault BindChanged\n",
    ),
];

/// Whether a reload is refused with that answer, and the line after it goes on with the configuration before it.
fn is_refused(alloc: Global, reload: &str, answer: &str) -> Result<bool, AllocError> {
    let script = joined(alloc, &[reload.as_bytes(), BEFORE])?;
    let answers = joined(alloc, &[answer.as_bytes(), OFFER])?;
    let end = plain_replay(alloc, script.as_slice(), answers.as_slice())?;
    Ok(end == ("end", 2, Some(answers.len())))
}

/// The first reload that is not refused so.
fn not_refused(
    alloc: Global,
    table: &[(&'static str, &'static str)],
) -> Result<Option<&'static str>, AllocError> {
    for (reload, answer) in table {
        if !is_refused(alloc, reload, answer)? {
            return Ok(Some(*reload));
        }
    }
    Ok(None)
}

#[test]
fn refused_reloads_change_nothing(rt: HostRuntime) {
    assert_eq!(rt; not_refused(rt.alloc(), &REFUSED), Ok(None));
}

/// Lines after the first that are wrong or missing, and the number of the line that ends the replay.
static WRONG: [(&[u8], u64); 17] = [
    (b"1 reload 0\n", 2),
    (b"1 reload 01\n|frontend f\n", 2),
    (b"1 reload\n|frontend f\n", 2),
    (b"1 reload 1 \n|frontend f\n", 2),
    (b"1 reload 18446744073709551616\n|frontend f\n", 2),
    (b"|frontend f\n", 2),
    (b"1 reload 1", 3),
    (b"1 reload 1\n", 3),
    (b"1 reload 2\n|frontend f\n", 4),
    (b"1 reload 3\n|frontend f\n|bind 127.0.0.1:9000", 5),
    (b"1 reload 18446744073709551615\n|frontend f\n", 4),
    (b"1 reload 2\n\n|frontend f\n", 3),
    (b"1 reload 2\n# a comment\n|frontend f\n", 3),
    (b"1 reload 2\n|frontend f\nbind 127.0.0.1:9000\n", 4),
    (b"1 reload 2\n|frontend f\n2 close 0.1 done\n", 4),
    (b"1 reload 1\n|frontend \xff\n", 3),
    (b"1 reload 2\n|frontend \xc3\n|\xa9\n", 3),
];

/// The first lines that do not end the replay so, after the answer to the line before them.
fn not_ended(
    alloc: Global,
    table: &[(&'static [u8], u64)],
) -> Result<Option<&'static [u8]>, AllocError> {
    for (lines, number) in table {
        let script = joined(alloc, &[BEFORE, lines])?;
        let end = plain_replay(alloc, script.as_slice(), OFFER)?;
        if end != ("format", *number, Some(OFFER.len())) {
            return Ok(Some(*lines));
        }
    }
    Ok(None)
}

/// A line that is none of a reload ends the replay, as does a script that ends before the last of its lines. What was
/// answered before is written.
#[test]
fn lines_of_a_reload_are_wrong_or_missing(rt: HostRuntime) {
    assert_eq!(rt; not_ended(rt.alloc(), &WRONG), Ok(None));
}

/// Replays a reload of one comment of so many bytes.
fn replay_long_line(alloc: Global, length: usize) -> Result<End, AllocError> {
    let mut script = joined(alloc, &[b"0 reload 1\n|"])?;
    for _ in 0..length {
        script.push(b'#')?;
    }
    plain_replay(
        alloc,
        script.as_slice(),
        b"fault BadConfig line 1: Text TooLong\n",
    )
}

/// A line of a reload has its limit with its bar. A text in UTF-8 that is no configuration is refused by the core
/// alone.
#[test]
fn long_lines_of_a_reload(rt: HostRuntime) {
    let (end, too_long) = (("end", 1, Some(37)), ("too long", 2, Some(0)));
    assert_eq!(rt; replay_long_line(rt.alloc(), 131_199), Ok(end));
    assert_eq!(rt; replay_long_line(rt.alloc(), 131_200), Ok(too_long));
    let (word, fault) = (
        "0 reload 1\n|frontend é\n",
        b"fault BadConfig line 1: Text NotAscii\n",
    );
    let end = ("end", 1, Some(fault.len()));
    assert_eq!(rt; plain_replay(rt.alloc(), word.as_bytes(), fault), Ok(end));
}

/// What is answered where a read fails after so many bytes: of a reload nothing before its last line is whole.
fn after_bytes(read: u64) -> End {
    let (reload, after) = (BEFORE.len(), BEFORE.len() + RELOAD.len());
    let answered = if read < reload as u64 {
        0
    } else if read < after as u64 {
        OFFER.len()
    } else {
        OFFER.len() + RELOADED.len()
    };
    ("read", 0, Some(answered))
}

/// Whether a replay up to the reload comes to what it should where a read fails after so many bytes.
fn is_right_where_it_fails(alloc: Global, at: u64) -> Result<bool, AllocError> {
    let script = joined(alloc, &[BEFORE, RELOAD])?;
    let answers = joined(alloc, &[OFFER, RELOADED])?;
    let end = replay(
        alloc,
        script.as_slice(),
        answers.as_slice(),
        Course::FailsOfBytes(at),
        Course::Plain,
    )?;
    let wanted = if at <= script.len() as u64 {
        after_bytes(at)
    } else {
        ("end", 2, Some(answers.len()))
    };
    Ok(end == wanted)
}

/// Each read fails in turn: what was answered is what was whole in the bytes before it, and no reload of which a line
/// is missing.
#[test]
fn each_read_fails_within_a_reload(rt: HostRuntime) {
    for at in 0..196 {
        assert_eq!(rt;
            is_right_where_it_fails(rt.alloc(), at),
            Ok(true),
            "at {at}"
        );
    }
}

/// Where memory runs out the answers that were written are a front of them: this test is run with each allocation
/// failing in turn.
#[test]
fn lack_of_memory_within_a_reload(rt: HostRuntime) {
    if let Ok(end) = replay_all(rt.alloc(), Course::Plain, Course::Plain) {
        let (word, number, written) = end;
        let is_without_memory = word == "memory" && number == 0 && written.is_some();
        assert!(rt; is_without_memory || end == whole());
    }
}
