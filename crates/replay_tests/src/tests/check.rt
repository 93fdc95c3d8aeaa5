//! The line of a check, over a writer that fails or is blocked.
use crate::tests::devices::{Course, front_of, writer_of};
use replay_core::{PrintFault, run_check};
use std::alloc::{AllocError, Global};

const LINE: &[u8] = b"line 0: NoFrontend\n";

/// How a check of an empty configuration ends, and how many bytes of its line were written, if nothing else was.
fn check(alloc: Global, writes: Course) -> Result<(&'static str, Option<usize>), AllocError> {
    let mut writer = writer_of(alloc, writes)?;
    let word = match run_check(alloc, "", &mut writer) {
        Ok(None) => "right",
        Ok(Some(_)) => "wrong",
        Err(PrintFault::Read) => "read",
        Err(PrintFault::Write) => "write",
        Err(PrintFault::NoMemory) => "memory",
    };
    Ok((word, front_of(writer.as_slice(), LINE)))
}

/// What a check comes to whose write fails after so many bytes.
fn check_failing(alloc: Global, at: u64) -> Result<(&'static str, Option<usize>), AllocError> {
    check(alloc, Course::FailsOfBytes(at))
}

fn check_blocked(alloc: Global, from: u64) -> Result<(&'static str, Option<usize>), AllocError> {
    check(alloc, Course::Blocked(from))
}

/// Each write fails in turn: what was written is the front of the line.
#[test]
fn each_write_of_a_check_fails_in_turn(rt: HostRuntime) {
    for at in 0..LINE.len() {
        assert_eq!(rt;
            check_failing(rt.alloc(), at as u64),
            Ok(("write", Some(at)))
        );
    }
    assert_eq!(rt; check_failing(rt.alloc(), 19), Ok(("wrong", Some(19))));
}

#[test]
fn writes_of_a_check_are_blocked_for_ever(rt: HostRuntime) {
    assert_eq!(rt; check_blocked(rt.alloc(), 1), Ok(("write", Some(13))));
}
