//! `l4proxy replay`: a script is answered.
use crate::files::{explain_refusal, open_script, unreadable};
use command_line::DONE;
use device_core::{FromRead, ToWrite};
use replay_core::{ReplayFault, run_replay};
use std::rt::Files;
use std::{fs, io};

/// Which file the fault speaks of.
fn place<'a>(fault: &ReplayFault, file: &'a str, script: &'a str) -> &'a str {
    match fault {
        ReplayFault::Config(_) | ReplayFault::NoMemory => file,
        ReplayFault::Format(_) | ReplayFault::TooLong(_) | ReplayFault::Read => script,
        ReplayFault::Write => "standard output",
    }
}

/// Replays a script. The configuration is read before the script is opened.
pub fn replay_files<R: Files + AllocGlobal + Print + Eprint>(
    rt: &R,
    file: &str,
    script: &str,
) -> u8 {
    let Ok(text) = fs::read_to_string(rt, file) else {
        return unreadable(rt, file);
    };
    let Some(opened) = open_script(rt, script) else {
        return unreadable(rt, script);
    };
    let mut reader = FromRead::of(opened);
    let mut writer = ToWrite::of(io::writer(rt));
    match run_replay(rt.alloc(), text.as_str(), &mut reader, &mut writer) {
        Ok(_done) => DONE,
        Err(fault) => {
            match &fault {
                ReplayFault::Config(refused) => explain_refusal(rt, file, text.as_str(), refused),
                _ => {
                    let what = place(&fault, file, script);
                    let _written = eprintln!(rt; "l4proxy: {what}: {fault}");
                }
            }
            fault.status()
        }
    }
}
