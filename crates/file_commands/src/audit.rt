//! `l4proxy audit`: a record is checked, and its connections are listed.
use crate::broken_off::entries_before;
use crate::files::{explain_refusal, open_script, unreadable};
use crate::progress::{Terminals, Watched};
use audit_core::{CheckFault, CheckKind, run_audit};
use clap::ArgMatches;
use command_line::{DONE, REFUSED, USAGE};
use device_core::{FromRead, ToWrite};
use replay_core::PrintFault;
use std::rt::Files;
use std::{fs, io, rt};

/// Which device or file a fault speaks of.
fn place<'a>(fault: &PrintFault, file: &'a str, record: &'a str) -> &'a str {
    match fault {
        PrintFault::Read => record,
        PrintFault::NoMemory => file,
        PrintFault::Write => "standard output",
    }
}

/// How many whole entries a record has before the line of that number, if it breaks off there. It is read once more.
fn whole_entries<R: Files + AllocGlobal>(
    rt: &R,
    text: &str,
    record: &str,
    line: u64,
) -> Option<u64> {
    let mut reader = FromRead::of(open_script(rt, record)?);
    entries_before(rt.alloc(), text, &mut reader, line)
}

/// Says how far a record is right that breaks off at the line of that number, which is the first wrong one.
fn say_broken_off<R: Files + AllocGlobal + Eprint>(rt: &R, text: &str, record: &str, line: u64) {
    let Some(whole) = whole_entries(rt, text, record, line) else {
        return;
    };
    let entries = if whole == 1 {
        "entry is"
    } else {
        "entries are"
    };
    let _written = eprintln!(rt;
        "l4proxy: {record}: it ends in the midst of an entry: {whole} whole {entries} right, and it breaks off at line {line}"
    );
}

/// Says what is wrong with a record, or with its configuration, if the line of the fault does not say all.
pub fn say_wrong<R: Files + AllocGlobal + Eprint>(
    rt: &R,
    file: &str,
    text: &str,
    record: &str,
    fault: &CheckFault,
) {
    match &fault.kind {
        CheckKind::Config(refused) => explain_refusal(rt, file, text, refused),
        CheckKind::Format | CheckKind::WrongReply => say_broken_off(rt, text, record, fault.line),
        CheckKind::NoMemory | CheckKind::Read | CheckKind::TooLong => {}
    }
}

/// Checks a record, and writes a line for each connection that ended. The configuration is read before the record is
/// opened. On a terminal, the progress of a long record is reported.
fn audit_files<R: Files + AllocGlobal + Print + Eprint + rt::Clock>(
    rt: &R,
    file: &str,
    record: &str,
    terminals: Terminals,
) -> u8 {
    let Ok(text) = fs::read_to_string(rt, file) else {
        return unreadable(rt, file);
    };
    let Some(first) = open_script(rt, record) else {
        return unreadable(rt, record);
    };
    let Some(second) = open_script(rt, record) else {
        return unreadable(rt, record);
    };
    let mut reader = FromRead::of(Watched::new(rt, first, record, "checked", terminals.errors));
    let reports = terminals.errors && !terminals.output;
    let mut again = FromRead::of(Watched::new(rt, second, record, "listed", reports));
    let mut writer = ToWrite::of(io::writer(rt));
    match run_audit(
        rt.alloc(),
        text.as_str(),
        &mut reader,
        &mut again,
        &mut writer,
    ) {
        Ok(None) => DONE,
        Ok(Some(fault)) => {
            say_wrong(rt, file, text.as_str(), record, &fault);
            REFUSED
        }
        Err(fault) => {
            let what = place(&fault, file, record);
            let _written = eprintln!(rt; "l4proxy: {what}: {fault}");
            fault.status()
        }
    }
}

/// Does what the words of the command ask for.
pub fn run<R: Files + AllocGlobal + Print + Eprint + rt::Clock>(
    rt: &R,
    given: &ArgMatches<'_>,
    terminals: Terminals,
) -> u8 {
    match (given.get_str("FILE"), given.get_str("RECORD")) {
        (Some(file), Some(record)) => audit_files(rt, file, record, terminals),
        _ => USAGE,
    }
}
