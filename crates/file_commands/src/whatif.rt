//! `l4proxy whatif`: the record of a configuration is played against another one.
use crate::audit::say_wrong;
use crate::files::{explain_refusal, open_script, unreadable};
use crate::progress::{Terminals, Watched};
use clap::ArgMatches;
use command_line::{DONE, REFUSED, USAGE};
use conn_model::reply::StepFault;
use device_core::{FromRead, ToWrite};
use replay_core::PrintFault;
use std::rt::Files;
use std::{fs, io, rt};
use whatif_core::{Comparison, run_whatif};

/// The files that the words name.
#[derive(Clone, Copy)]
struct Named<'a> {
    /// The configuration that the record was made with.
    old: &'a str,
    /// The other one, which the record is played against.
    new: &'a str,
    record: &'a str,
}

/// Which device or file a fault speaks of.
fn place<'a>(fault: &PrintFault, named: &Named<'a>) -> &'a str {
    match fault {
        PrintFault::Read => named.record,
        PrintFault::NoMemory => named.old,
        PrintFault::Write => "standard output",
    }
}

/// Says why the record cannot be played against the new configuration.
fn say_refused(rt: &(impl AllocGlobal + Eprint), named: &Named<'_>, text: &str, fault: &StepFault) {
    let (old, new) = (named.old, named.new);
    match fault {
        StepFault::BadConfig(refused) => explain_refusal(rt, new, text, refused),
        StepFault::BindChanged => {
            let _written = eprintln!(rt;
                "l4proxy: {new}: BindChanged: its frontends or their binds are not those of {old}"
            );
        }
        _ => {
            let _written = eprintln!(rt; "l4proxy: {new}: cannot be loaded");
        }
    }
}

/// Plays a record, and writes the line of each decision that differs and of each connection that is lost or saved, unless
/// a summary is wanted, and then what was counted. The configurations are read before the record is opened. On a terminal,
/// the progress of a long record is reported.
fn play_files<R: Files + AllocGlobal + Print + Eprint + rt::Clock>(
    rt: &R,
    named: &Named<'_>,
    summary: bool,
    terminals: Terminals,
) -> u8 {
    let Ok(old) = fs::read_to_string(rt, named.old) else {
        return unreadable(rt, named.old);
    };
    let Ok(new) = fs::read_to_string(rt, named.new) else {
        return unreadable(rt, named.new);
    };
    let Some(first) = open_script(rt, named.record) else {
        return unreadable(rt, named.record);
    };
    let Some(second) = open_script(rt, named.record) else {
        return unreadable(rt, named.record);
    };
    let record = named.record;
    let mut reader = FromRead::of(Watched::new(rt, first, record, "checked", terminals.errors));
    let reports = terminals.errors && (summary || !terminals.output);
    let mut again = FromRead::of(Watched::new(rt, second, record, "compared", reports));
    let mut writer = ToWrite::of(io::writer(rt));
    let found = run_whatif(
        rt.alloc(),
        summary,
        old.as_str(),
        new.as_str(),
        &mut reader,
        &mut again,
        &mut writer,
    );
    say_found(rt, named, old.as_str(), new.as_str(), found)
}

/// Says why a comparison was not made, and answers with which status it ends.
fn say_found(
    rt: &(impl Files + AllocGlobal + Eprint),
    named: &Named<'_>,
    old: &str,
    new: &str,
    found: Result<Comparison, PrintFault>,
) -> u8 {
    match found {
        Ok(Comparison::Compared(differing)) => { if differing == 0 { DONE } else { REFUSED } }
        Ok(Comparison::Wrong(fault)) => {
            say_wrong(rt, named.old, old, named.record, &fault);
            REFUSED
        }
        Ok(Comparison::Refused(fault)) => {
            say_refused(rt, named, new, &fault);
            REFUSED
        }
        Err(fault) => {
            let what = place(&fault, named);
            let _written = eprintln!(rt; "l4proxy: {what}: {fault}");
            fault.status()
        }
    }
}

/// Does what the words of the command ask for.
pub fn run<R: Files + AllocGlobal + Print + Eprint + rt::Clock>(
    rt: &R,
    given: &ArgMatches<'_>,
    terminals: Terminals,
) -> u8 {
    match (
        given.get_str("OLD"),
        given.get_str("NEW"),
        given.get_str("RECORD"),
    ) {
        (Some(old), Some(new), Some(record)) => {
            let named = Named { old, new, record };
            play_files(rt, &named, given.get_flag("summary"), terminals)
        }
        _ => USAGE,
    }
}
