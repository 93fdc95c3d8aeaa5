//! `l4proxy check`: whether a configuration is right, and what one of HAProxy's is for `l4proxy`.
use crate::files::{explain_refusal, unreadable};
use crate::warnings::warn_of_text;
use clap::ArgMatches;
use command_line::{DEVICE, DONE, REFUSED};
use device_core::{Failed, ToWrite, write_all};
use haproxy_text::{CarriedConfig, carry_over};
use replay_core::{PrintFault, run_check};
use std::rt::Files;
use std::{fs, io};

/// Which device or file a fault speaks of.
fn printed_place<'a>(fault: &PrintFault, file: &'a str) -> &'a str {
    match fault {
        PrintFault::Read | PrintFault::NoMemory => file,
        PrintFault::Write => "standard output",
    }
}

/// Says whether a configuration is right, and then warns of what it lacks. No warning changes the status.
fn check_file<R: Files + AllocGlobal + Print + Eprint>(rt: &R, file: &str) -> u8 {
    let Ok(text) = fs::read_to_string(rt, file) else {
        return unreadable(rt, file);
    };
    let mut writer = ToWrite::of(io::writer(rt));
    match run_check(rt.alloc(), text.as_str(), &mut writer) {
        Ok(None) => {
            warn_of_text(rt, file, text.as_str());
            DONE
        }
        Ok(Some(fault)) => {
            explain_refusal(rt, file, text.as_str(), &fault);
            REFUSED
        }
        Err(fault) => {
            let what = printed_place(&fault, file);
            let _written = eprintln!(rt; "l4proxy: {what}: {fault}");
            fault.status()
        }
    }
}

/// Says on standard error what of HAProxy's configuration is not carried over, if it concerns clients.
fn say_carried(rt: &impl Eprint, file: &str, carried: &CarriedConfig) -> u8 {
    if carried.of_clients > 0 {
        let _written = eprintln!(rt;
            "l4proxy: {file}: {} lines that limit, refuse, keep or serve clients are left out",
            carried.of_clients
        );
    }
    if !carried.is_accepted {
        let _written = eprintln!(rt;
            "l4proxy: {file}: what is written is no configuration: check says why"
        );
    }
    if carried.of_clients > 0 || !carried.is_accepted {
        REFUSED
    } else {
        DONE
    }
}

/// Prints the configuration for `l4proxy` that says what a configuration of HAProxy's says.
fn carry_file<R: Files + AllocGlobal + Print + Eprint>(rt: &R, file: &str) -> u8 {
    let Ok(text) = fs::read_to_string(rt, file) else {
        return unreadable(rt, file);
    };
    let Ok(carried) = carry_over(rt.alloc(), text.as_str()) else {
        let _written = eprintln!(rt; "l4proxy: {file}: {}", PrintFault::NoMemory);
        return DEVICE;
    };
    let mut writer = ToWrite::of(io::writer(rt));
    match write_all(&mut writer, carried.text.as_bytes()) {
        Ok(()) => say_carried(rt, file, &carried),
        Err(Failed) => {
            let _written = eprintln!(rt; "l4proxy: standard output: {}", PrintFault::Write);
            DEVICE
        }
    }
}

/// Does what the words of the command ask for.
pub fn run<R: Files + AllocGlobal + Print + Eprint>(
    rt: &R,
    file: &str,
    given: &ArgMatches<'_>,
) -> u8 {
    if given.get_flag("haproxy") {
        carry_file(rt, file)
    } else {
        check_file(rt, file)
    }
}
