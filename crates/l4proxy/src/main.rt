//! A layer 4 load balancer.
//!
//! `l4proxy check FILE` says on standard output whether the configuration FILE is right, in one line.
//! `l4proxy replay FILE SCRIPT` opens the configuration FILE and answers the events of SCRIPT, one
//! line each, on standard output. `l4proxy pipe FILE FRONTEND PEER LOCAL` passes one connection on, from
//! standard input to standard output. `l4proxy audit FILE RECORD` answers the events of RECORD again and
//! compares each reply. `l4proxy explain FILE FRONTEND PEER LOCAL` says which rules are tried for one
//! connection, what they saw, and the reply; its status is 4 if the connection waits for its header.
//! `l4proxy whatif OLD NEW RECORD` plays the record of OLD against NEW, and says which connections
//! NEW decides otherwise. `l4proxy serve FILE` takes connections and passes them on, and writes the
//! record of them on standard output, until standard input says `quit` or ends. The exit status is 0
//! when that is done, 1 if the configuration or the connection is refused, a line of the script hands
//! in no event, one of the record is wrong or something differs, 2 for words that are no command, and
//! 3 if something cannot be read or written, or memory ran out.
#![tactic(auto)]

use crate::serve::ServeSetup;
use clap::error::ErrorKind;
use command_line::{DEVICE, DONE, ServeWords, USAGE, commands};
use crew_core::CrewFault;
use file_commands::{Terminals, run_command};
use replay_core::PrintFault;
use serve_setup::{
    Questions, ServeSockets, Watch, answer_stats, fail, listen_for_stats, read_words, time_of_start,
};
use socket_core::SystemClock;
use std::io::IsTerminal;
use std::process::ExitCode;
use std::rt::Files;
use std::{env, io, rt, thread};

mod serve;

/// What the words ask for.
#[derive(Drop)]
enum Asked {
    /// It is done, with that status.
    Done(u8),
    /// To serve, which begins where threads can be started.
    Serve(ServeWords),
}

/// Does what the words ask for, unless that is to serve.
fn run<R: Files + AllocGlobal + io::Input + Print + Eprint + rt::Clock>(
    rt: &R,
    words: &[String],
    terminals: Terminals,
) -> Result<Asked, clap::Error> {
    let matches = commands(rt.alloc())?.try_get_matches_from(words)?;
    match matches.subcommand() {
        Some(("serve", given)) => Ok(Asked::Serve(ServeWords::of(rt.alloc(), given)?)),
        Some((name, given)) => Ok(Asked::Done(run_command(rt, name, given, terminals))),
        None => Ok(Asked::Done(USAGE)),
    }
}

/// Says that memory ran out before there was anything to do.
fn out_of_memory(rt: &impl Eprint) -> u8 {
    let _written = eprintln!(rt; "l4proxy: out of memory");
    DEVICE
}

/// The words of the command line, or the status if there are none.
fn arguments(rt: &(impl env::Env + AllocGlobal + Eprint)) -> Result<Vec<String>, u8> {
    match env::args(rt) {
        Ok(words) => words.collect(rt.alloc()).map_err(|_| out_of_memory(rt)),
        Err(error) if error.kind() == io::ErrorKind::OutOfMemory => Err(out_of_memory(rt)),
        Err(_) => Err(USAGE),
    }
}

/// Does what the command line asks for, unless that is to serve: then its words. Or else the status.
fn words_to_serve<R: env::Env + Files + AllocGlobal + io::Input + Print + Eprint + rt::Clock>(
    rt: &R,
    terminals: Terminals,
) -> Result<ServeWords, u8> {
    let words = arguments(rt)?;
    match run(rt, words.as_slice(), terminals) {
        Ok(Asked::Serve(words)) => Ok(words),
        Ok(Asked::Done(status)) => Err(status),
        Err(error) => Err(print_usage(rt, &error)),
    }
}

fn main(rt: HostRuntime) -> ExitCode {
    let terminals = Terminals {
        output: rt.stdout().is_terminal(),
        errors: rt.stderr().is_terminal(),
    };
    let words = match words_to_serve(&rt, terminals) {
        Ok(words) => words,
        Err(status) => return ExitCode::from(status),
    };
    let clock = match SystemClock::start(&rt) {
        Ok(clock) => clock,
        Err(error) => return ExitCode::from(fail(&rt, &error)),
    };
    let started = time_of_start(&rt);
    let listener = match listen_for_stats(&rt, &words) {
        Ok(listener) => listener,
        Err(status) => return ExitCode::from(status),
    };
    let setup = match serve::open(&rt, &clock, &words) {
        Ok(setup) => setup,
        Err(status) => return ExitCode::from(status),
    };
    let ServeSetup {
        book,
        segments,
        sockets,
    } = setup;
    let ServeSockets {
        mut door,
        commands,
        dials,
        checker,
        watch,
    } = sockets;
    let Watch {
        asker,
        stats_asker,
        first,
    } = watch;
    let questions = Questions {
        asker,
        started,
        first,
    };
    // What goes to a thread is made here, where the runtime is known. The reader of standard input is not waited for:
    // it may be in a read when the crew ends for another cause. Nor are the checker, which ends once the door is gone, and
    // the thread that answers requests for the state.
    let ServeWords { file, workers, .. } = words;
    let reader = match rt.clone() {
        Ok(handle) => thread::spawn(&rt, move || {
            read_words(&handle, file.as_str(), commands, questions)
        })
        .is_ok(),
        Err(_) => false,
    };
    let mut checker = checker;
    let is_checking = match rt.clone() {
        Ok(handle) => thread::spawn(&rt, move || checker.run(&handle)).is_ok(),
        Err(_) => false,
    };
    let is_answering = match listener {
        Some(listener) => match rt.clone() {
            Ok(handle) => thread::spawn(&rt, move || {
                answer_stats(&handle, &listener, stats_asker, started)
            })
            .is_ok(),
            Err(_) => false,
        },
        None => true,
    };
    if !reader || !is_checking || !is_answering {
        book.end();
        return ExitCode::from(fail(&rt, &CrewFault::Spawn));
    }
    ExitCode::from(serve::run(&rt, &clock, book, segments, &mut door, dials, workers))
}

/// Prints why the words are no command, or the help that they ask for.
fn print_usage(rt: &(impl Print + Eprint), error: &clap::Error) -> u8 {
    if error.kind() == ErrorKind::OutOfMemory {
        return out_of_memory(rt);
    }
    match error.print(rt) {
        Ok(()) if error.use_stderr() => USAGE,
        Ok(()) => DONE,
        Err(fault) if fault.kind() == io::ErrorKind::OutOfMemory => out_of_memory(rt),
        Err(_) => {
            let _written = eprintln!(rt; "l4proxy: standard output: {}", PrintFault::Write);
            DEVICE
        }
    }
}
