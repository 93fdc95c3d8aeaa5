//! Which command is done.
use crate::progress::Terminals;
use crate::replay::replay_files;
use crate::{audit, check, explain, pipe, whatif};
use clap::ArgMatches;
use command_line::USAGE;
use std::rt::Files;
use std::{io, rt};

/// Does what the words of a command of that name ask for, and answers the exit status.
pub fn run_command<R: Files + AllocGlobal + io::Input + Print + Eprint + rt::Clock>(
    rt: &R,
    name: &str,
    given: &ArgMatches<'_>,
    terminals: Terminals,
) -> u8 {
    match (name, given.get_str("FILE"), given.get_str("SCRIPT")) {
        ("check", Some(file), _) => check::run(rt, file, given),
        ("replay", Some(file), Some(script)) => replay_files(rt, file, script),
        ("pipe", Some(_), _) => pipe::run(rt, given),
        ("audit", Some(_), _) => audit::run(rt, given, terminals),
        ("explain", Some(_), _) => explain::run(rt, given),
        ("whatif", _, _) => whatif::run(rt, given, terminals),
        _ => USAGE,
    }
}
