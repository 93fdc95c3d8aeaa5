//! `l4proxy pipe`: one connection, from standard input to standard output.
use crate::files::{explain_refusal, unreadable};
use addr_core::{Endpoint, Pair, read_endpoint};
use clap::ArgMatches;
use command_line::USAGE;
use conn_model::reply::Cause;
use device_core::{FromRead, ToWrite};
use pipe_core::{PipeEnd, PipeFault, run_pipe};
use std::rt::Files;
use std::{fs, io};

/// The words of the command.
#[derive(Drop)]
struct PipeWords<'a> {
    file: &'a str,
    frontend: &'a str,
    peer: &'a str,
    local: &'a str,
}

/// What the words name.
fn words<'a>(given: &'a ArgMatches<'_>) -> Option<PipeWords<'a>> {
    Some(PipeWords {
        file: given.get_str("FILE")?,
        frontend: given.get_str("FRONTEND")?,
        peer: given.get_str("PEER")?,
        local: given.get_str("LOCAL")?,
    })
}

/// The endpoint of a word, or else what is wrong with it is said.
fn endpoint(rt: &impl Eprint, name: &str, word: &str) -> Option<Endpoint> {
    match read_endpoint(word.as_bytes()) {
        Ok(endpoint) => Some(endpoint),
        Err(_) => {
            let _written = eprintln!(rt;
                "l4proxy: {name}: an address with a port is needed here, as 192.0.2.1:80 or [2001:db8::1]:80, not `{word}`"
            );
            None
        }
    }
}

/// The pair of the words, or else what is wrong with them is said.
pub fn pair(rt: &impl Eprint, peer: &str, local: &str) -> Option<Pair> {
    let peer = endpoint(rt, "PEER", peer)?;
    let local = endpoint(rt, "LOCAL", local)?;
    let pair = Pair::of(peer, local);
    if pair.is_none() {
        let _written = eprintln!(rt;
            "l4proxy: PEER and LOCAL are to be of one family, both IPv4 or both IPv6"
        );
    }
    pair
}

/// Says why a connection is refused.
fn say_cause(rt: &impl Eprint, file: &str, cause: &Cause) {
    let _written = match cause {
        Cause::Line(line) => eprintln!(rt; "l4proxy: refused by {file}:{line}"),
        Cause::Header(fault) => eprintln!(rt;
            "l4proxy: refused: its PROXY header is wrong: {fault:?}"
        ),
        Cause::Expired => eprintln!(rt; "l4proxy: refused: its PROXY header did not come in time"),
        Cause::NoBackend(line) => eprintln!(rt;
            "l4proxy: refused: {file}:{line} names no backend for it"
        ),
        Cause::NoServer(line) => eprintln!(rt;
            "l4proxy: refused: {file}:{line} has no server for it"
        ),
    };
}

/// Says how the connection ended, if its server got nothing.
fn say_end(rt: &impl Eprint, file: &str, end: &PipeEnd) {
    match end {
        PipeEnd::Offered(_) => {}
        PipeEnd::Refused(cause) => say_cause(rt, file, cause),
        PipeEnd::Unfinished => {
            let _written = eprintln!(rt; "l4proxy: standard input ended in the PROXY header");
        }
    }
}

/// Says why nothing more was passed on.
fn say_fault(
    rt: &(impl AllocGlobal + Eprint),
    words: &PipeWords<'_>,
    text: &str,
    fault: &PipeFault,
) {
    let place = match fault {
        PipeFault::Config(refused) => return explain_refusal(rt, words.file, text, refused),
        PipeFault::NoFrontend => words.frontend,
        PipeFault::Read => "standard input",
        PipeFault::Write => "standard output",
        PipeFault::NoMemory => words.file,
    };
    let _written = eprintln!(rt; "l4proxy: {place}: {fault}");
}

/// Passes a connection on, by a configuration.
fn pipe_file<R: Files + AllocGlobal + io::Input + Print + Eprint>(
    rt: &R,
    words: &PipeWords<'_>,
    real: Pair,
) -> u8 {
    let Ok(text) = fs::read_to_string(rt, words.file) else {
        return unreadable(rt, words.file);
    };
    let mut reader = FromRead::of(rt.reader());
    let mut writer = ToWrite::of(io::writer(rt));
    let name = words.frontend.as_bytes();
    match run_pipe(
        rt.alloc(),
        text.as_str(),
        name,
        real,
        &mut reader,
        &mut writer,
    ) {
        Ok(end) => {
            say_end(rt, words.file, &end);
            end.status()
        }
        Err(fault) => {
            say_fault(rt, words, text.as_str(), &fault);
            fault.status()
        }
    }
}

/// Passes standard input on to standard output. PEER and LOCAL are judged before FILE is read.
pub fn run<R: Files + AllocGlobal + io::Input + Print + Eprint>(
    rt: &R,
    given: &ArgMatches<'_>,
) -> u8 {
    let Some(words) = words(given) else {
        return USAGE;
    };
    match pair(rt, words.peer, words.local) {
        Some(real) => pipe_file(rt, &words, real),
        None => USAGE,
    }
}
