//! The commands.
use clap::{Arg, ArgAction, Command, value_parser};
use proxy_types::MOST_WORKERS;
use std::alloc::{AllocError, Global};

/// The version of the program.
pub const VERSION: &str = "0.1.0";

/// How many workers there are if the words do not say.
const DEFAULT_WORKERS: &str = "2";

fn file<'a>(alloc: Global) -> Arg<'a> {
    Arg::new(alloc, "FILE")
        .required(true)
        .help("The configuration")
}

fn peer<'a>(alloc: Global) -> Arg<'a> {
    Arg::new(alloc, "PEER")
        .required(true)
        .help("Who connects, as 192.0.2.5:4000")
}

fn local<'a>(alloc: Global) -> Arg<'a> {
    Arg::new(alloc, "LOCAL")
        .required(true)
        .help("The address that is connected to, as 192.0.2.1:80")
}

fn check<'a>(alloc: Global) -> Result<Command<'a>, AllocError> {
    let haproxy = Arg::new(alloc, "haproxy")
        .long("haproxy")
        .action(ArgAction::SetTrue)
        .help(
            "Reads a configuration of HAProxy, and prints one for l4proxy, with what it leaves out as comments",
        );
    Command::new(alloc, "check")
        .about("Says whether a configuration is right, or what is wrong on which line")
        .arg(file(alloc))?
        .arg(haproxy)
}

fn replay<'a>(alloc: Global) -> Result<Command<'a>, AllocError> {
    let script = Arg::new(alloc, "SCRIPT")
        .required(true)
        .help("The events, one line each");
    Command::new(alloc, "replay")
        .about("Answers the events of a script, one line each")
        .arg(file(alloc))?
        .arg(script)
}

fn pipe<'a>(alloc: Global) -> Result<Command<'a>, AllocError> {
    let frontend = Arg::new(alloc, "FRONTEND").required(true).help(
        "The name of the frontend that is connected to, at its first bind",
    );
    Command::new(alloc, "pipe")
        .about("Passes one connection on, from standard input to standard output")
        .arg(file(alloc))?
        .arg(frontend)?
        .arg(peer(alloc))?
        .arg(local(alloc))
}

fn audit<'a>(alloc: Global) -> Result<Command<'a>, AllocError> {
    let record = Arg::new(alloc, "RECORD")
        .required(true)
        .help("The answered events, each with its reply");
    Command::new(alloc, "audit")
        .about("Checks a record, and prints a line for each connection that ended")
        .arg(file(alloc))?
        .arg(record)
}

fn whatif<'a>(alloc: Global) -> Result<Command<'a>, AllocError> {
    let old = Arg::new(alloc, "OLD")
        .required(true)
        .help("The configuration that the record was made with");
    let new = Arg::new(alloc, "NEW")
        .required(true)
        .help("The configuration that is tried");
    let record = Arg::new(alloc, "RECORD")
        .required(true)
        .help("The answered events, each with its reply");
    let summary = Arg::new(alloc, "summary")
        .long("summary")
        .action(ArgAction::SetTrue)
        .help("Leaves out the line of each connection, and prints the counts alone");
    Command::new(alloc, "whatif")
        .about(
            "Plays a record against another configuration, and prints what that decides otherwise",
        )
        .arg(old)?
        .arg(new)?
        .arg(record)?
        .arg(summary)
}

fn explain<'a>(alloc: Global) -> Result<Command<'a>, AllocError> {
    let frontend = Arg::new(alloc, "FRONTEND")
        .required(true)
        .help("The name of the frontend that is connected to");
    let header = Arg::new(alloc, "header")
        .long("header")
        .value_name("HEX")
        .help("The PROXY header that the connection begins with, in hexadecimal");
    Command::new(alloc, "explain")
        .about("Says which rules are tried for one connection, what they saw, and the reply")
        .arg(file(alloc))?
        .arg(frontend)?
        .arg(peer(alloc))?
        .arg(local(alloc))?
        .arg(header)
}

fn serve<'a>(alloc: Global) -> Result<Command<'a>, AllocError> {
    let workers = Arg::new(alloc, "workers")
        .long("workers")
        .value_name("N")
        .value_parser(value_parser!(u16).range(1..=i64::from(MOST_WORKERS)))
        .default_value(DEFAULT_WORKERS)
        .help("How many threads judge connections and pass them on, 1 to 64");
    let stats = Arg::new(alloc, "stats")
        .long("stats")
        .value_name("ADDR")
        .help("Answers `GET /metrics` on this address, as 127.0.0.1:9101");
    Command::new(alloc, "serve")
        .about("Takes connections and passes them on, until standard input says `quit` or ends")
        .arg(file(alloc))?
        .arg(workers)?
        .arg(stats)
}

/// The commands and their words.
pub fn commands<'a>(alloc: Global) -> Result<Command<'a>, AllocError> {
    Command::new(alloc, "l4proxy")
        .version(VERSION)
        .about("A layer 4 load balancer")
        .subcommand_required(true)
        .disable_help_subcommand(true)
        .subcommand(check(alloc)?)?
        .subcommand(replay(alloc)?)?
        .subcommand(pipe(alloc)?)?
        .subcommand(audit(alloc)?)?
        .subcommand(explain(alloc)?)?
        .subcommand(whatif(alloc)?)?
        .subcommand(serve(alloc)?)
}
