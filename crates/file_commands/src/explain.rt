//! `l4proxy explain`: which rules are tried for one connection, what they saw, and the reply.
ghost use Rattle.std.specs.Prelude.{◌≤◌, length, IfOk, IfSome};
ghost use Rattle.conn_model.specs.declared.event.TheConstants.{PIECE_LIMIT};

use crate::files::{explain_refusal, unreadable};
use crate::pipe::pair;
use addr_core::Pair;
use clap::ArgMatches;
use command_line::{DEVICE, DONE, REFUSED, USAGE};
use conn_model::event::PIECE_LIMIT;
use conn_model::reply::{Reply, Said};
use device_core::{Failed, Output, ToWrite, write_all};
use explain_core::{ExplainFault, Explanation, explain};
use std::rt::Files;
use std::{fs, io};

/// The connection waits for its header.
const WAITS: u8 = 4;

/// The words of the command.
#[derive(Drop)]
struct ExplainWords<'a> {
    file: &'a str,
    frontend: &'a str,
    peer: &'a str,
    local: &'a str,
    header: Option<&'a str>,
}

/// What the words name.
fn words<'a>(given: &'a ArgMatches<'_>) -> Option<ExplainWords<'a>> {
    Some(ExplainWords {
        file: given.get_str("FILE")?,
        frontend: given.get_str("FRONTEND")?,
        peer: given.get_str("PEER")?,
        local: given.get_str("LOCAL")?,
        header: given.get_str("header"),
    })
}

/// The bytes of a header that is written in hexadecimal, or the status if there are none.
fn header_bytes(rt: &(impl AllocGlobal + Eprint), word: Option<&str>) -> Result<Option<Vec<u8>>, u8>
    ensures { IfOk result (λ header.
        IfSome header (λ bytes. length bytes.items ≤ PIECE_LIMIT)) }
{
    let Some(word) = word else {
        return Ok(None);
    };
    let half = word.len() / 2;
    let Ok(mut bytes) = vec![in rt.alloc(); 0; half] else {
        let _written = eprintln!(rt; "l4proxy: --header: no memory");
        return Err(DEVICE);
    };
    if half > PIECE_LIMIT || hex::decode_to_slice(word.as_bytes(), &mut bytes).is_err() {
        let _written = eprintln!(rt;
            "l4proxy: --header: the bytes of a PROXY header are needed here, two hexadecimal digits each"
        );
        return Err(USAGE);
    }
    Ok(Some(bytes))
}

/// The status of a reply that is the last one.
fn status_of(reply: &Reply) -> u8 {
    match &reply.said {
        Said::Offer { .. } => DONE,
        Said::Wait { .. } => WAITS,
        Said::Refuse { .. }
        | Said::Up { .. }
        | Said::Closed { .. }
        | Said::Reloaded { .. }
        | Said::Marked { .. } => REFUSED,
    }
}

/// Prints what was explained.
fn show<O: Output>(rt: &impl Eprint, explained: &Explanation, writer: &mut O) -> u8 {
    match write_all(writer, explained.text.as_slice()) {
        Ok(()) => status_of(&explained.reply),
        Err(Failed) => {
            let _written = eprintln!(rt; "l4proxy: standard output: cannot be written");
            DEVICE
        }
    }
}

/// Says why nothing is explained.
fn say_fault(
    rt: &(impl AllocGlobal + Eprint),
    words: &ExplainWords<'_>,
    text: &str,
    fault: &ExplainFault,
) -> u8 {
    match fault {
        ExplainFault::Config(refused) => {
            explain_refusal(rt, words.file, text, refused);
            REFUSED
        }
        ExplainFault::NoFrontend => {
            let _written = eprintln!(rt; "l4proxy: {}: {fault}", words.frontend);
            REFUSED
        }
        ExplainFault::NoMemory => {
            let _written = eprintln!(rt; "l4proxy: {}: {fault}", words.file);
            DEVICE
        }
    }
}

/// Explains a connection by a configuration.
fn explain_file<R: Files + AllocGlobal + Print + Eprint>(
    rt: &R,
    words: &ExplainWords<'_>,
    real: Pair,
    header: Option<&[u8]>,
) -> u8
    requires { IfSome header (λ bytes. length bytes.now ≤ PIECE_LIMIT) }
{
    let Ok(text) = fs::read_to_string(rt, words.file) else {
        return unreadable(rt, words.file);
    };
    let name = words.frontend.as_bytes();
    match explain(rt.alloc(), text.as_str(), name, real, header) {
        Ok(explained) => {
            let mut writer = ToWrite::of(io::writer(rt));
            show(rt, &explained, &mut writer)
        }
        Err(fault) => say_fault(rt, words, text.as_str(), &fault),
    }
}

/// Does what the words of the command ask for. PEER, LOCAL and the header are judged before FILE is read.
pub fn run<R: Files + AllocGlobal + Print + Eprint>(rt: &R, given: &ArgMatches<'_>) -> u8 {
    let Some(words) = words(given) else {
        return USAGE;
    };
    let Some(real) = pair(rt, words.peer, words.local) else {
        return USAGE;
    };
    match header_bytes(rt, words.header) {
        Ok(Some(bytes)) => explain_file(rt, &words, real, Some(bytes.as_slice())),
        Ok(None) => explain_file(rt, &words, real, None),
        Err(status) => status,
    }
}
