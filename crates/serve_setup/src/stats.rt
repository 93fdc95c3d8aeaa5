//! The state of `l4proxy serve`, as an operator asks for it.
use crate::sockets::fail;
use addr_core::{Endpoint, read_endpoint, write_endpoint};
use command_line::{ServeWords, USAGE, VERSION};
use socket_core::{StatsListener, StatusAsker};
use status_core::{Process, write_status};
use std::alloc::AllocError;
use std::net::{Net, TcpListener, TcpStream};
use std::rt;
use std::time::{SystemTime, UNIX_EPOCH};

/// When the program was started, in ms since 1970; 0 where the system gives no time.
pub fn time_of_start<R: rt::Clock>(rt: &R) -> u64 {
    let Ok(now) = SystemTime::now(rt) else {
        return 0;
    };
    match now.duration_since(UNIX_EPOCH) {
        Ok(since) => u64::try_from(since.as_millis()).unwrap_or(u64::MAX),
        Err(_) => 0,
    }
}

/// What is known of a process that was started then.
fn process(started: u64) -> Process<'static> {
    Process {
        version: VERSION,
        started,
    }
}

/// The address of a word, or else what is wrong with it is said.
fn address(rt: &impl Eprint, word: &str) -> Result<Endpoint, u8> {
    match read_endpoint(word.as_bytes()) {
        Ok(at) => Ok(at),
        Err(_) => {
            let _written = eprintln!(rt;
                "l4proxy: --stats: an address with a port is needed here, as 127.0.0.1:9101 or [::1]:9101, not `{word}`"
            );
            Err(USAGE)
        }
    }
}

/// Listens where `--stats` says, and says it. If that fails, it says why and gives the status.
pub fn listen_for_stats<R: Net<Listener = TcpListener, Stream = TcpStream> + Eprint>(
    rt: &R,
    words: &ServeWords,
) -> Result<Option<StatsListener>, u8> {
    let Some(word) = &words.stats else {
        return Ok(None);
    };
    let at = address(rt, word.as_str())?;
    match StatsListener::bind(rt, &at) {
        Ok(listener) => {
            say_listener(rt, &listener);
            Ok(Some(listener))
        }
        Err(fault) => Err(fail(rt, &fault)),
    }
}

/// Says where it is asked for its state.
fn say_listener(rt: &impl Eprint, listener: &StatsListener) {
    if let Some(at) = listener.at() {
        let at = write_endpoint(&at);
        let _written = eprintln!(rt; "l4proxy: metrics on {at}");
    }
}

/// Answers requests for the state for as long as the process is there.
pub fn answer_stats<R: AllocGlobal + rt::Clock>(
    rt: &R,
    listener: &StatsListener,
    asker: StatusAsker,
    started: u64,
) {
    let mut asker = asker;
    listener.answer_all(rt, rt.alloc(), &process(started), &mut asker);
}

/// Why the state was not written.
pub(crate) enum StatusFault {
    /// It did not come, as after `quit`, or there was no memory for it.
    Unknown,
    NoMemory,
}

/// Writes the state on standard error.
pub(crate) fn say<R: AllocGlobal + rt::Clock + Eprint>(
    rt: &R,
    asker: &mut StatusAsker,
    started: u64,
) -> Result<(), StatusFault> {
    let Some(status) = asker.ask(rt) else {
        return Err(StatusFault::Unknown);
    };
    let mut text = Vec::new(rt.alloc());
    if let Err(AllocError) = write_status(&mut text, &process(started), &status) {
        return Err(StatusFault::NoMemory);
    }
    let text = std::str::from_utf8(text.as_slice()).unwrap_or("");
    let _written = eprint!(rt; "{text}");
    Ok(())
}
