//! Sides that say nothing: which of them is waited for, and which is named.
use crate::tests::link::{Script, Text};
use crate::tests::outcome::{fault_of, made};
use crate::tests::play::{Play, Word};
use crate::tests::stage::Mark;
use crate::tests::workers::{CLIENT, PLAIN, SERVER};

/// A server that takes the request, and neither answers nor ends.
const SILENT_SERVER: Script = Script {
    gives: Text::Nothing,
    ..SERVER
};

/// The client has a second, and its server three.
const SHORT_CLIENT: Play<'static> = Play {
    text: "frontend f\nbind 127.0.0.1:8080\ntimeout client 1s\ndefault_backend b\nbackend b\ntimeout server 3s\nserver s 10.0.0.20:80\n",
    server: SILENT_SERVER,
    step: 100,
    ..PLAIN
};

/// The other way round.
const SHORT_SERVER: Play<'static> = Play {
    text: "frontend f\nbind 127.0.0.1:8080\ntimeout client 3s\ndefault_backend b\nbackend b\ntimeout server 1s\nserver s 10.0.0.20:80\n",
    ..SHORT_CLIENT
};

/// A client that ends its sending after the request.
const ENDED_CLIENT: Script = Script {
    ends_after: None,
    ..CLIENT
};

const CLIENT_ENDS: Play<'static> = Play {
    clients: &[ENDED_CLIENT],
    ..SHORT_CLIENT
};

/// The server ends its sending at once.
const SERVER_ENDS: Play<'static> = Play {
    server: Script {
        ends_after: None,
        ..SILENT_SERVER
    },
    ..SHORT_SERVER
};

/// The server answers.
const SPEAKING: Play<'static> = Play {
    server: SERVER,
    ..SHORT_CLIENT
};

/// What it shows, a run, and how its connection ends.
static RUNS: [(&str, Play<'static>, &str); 5] = [
    (
        "the client's time is shorter",
        SHORT_CLIENT,
        "client-timeout",
    ),
    (
        "the server's time is shorter",
        SHORT_SERVER,
        "server-timeout",
    ),
    (
        "the client has ended its sending",
        CLIENT_ENDS,
        "server-timeout",
    ),
    (
        "the server has ended its sending",
        SERVER_ENDS,
        "client-timeout",
    ),
    ("both speak in time", SPEAKING, "done"),
];

/// Of two silent sides the shorter time ends the connection. A side that has ended its sending is not waited for.
#[test]
fn silent_sides_are_waited_for_and_named(rt: HostRuntime) {
    for (name, play, end) in &RUNS {
        let words: [Word; 3] = [("offer", 7), ("up", 1), (*end, 1)];
        let fault = fault_of(&rt, rt.alloc(), &rt, play, &words, &made(3));
        assert_eq!(rt; fault, None, "{name}");
    }
}
