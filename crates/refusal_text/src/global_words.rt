//! What HAProxy has in `global`.
use crate::words::{Advice, Concern};

/// The keywords of `global` that are not taken there.
pub static GLOBAL: [Advice; 22] = [
    Advice {
        words: "maxconn",
        concern: Concern::Clients,
        values: 1,
        sentence: "there is no limit of the whole process: write maxconn in each frontend, which is 2000 without a line",
    },
    Advice {
        words: "maxconnrate maxsessrate maxsslrate maxcomprate rate-limit",
        concern: Concern::Clients,
        values: 1,
        sentence: "there are no rates, so nothing limits them: write maxconn in the frontends, and limit what a source has open by a stick-table with conn_cur",
    },
    Advice {
        words: "maxpipes maxsslconn maxzlibmem maxcompcpuusage fd-hard-limit ulimit-n",
        concern: Concern::Process,
        values: 1,
        sentence: "remove it: what the process may use is set by what starts it, as ulimit -n or LimitNOFILE",
    },
    Advice {
        words: "stats",
        concern: Concern::Process,
        values: 0,
        sentence: "there is no admin socket: remove it, and write serve --stats ADDR for numbers, and the words status, reload and quit on standard input",
    },
    Advice {
        words: "nbproc thread-group thread-groups cpu-map numa-cpu-mapping busy-polling noepoll nokqueue noevports nopoll nosplice noreuseport no-memory-trimming profiling.*",
        concern: Concern::Process,
        values: 0,
        sentence: "remove it: serve --workers N says how many threads there are",
    },
    Advice {
        words: "tune.*",
        concern: Concern::Process,
        values: 1,
        sentence: "remove it: there is nothing to tune, and docs/OPERATING.md says what a connection needs",
    },
    Advice {
        words: "uid gid set-dumpable strict-limits insecure-fork-wanted insecure-setuid-wanted expose-experimental-directives expose-fd unix-bind",
        concern: Concern::Process,
        values: 0,
        sentence: "remove it: the user, the rights and the limits are set by what starts the process",
    },
    Advice {
        words: "master-worker mworker-max-reloads hard-stop-after grace close-spread-time quick-exit",
        concern: Concern::Process,
        values: 0,
        sentence: "remove it: there is one process, which goes on over a reload, and open connections go on with it",
    },
    Advice {
        words: "ssl-* ca-base crt-base issuers-chain-path",
        concern: Concern::Process,
        values: 0,
        sentence: "there is no TLS here: remove it; TLS passes through to the servers as it is",
    },
    Advice {
        words: "lua-load lua-load-per-thread lua-prepend-path",
        concern: Concern::Clients,
        values: 1,
        sentence: "there is no Lua: what a script decides has to be written as tcp-request rules, or done by another program",
    },
    Advice {
        words: "log-send-hostname log-tag",
        concern: Concern::Process,
        values: 0,
        sentence: "there is no syslog: remove it; each decision is in the record that serve writes on standard output",
    },
    Advice {
        words: "description node localpeer cluster-secret quiet zero-warning",
        concern: Concern::Process,
        values: 0,
        sentence: "remove it: it names the process or says how much it writes, and decides nothing",
    },
    Advice {
        words: "setenv presetenv unsetenv resetenv set-var set-var-fmt",
        concern: Concern::Process,
        values: 0,
        sentence: "there are no variables: remove it, and write the values where they are used",
    },
    Advice {
        words: "server-state-base server-state-file",
        concern: Concern::Process,
        values: 1,
        sentence: "remove it: servers keep their state over a reload, and a new process begins with all servers up",
    },
    Advice {
        words: "spread-checks max-spread-checks",
        concern: Concern::Process,
        values: 1,
        sentence: "remove it: checks are always spread over inter",
    },
    Advice {
        words: "external-check",
        concern: Concern::Clients,
        values: 0,
        sentence: "no program is called for a check: remove it, and write check on the server's line, which checks that it accepts connections",
    },
    Advice {
        words: "default-path",
        concern: Concern::Process,
        values: 1,
        sentence: "remove it: a configuration names no files",
    },
    Advice {
        words: "h1-accept-payload-with-any-method h1-case-adjust h1-case-adjust-file h2-workaround-bogus-websocket-clients httpclient.*",
        concern: Concern::Http,
        values: 0,
        sentence: "there is no HTTP here, only TCP: remove it",
    },
    Advice {
        words: "51degrees-* deviceatlas-* wurfl-*",
        concern: Concern::Http,
        values: 0,
        sentence: "there is no HTTP here, so devices are not detected: remove it",
    },
    Advice {
        words: "nogetaddrinfo",
        concern: Concern::Process,
        values: 0,
        sentence: "remove it: names of hosts are not looked up",
    },
    Advice {
        words: "pp2-never-send-local",
        concern: Concern::Process,
        values: 0,
        sentence: "remove it: a check sends no PROXY header",
    },
    Advice {
        words: "no",
        concern: Concern::Process,
        values: 0,
        sentence: "nothing is negated here: remove the line",
    },
];
