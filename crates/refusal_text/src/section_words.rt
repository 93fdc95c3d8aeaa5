//! What HAProxy has as sections, and as lines of `defaults`, `frontend`, `listen` and `backend`.
use crate::words::{Advice, Concern};

/// What begins a section that is not taken.
pub static SECTIONS: [Advice; 10] = [
    Advice {
        words: "listen",
        concern: Concern::Clients,
        values: 1,
        sentence: "there is no listen: write a frontend with its bind lines and rules, and a backend of the same name with its servers",
    },
    Advice {
        words: "userlist",
        concern: Concern::Http,
        values: 1,
        sentence: "there is no HTTP here, so no passwords: remove the section",
    },
    Advice {
        words: "peers",
        concern: Concern::Process,
        values: 1,
        sentence: "there are no peers: remove the section; tables are kept over a reload of this process, and are not shared with others",
    },
    Advice {
        words: "resolvers",
        concern: Concern::Process,
        values: 1,
        sentence: "names of hosts are not looked up: remove the section, and write the addresses of the servers",
    },
    Advice {
        words: "mailers",
        concern: Concern::Process,
        values: 1,
        sentence: "no mail is sent: remove the section; serve writes a line on standard error when a server goes down or up",
    },
    Advice {
        words: "cache http-errors fcgi-app",
        concern: Concern::Http,
        values: 1,
        sentence: "there is no HTTP here, only TCP: remove the section",
    },
    Advice {
        words: "ring log-forward log-profile traces",
        concern: Concern::Process,
        values: 1,
        sentence: "there is no syslog: remove the section; each decision is in the record that serve writes on standard output",
    },
    Advice {
        words: "program",
        concern: Concern::Process,
        values: 1,
        sentence: "no other program is started: remove the section, and start it beside this one",
    },
    Advice {
        words: "crt-store",
        concern: Concern::Process,
        values: 0,
        sentence: "there is no TLS here: remove the section; TLS passes through to the servers as it is",
    },
    Advice {
        words: "ruleset",
        concern: Concern::Http,
        values: 0,
        sentence: "there is no HTTP here, only TCP: remove the section",
    },
];

/// Keywords that none of these sections takes.
pub static LINES: [Advice; 38] = [
    Advice {
        words: "default-server",
        concern: Concern::Clients,
        values: 0,
        sentence: "there is no default-server: write its options on each server line below it",
    },
    Advice {
        words: "server-template",
        concern: Concern::Clients,
        values: 0,
        sentence: "there are no templates: write a server line for each server, with its address",
    },
    Advice {
        words: "use-server",
        concern: Concern::Clients,
        values: 0,
        sentence: "no rule chooses a server: write a backend for that server, and a use_backend line with the condition",
    },
    Advice {
        words: "dispatch",
        concern: Concern::Clients,
        values: 1,
        sentence: "write a server line with this address in place of dispatch",
    },
    Advice {
        words: "transparent",
        concern: Concern::Clients,
        values: 0,
        sentence: "connections are not passed on to where the client meant to go: write server lines",
    },
    Advice {
        words: "source usesrc",
        concern: Concern::Clients,
        values: 0,
        sentence: "servers are connected to from the machine's own address: to hand on the client's address, write send-proxy-v2 on the server's line",
    },
    Advice {
        words: "stick",
        concern: Concern::Clients,
        values: 0,
        sentence: "a table keeps no client at its server: write balance source, which sends a source to the same server as long as the servers stay the same",
    },
    Advice {
        words: "persist force-persist ignore-persist appsession",
        concern: Concern::Clients,
        values: 0,
        sentence: "no client is kept at its server by what it sends: write balance source, which goes by its address",
    },
    Advice {
        words: "hash-type hash-balance-factor",
        concern: Concern::Clients,
        values: 0,
        sentence: "balance source has one hash, the address modulo the weights, so a server that comes or goes moves most sources: remove the line if that is right for you",
    },
    Advice {
        words: "rate-limit",
        concern: Concern::Clients,
        values: 2,
        sentence: "there are no rates, so nothing limits them: write maxconn in the frontend, and limit what a source has open by a stick-table with conn_cur",
    },
    Advice {
        words: "fullconn",
        concern: Concern::Clients,
        values: 1,
        sentence: "limits do not move with the load: write maxconn on each server line, and leave out minconn",
    },
    Advice {
        words: "backlog",
        concern: Concern::Process,
        values: 1,
        sentence: "remove it: the kernel's queue is as long as net.core.somaxconn allows",
    },
    Advice {
        words: "tcp-check",
        concern: Concern::Clients,
        values: 0,
        sentence: "a check sends and expects nothing: remove it, and write check on the server's line, which checks that it accepts connections",
    },
    Advice {
        words: "http-check",
        concern: Concern::Clients,
        values: 0,
        sentence: "a check sends no HTTP: remove it, and write check on the server's line, which checks that it accepts connections",
    },
    Advice {
        words: "external-check",
        concern: Concern::Clients,
        values: 0,
        sentence: "no program is called for a check: remove it, and write check on the server's line, which checks that it accepts connections",
    },
    Advice {
        words: "tcp-response",
        concern: Concern::Clients,
        values: 0,
        sentence: "what servers send is passed on unread: no rule can look at it",
    },
    Advice {
        words: "filter",
        concern: Concern::Clients,
        values: 0,
        sentence: "there are no filters: bytes are passed on as they are",
    },
    Advice {
        words: "monitor-net",
        concern: Concern::Clients,
        values: 1,
        sentence: "no address is answered without a server: refuse it by tcp-request connection reject if { src NETWORK }, and ask serve --stats for the state",
    },
    Advice {
        words: "monitor monitor-uri",
        concern: Concern::Http,
        values: 0,
        sentence: "there is no HTTP here: remove it, and ask serve --stats ADDR for the state",
    },
    Advice {
        words: "stats",
        concern: Concern::Process,
        values: 0,
        sentence: "there is no statistics page: remove it, and write serve --stats ADDR, which answers GET /metrics",
    },
    Advice {
        words: "disabled",
        concern: Concern::Clients,
        values: 0,
        sentence: "no section is disabled as a whole: remove the section",
    },
    Advice {
        words: "enabled",
        concern: Concern::Process,
        values: 0,
        sentence: "remove it: each section is enabled",
    },
    Advice {
        words: "bind-process",
        concern: Concern::Process,
        values: 0,
        sentence: "remove it: there is one process, and serve --workers N says how many threads it has",
    },
    Advice {
        words: "log-format log-format-sd log-tag error-log-format unique-id-format",
        concern: Concern::Process,
        values: 0,
        sentence: "there is no log with a format: remove it; each decision is in the record that serve writes on standard output",
    },
    Advice {
        words: "email-alert",
        concern: Concern::Process,
        values: 0,
        sentence: "no mail is sent: remove it; serve writes a line on standard error when a server goes down or up",
    },
    Advice {
        words: "description id guid",
        concern: Concern::Process,
        values: 0,
        sentence: "remove it: a section is known by its name",
    },
    Advice {
        words: "load-server-state-from-file server-state-file-name",
        concern: Concern::Process,
        values: 0,
        sentence: "remove it: servers keep their state over a reload, and a new process begins with all servers up",
    },
    Advice {
        words: "clitcpka-cnt clitcpka-idle clitcpka-intvl srvtcpka-cnt srvtcpka-idle srvtcpka-intvl",
        concern: Concern::Clients,
        values: 1,
        sentence: "there are no keepalive probes: timeout client and timeout server end connections whose other side is gone",
    },
    Advice {
        words: "clitimeout",
        concern: Concern::Clients,
        values: 1,
        sentence: "write timeout client",
    },
    Advice {
        words: "srvtimeout",
        concern: Concern::Clients,
        values: 1,
        sentence: "write timeout server",
    },
    Advice {
        words: "contimeout",
        concern: Concern::Clients,
        values: 1,
        sentence: "write timeout connect",
    },
    Advice {
        words: "grace",
        concern: Concern::Process,
        values: 1,
        sentence: "remove it: listeners stay over a reload",
    },
    Advice {
        words: "retry-on",
        concern: Concern::Http,
        values: 0,
        sentence: "remove it: a server that refuses or does not accept is dialled again, as retries says, and nothing else is tried again",
    },
    Advice {
        words: "http-request http-response http-after-response redirect",
        concern: Concern::Http,
        values: 0,
        sentence: "there is no HTTP here, so no request is looked at: refuse clients by tcp-request connection reject, or leave this to the servers",
    },
    Advice {
        words: "cookie capture declare compression errorfile errorfiles errorloc errorloc302 errorloc303 http-error http-reuse http-send-name-header max-keep-alive-queue unique-id-header use-fcgi-app",
        concern: Concern::Http,
        values: 0,
        sentence: "there is no HTTP here, only TCP: remove it",
    },
    Advice {
        words: "no",
        concern: Concern::Clients,
        values: 0,
        sentence: "nothing is negated here: remove the line, and the line that it negates",
    },
    Advice {
        words: "default",
        concern: Concern::Clients,
        values: 0,
        sentence: "no line is put back to its default here: remove the line, and the one in defaults that it takes back",
    },
    Advice {
        words: ".if .elif .else .endif .notice .warning .alert .diag",
        concern: Concern::Clients,
        values: 0,
        sentence: "lines have no conditions of their own: write the lines that count, and remove this one",
    },
];

/// After `option`.
pub static OPTIONS: [Advice; 14] = [
    Advice {
        words: "httpchk",
        concern: Concern::Clients,
        values: 0,
        sentence: "a check sends no HTTP: remove the line, and write check on the server's line, which checks that it accepts connections",
    },
    Advice {
        words: "tcp-check mysql-check pgsql-check redis-check smtpchk ldap-check ssl-hello-chk spop-check external-check",
        concern: Concern::Clients,
        values: 0,
        sentence: "a check sends and expects nothing: remove the line, and write check on the server's line, which checks that it accepts connections",
    },
    Advice {
        words: "allbackups",
        concern: Concern::Clients,
        values: 0,
        sentence: "there are no backup servers: remove it, and see what is said of backup",
    },
    Advice {
        words: "abortonclose",
        concern: Concern::Process,
        values: 0,
        sentence: "remove it: no connection waits for a server, and one whose client ends before its server accepts is ended at once",
    },
    Advice {
        words: "tcpka clitcpka srvtcpka",
        concern: Concern::Clients,
        values: 0,
        sentence: "there are no keepalive probes: timeout client and timeout server end connections whose other side is gone",
    },
    Advice {
        words: "nolinger",
        concern: Concern::Process,
        values: 0,
        sentence: "remove it: sockets are closed as the kernel does it",
    },
    Advice {
        words: "persist",
        concern: Concern::Clients,
        values: 0,
        sentence: "no client is kept at a server that is down: remove the line",
    },
    Advice {
        words: "transparent",
        concern: Concern::Clients,
        values: 0,
        sentence: "connections are not passed on to where the client meant to go: write server lines",
    },
    Advice {
        words: "independent-streams",
        concern: Concern::Clients,
        values: 0,
        sentence: "remove it: a side counts as silent when it neither sends nor takes a byte",
    },
    Advice {
        words: "splice-auto splice-request splice-response tcp-smart-accept tcp-smart-connect contstats socket-stats",
        concern: Concern::Process,
        values: 0,
        sentence: "remove it: there is nothing to tune here",
    },
    Advice {
        words: "log-health-checks log-separate-errors logasap dontlog-normal httpslog httplog",
        concern: Concern::Process,
        values: 0,
        sentence: "remove it: each decision is in the record that serve writes on standard output, and a line on standard error says when a server goes down or up",
    },
    Advice {
        words: "forwardfor originalto",
        concern: Concern::Http,
        values: 0,
        sentence: "there is no HTTP here: remove it, and write send-proxy-v2 on the server's line to hand on the client's address",
    },
    Advice {
        words: "prefer-last-server",
        concern: Concern::Http,
        values: 0,
        sentence: "there is no HTTP here: remove it; a connection has one server",
    },
    Advice {
        words: "accept-invalid-http-request accept-invalid-http-response checkcache disable-h2-upgrade h1-case-adjust-bogus-client h1-case-adjust-bogus-server http-* httpclose forceclose idle-close-on-response",
        concern: Concern::Http,
        values: 0,
        sentence: "there is no HTTP here, only TCP: remove it",
    },
];

/// After `timeout`.
pub static TIMEOUTS: [Advice; 6] = [
    Advice {
        words: "check",
        concern: Concern::Clients,
        values: 1,
        sentence: "remove it: a check has to be accepted before the next one is due, so inter on the server's line bounds it",
    },
    Advice {
        words: "queue",
        concern: Concern::Clients,
        values: 1,
        sentence: "there is no queue: remove it; when all servers are full, a connection is refused at once",
    },
    Advice {
        words: "tunnel",
        concern: Concern::Clients,
        values: 1,
        sentence: "timeout client and timeout server bound each connection for all of its time: write the longer time there",
    },
    Advice {
        words: "client-fin server-fin",
        concern: Concern::Clients,
        values: 1,
        sentence: "a connection whose one side has ended has no time of its own: timeout client and timeout server bound the side of which something is expected",
    },
    Advice {
        words: "http-request http-keep-alive tarpit",
        concern: Concern::Http,
        values: 1,
        sentence: "there is no HTTP here: remove it; timeout client bounds how long a client may be silent",
    },
    Advice {
        words: "clitimeout srvtimeout contimeout",
        concern: Concern::Clients,
        values: 1,
        sentence: "write timeout client, timeout server or timeout connect",
    },
];
