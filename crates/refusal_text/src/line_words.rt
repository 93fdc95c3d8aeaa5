//! What HAProxy has on the lines `mode`, `balance`, `bind`, `server`, `tcp-request` and `stick-table`.
use crate::words::{Advice, Concern};

pub static MODES: [Advice; 3] = [
    Advice {
        words: "http",
        concern: Concern::Clients,
        values: 0,
        sentence: "there is no HTTP here, only mode tcp, which passes HTTP through to the servers without looking at it",
    },
    Advice {
        words: "health",
        concern: Concern::Clients,
        values: 0,
        sentence: "nobody is answered without a server: remove the section, and ask serve --stats ADDR for the state",
    },
    Advice {
        words: "log syslog",
        concern: Concern::Process,
        values: 0,
        sentence: "there is no syslog here, only mode tcp: remove the section",
    },
];

pub static BALANCE: [Advice; 4] = [
    Advice {
        words: "static-rr",
        concern: Concern::Clients,
        values: 0,
        sentence: "write balance roundrobin, which goes by the same turns and weights",
    },
    Advice {
        words: "first",
        concern: Concern::Clients,
        values: 0,
        sentence: "servers are not filled one after another: write balance leastconn or roundrobin",
    },
    Advice {
        words: "random",
        concern: Concern::Clients,
        values: 0,
        sentence: "servers are not drawn by lot: write balance leastconn or roundrobin",
    },
    Advice {
        words: "uri url_param hdr rdp-cookie hash",
        concern: Concern::Clients,
        values: 0,
        sentence: "only the source's address chooses a server: write balance source",
    },
];

/// Options of a `bind` line.
pub static BIND: [Advice; 8] = [
    Advice {
        words: "ssl allow-0rtt alpn npn ca-file ca-ignore-err ca-sign-file ca-sign-pass ca-verify-file ciphers ciphersuites crl-file crt crt-ignore-err crt-list curves ecdhe force-sslv3 force-tlsv* generate-certificates no-ca-names no-sslv3 no-tls-tickets no-tlsv* prefer-client-ciphers ssl-max-ver ssl-min-ver strict-sni tls-ticket-keys verify",
        concern: Concern::Clients,
        values: 0,
        sentence: "there is no TLS here: let TLS pass through to the servers, or end it in another program in front, which hands on the client's address by a PROXY header",
    },
    Advice {
        words: "accept-netscaler-cip",
        concern: Concern::Clients,
        values: 1,
        sentence: "this header is not read: let the device in front send a PROXY header, and write accept-proxy",
    },
    Advice {
        words: "maxconn",
        concern: Concern::Clients,
        values: 1,
        sentence: "a bind line has no limit of its own: write a maxconn line in the frontend, or a frontend for each bind line",
    },
    Advice {
        words: "interface namespace v6only v4v6 transparent",
        concern: Concern::Clients,
        values: 0,
        sentence: "what a socket takes is said by its address alone: write the address of that interface, [::]:PORT for IPv6, or :PORT for IPv4",
    },
    Advice {
        words: "name id nice process thread shards backlog mss proto level severity-output expose-fd quic-cc-algo",
        concern: Concern::Process,
        values: 1,
        sentence: "remove it: clients notice nothing of it",
    },
    Advice {
        words: "defer-accept tfo quic-force-retry",
        concern: Concern::Process,
        values: 0,
        sentence: "remove it: clients are accepted in the plain way, without it",
    },
    Advice {
        words: "tcp-ut",
        concern: Concern::Clients,
        values: 1,
        sentence: "remove it, and write timeout client, which ends a connection whose client takes nothing",
    },
    Advice {
        words: "user group uid gid mode",
        concern: Concern::Process,
        values: 1,
        sentence: "there are no Unix sockets: remove it",
    },
];

/// Options of a `server` line.
pub static SERVER: [Advice; 23] = [
    Advice {
        words: "backup",
        concern: Concern::Clients,
        values: 0,
        sentence: "there are no backup servers: write disabled until it is needed, or give the server a weight as the others have",
    },
    Advice {
        words: "ssl check-ssl allow-0rtt alpn npn ca-file ciphers ciphersuites crl-file crt force-sslv3 force-tlsv* sni check-sni check-alpn ssl-max-ver ssl-min-ver ssl-reuse tls-tickets verify verifyhost",
        concern: Concern::Clients,
        values: 0,
        sentence: "there is no TLS here: what clients send is passed on as it is, so TLS reaches the server if the client speaks it",
    },
    Advice {
        words: "port addr",
        concern: Concern::Clients,
        values: 1,
        sentence: "a check goes to the server's own address and port: remove it if that says whether the server is there",
    },
    Advice {
        words: "agent-check agent-addr agent-inter agent-port agent-send",
        concern: Concern::Clients,
        values: 0,
        sentence: "no agent is asked: remove it; check tries that the server accepts connections, and a reload changes weights",
    },
    Advice {
        words: "fastinter downinter",
        concern: Concern::Clients,
        values: 1,
        sentence: "checks have one pace, up or down: write inter",
    },
    Advice {
        words: "observe error-limit on-error",
        concern: Concern::Clients,
        values: 1,
        sentence: "a server is judged by its checks alone: remove it, and write a shorter inter to see sooner that it is down",
    },
    Advice {
        words: "on-marked-down on-marked-up",
        concern: Concern::Clients,
        values: 1,
        sentence: "connections that are open stay when a server goes down or up: timeout server ends those that hang",
    },
    Advice {
        words: "slowstart",
        concern: Concern::Clients,
        values: 1,
        sentence: "a server has its whole weight as soon as it is up: limit what it gets by its maxconn",
    },
    Advice {
        words: "minconn maxqueue",
        concern: Concern::Clients,
        values: 1,
        sentence: "limits do not move and there is no queue: write maxconn alone; a server that is full is passed over",
    },
    Advice {
        words: "track",
        concern: Concern::Clients,
        values: 1,
        sentence: "a server is checked by itself: write check here too",
    },
    Advice {
        words: "check-send-proxy check-proto check-via-socks4",
        concern: Concern::Clients,
        values: 0,
        sentence: "a check connects, sends nothing and ends: remove it if that says whether the server is there",
    },
    Advice {
        words: "no-check no-send-proxy no-send-proxy-v2 enabled",
        concern: Concern::Clients,
        values: 0,
        sentence: "remove it, and the word that it takes back: without that word it is so anyway",
    },
    Advice {
        words: "no-agent-check no-backup no-check-send-proxy no-check-ssl no-send-proxy-v2-ssl no-send-proxy-v2-ssl-cn no-ssl no-ssl-reuse no-sslv3 no-tfo no-tls-tickets no-tlsv* no-verifyhost non-stick",
        concern: Concern::Process,
        values: 0,
        sentence: "remove it: it is so here anyway",
    },
    Advice {
        words: "stick",
        concern: Concern::Clients,
        values: 0,
        sentence: "a table keeps no client at its server: remove it, and write balance source in the backend",
    },
    Advice {
        words: "send-proxy-v2-ssl send-proxy-v2-ssl-cn proxy-v2-options set-proxy-v2-tlv-fmt",
        concern: Concern::Clients,
        values: 0,
        sentence: "a header has the two addresses alone: write send-proxy-v2",
    },
    Advice {
        words: "source usesrc interface namespace socks4",
        concern: Concern::Clients,
        values: 0,
        sentence: "servers are connected to from the machine's own address: to hand on the client's address, write send-proxy-v2",
    },
    Advice {
        words: "resolvers resolve-net resolve-opts resolve-prefer init-addr",
        concern: Concern::Process,
        values: 1,
        sentence: "names of hosts are not looked up: remove it, and write the server's address",
    },
    Advice {
        words: "id",
        concern: Concern::Process,
        values: 1,
        sentence: "remove it: a server is known by its name",
    },
    Advice {
        words: "cookie redir",
        concern: Concern::Http,
        values: 1,
        sentence: "there is no HTTP here, so nothing is read of a request: remove it",
    },
    Advice {
        words: "max-reuse pool-low-conn pool-max-conn pool-purge-delay proto ws",
        concern: Concern::Http,
        values: 1,
        sentence: "there is no HTTP here: remove it; each client has a connection of its own to its server",
    },
    Advice {
        words: "log-proto",
        concern: Concern::Process,
        values: 1,
        sentence: "there is no syslog: remove it",
    },
    Advice {
        words: "tfo",
        concern: Concern::Process,
        values: 0,
        sentence: "remove it: servers are connected to in the plain way, without it",
    },
    Advice {
        words: "tcp-ut",
        concern: Concern::Clients,
        values: 1,
        sentence: "remove it, and write timeout server, which ends a connection whose server takes nothing",
    },
];

/// After `tcp-request`.
pub static REQUESTS: [Advice; 2] = [
    Advice {
        words: "content",
        concern: Concern::Clients,
        values: 0,
        sentence: "what clients send is not looked at: write tcp-request connection or session for a rule on addresses and counts",
    },
    Advice {
        words: "inspect-delay",
        concern: Concern::Process,
        values: 1,
        sentence: "what clients send is not looked at, so nothing waits for it: remove the line",
    },
];

/// The action of a `tcp-request` line.
pub static ACTIONS: [Advice; 9] = [
    Advice {
        words: "silent-drop tarpit",
        concern: Concern::Clients,
        values: 0,
        sentence: "write reject, which ends the connection, and the client sees that",
    },
    Advice {
        words: "deny",
        concern: Concern::Clients,
        values: 0,
        sentence: "write reject",
    },
    Advice {
        words: "expect-netscaler-cip",
        concern: Concern::Clients,
        values: 1,
        sentence: "this header is not read: let the device in front send a PROXY header, and write expect-proxy layer4",
    },
    Advice {
        words: "set-src set-src-port set-dst set-dst-port",
        concern: Concern::Clients,
        values: 1,
        sentence: "no rule changes an address: a PROXY header declares the client's address, by accept-proxy or expect-proxy layer4",
    },
    Advice {
        words: "sc-inc-gpc sc-inc-gpc0 sc-inc-gpc1 sc-add-gpc sc-set-gpt sc-set-gpt0",
        concern: Concern::Clients,
        values: 0,
        sentence: "tables have no general counters: count connections by track-sc0 src, and look at sc0_conn_cur or sc0_conn_cnt",
    },
    Advice {
        words: "set-mark set-tos set-nice set-log-level set-priority-class set-priority-offset",
        concern: Concern::Process,
        values: 1,
        sentence: "packets, logs and turns are not marked: remove the line",
    },
    Advice {
        words: "set-var set-var-fmt unset-var",
        concern: Concern::Clients,
        values: 0,
        sentence: "there are no variables: write the test itself where the variable is used",
    },
    Advice {
        words: "attach-srv do-resolve send-spoe-group ot-group use-service switch-mode capture",
        concern: Concern::Clients,
        values: 0,
        sentence: "no rule does this: accept, reject, track-sc0 to track-sc2 and expect-proxy layer4 are the actions",
    },
    Advice {
        words: "track-sc*",
        concern: Concern::Clients,
        values: 0,
        sentence: "there are three counters: write track-sc0, track-sc1 or track-sc2",
    },
];

/// What a rule may track.
pub static KEYS: [Advice; 1] = [Advice {
    words: "dst dst_port src_port fc_src fc_dst base* req* hdr* path* url* ssl_* payload* int str ipv4 ipv6 var fe_id so_id",
    concern: Concern::Clients,
    values: 0,
    sentence: "only the source's address is counted: write src",
}];

/// Options of a `stick-table` line.
pub static TABLE: [Advice; 4] = [
    Advice {
        words: "nopurge",
        concern: Concern::Clients,
        values: 0,
        sentence: "a full table always gives up an entry, the one touched longest ago that nobody tracks: write a size that is enough",
    },
    Advice {
        words: "peers",
        concern: Concern::Process,
        values: 1,
        sentence: "there are no peers: remove it; a table is kept over a reload, and is not shared",
    },
    Advice {
        words: "srvkey recv-only write-to",
        concern: Concern::Clients,
        values: 1,
        sentence: "a table keeps no servers: remove it",
    },
    Advice {
        words: "len",
        concern: Concern::Clients,
        values: 1,
        sentence: "tables have addresses as their keys, type ip or type ipv6, which have no length",
    },
];

/// The type of a table.
pub static TYPES: [Advice; 1] = [Advice {
    words: "integer string binary",
    concern: Concern::Clients,
    values: 0,
    sentence: "tables have addresses as their keys: write type ip, or type ipv6 for both families",
}];

/// What a table stores.
pub static STORED: [Advice; 3] = [
    Advice {
        words: "conn_rate sess_rate http_req_rate http_err_rate http_fail_rate gpc_rate gpc0_rate gpc1_rate bytes_in_rate bytes_out_rate",
        concern: Concern::Clients,
        values: 0,
        sentence: "there are no rates: write conn_cur, and limit what a source has open",
    },
    Advice {
        words: "gpc gpc0 gpc1 gpt gpt0 server_id server_key server_name",
        concern: Concern::Clients,
        values: 0,
        sentence: "tables have no general counters and keep no servers: write conn_cur or conn_cnt",
    },
    Advice {
        words: "sess_cnt http_req_cnt http_err_cnt http_fail_cnt bytes_in_cnt bytes_out_cnt",
        concern: Concern::Clients,
        values: 0,
        sentence: "tables count connections alone: write conn_cur, or conn_cnt for all that came",
    },
];
