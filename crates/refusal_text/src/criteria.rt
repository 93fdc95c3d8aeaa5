//! What HAProxy has in tests and conditions.
use crate::words::{Advice, Concern};

/// Criteria of tests, which HAProxy calls sample fetches.
pub static CRITERIA: [Advice; 14] = [
    Advice {
        words: "dst dst_port dst_is_local dst_conn fc_dst fc_dst_port fc_dst_is_local so_id so_name",
        concern: Concern::Clients,
        values: 0,
        sentence: "no test asks for the address that was connected to: write a frontend for each bind line",
    },
    Advice {
        words: "src_port src_is_local fc_src fc_src_port fc_src_is_local",
        concern: Concern::Clients,
        values: 0,
        sentence: "a test asks for the source's address alone: write src with networks, as src 127.0.0.0/8 ::1 for the machine itself",
    },
    Advice {
        words: "*_rate",
        concern: Concern::Clients,
        values: 0,
        sentence: "there are no rates: look at what a source has open, by src_conn_cur or sc0_conn_cur",
    },
    Advice {
        words: "sc_conn_cur sc_conn_cnt",
        concern: Concern::Clients,
        values: 0,
        sentence: "write the counter in the name, as sc0_conn_cur",
    },
    Advice {
        words: "sc0_* sc1_* sc2_* sc_* src_kbytes_* src_sess_cnt src_updt_conn_cnt src_get_* src_inc_* src_clr_* src_http_*",
        concern: Concern::Clients,
        values: 0,
        sentence: "tables count connections alone, and a counter takes no table here: sc0_conn_cur, sc0_conn_cnt, src_conn_cur and src_conn_cnt are there",
    },
    Advice {
        words: "table_avl table_cnt",
        concern: Concern::Clients,
        values: 0,
        sentence: "no test asks how full a table is: write a size that is enough",
    },
    Advice {
        words: "nbsrv srv_is_up srv_conn srv_conn_free srv_queue srv_weight srv_iweight srv_uweight be_conn_free connslots queue avg_queue",
        concern: Concern::Clients,
        values: 0,
        sentence: "no test asks for servers: be_conn(BACKEND) says how many connections a backend has, and option redispatch finds another server",
    },
    Advice {
        words: "req.ssl_* req_ssl_* ssl_* rep_ssl_hello_type res.ssl_hello_type",
        concern: Concern::Clients,
        values: 0,
        sentence: "there is no TLS here, so no name of a TLS client is read: write a frontend for each address or port",
    },
    Advice {
        words: "req.len req.payload* req_len payload payload_lv req.rdp_cookie* rdp_cookie rdp_cookie_cnt res.len res.payload* distcc_* wait_end req_rdp_cookie*",
        concern: Concern::Clients,
        values: 0,
        sentence: "what clients send is not looked at: write src or a count",
    },
    Advice {
        words: "base* capture.* cook* fcgi.* hdr* http_* internal.* meth method path* pathq query req.* req_* res.* resp_ver scook* shdr* status unique-id url*",
        concern: Concern::Clients,
        values: 0,
        sentence: "there is no HTTP here, so no request is looked at: write src or a count, or leave this to the servers",
    },
    Advice {
        words: "fc_* bc_* be_server_timeout be_tunnel_timeout cur_server_timeout cur_tunnel_timeout fe_client_timeout",
        concern: Concern::Clients,
        values: 0,
        sentence: "no test asks how a connection goes: write src or a count",
    },
    Advice {
        words: "always_true always_false",
        concern: Concern::Clients,
        values: 0,
        sentence: "write TRUE or FALSE in the condition",
    },
    Advice {
        words: "be_id be_name fe_id fe_name fe_defbe srv_id srv_name proc nbproc thread hostname stopping uuid cpu_* lat_* last_rule_* prio_*",
        concern: Concern::Clients,
        values: 0,
        sentence: "no test asks for the process or its parts: write the rule in the section that it is for",
    },
    Advice {
        words: "date date_us env rand var str int bool bin ipv4 ipv6",
        concern: Concern::Clients,
        values: 0,
        sentence: "there are no variables, times or chance in tests: write src or a count",
    },
];

/// Flags of tests, and values that only HAProxy has.
pub static FLAGS: [Advice; 4] = [
    Advice {
        words: "-f -M",
        concern: Concern::Clients,
        values: 1,
        sentence: "no file of values is read: write the networks on the line; several acl lines of one name add up",
    },
    Advice {
        words: "-m",
        concern: Concern::Clients,
        values: 1,
        sentence: "there is one way to compare, by networks or by numbers: remove it, and write those",
    },
    Advice {
        words: "-i -n -u",
        concern: Concern::Clients,
        values: 0,
        sentence: "a test has no flags: remove it",
    },
    Advice {
        words: "--",
        concern: Concern::Clients,
        values: 0,
        sentence: "a test has no flags, so nothing ends them: remove it",
    },
];

/// Names that HAProxy declares by itself.
pub static CONDITIONS: [Advice; 4] = [
    Advice {
        words: "LOCALHOST",
        concern: Concern::Clients,
        values: 0,
        sentence: "this name is not declared by itself: write { src 127.0.0.0/8 ::1 }",
    },
    Advice {
        words: "HTTP HTTP_* METH_*",
        concern: Concern::Clients,
        values: 0,
        sentence: "there is no HTTP here, so no request is looked at: leave this to the servers",
    },
    Advice {
        words: "RDP_COOKIE REQ_CONTENT WAIT_END",
        concern: Concern::Clients,
        values: 0,
        sentence: "what clients send is not looked at: write src or a count",
    },
    Advice {
        words: "always_true always_false",
        concern: Concern::Clients,
        values: 0,
        sentence: "write TRUE or FALSE",
    },
];
