//! What a fault of a configuration means, for its author.
use acl_core::AclFault;
use conf_text::LineKind;
use conf_tree::ConfKind;
use config_core::OpenFault;
use plan_core::PlanKind;

const NO_MEMORY: &str = "memory ran out, which says nothing about the file";

/// What is wrong on that line, and what would be right there.
pub fn sentence(fault: &OpenFault) -> &'static str {
    match fault {
        OpenFault::Config(fault) => of_words(&fault.kind),
        OpenFault::Plan(fault) => of_plan(&fault.kind),
        OpenFault::NoMemory => NO_MEMORY,
    }
}

fn of_words(kind: &ConfKind) -> &'static str {
    match kind {
        ConfKind::Text(kind) => of_characters(kind),
        ConfKind::NoSection => {
            "no section is open here; open one above, by global, defaults, frontend or backend"
        }
        ConfKind::UnknownKeyword => "no keyword",
        ConfKind::Unsupported => "not taken here",
        ConfKind::MissingWord => { "a name or a value is missing here" }
        ConfKind::ExtraWord => { "left over; the line ends before this word" }
        ConfKind::BadNumber => {
            "a number is needed here, in decimal digits: from 1 for the maxconn of a frontend and the size of a table, from 0 to 256 for a weight"
        }
        ConfKind::BadAddress => {
            "an address with a port is needed here, as 192.0.2.1:80 or [2001:db8::1]:80, or :80 after bind; the port is from 1 to 65535"
        }
        ConfKind::Duplicate => { "an earlier line has this name, endpoint or table" }
        ConfKind::Acl(fault) => of_condition(fault),
        ConfKind::Limit => {
            "too many or too much: at most 64 frontends and 64 backends, 64 bind lines or servers in one, 256 acl lines in a frontend, 256 of its tcp-request and use_backend lines together, 1048576 for maxconn and size"
        }
        ConfKind::NoMemory => NO_MEMORY,
    }
}

/// What is wrong with the characters of a line.
pub fn of_characters(kind: &LineKind) -> &'static str {
    match kind {
        LineKind::TooLong => {
            "too long: a line has at most 2048 bytes, its comment included, and the whole file 1048576"
        }
        LineKind::TooManyWords => { "too many words: a line has at most 64" }
        LineKind::TooManyLines => "too many lines: a file has at most 65535",
        LineKind::Quoting => {
            "there is no quoting here: write the word without quotes and backslashes"
        }
        LineKind::NotAscii => {
            "not ASCII: outside comments a line has ASCII letters, digits and signs, spaces and tabs only"
        }
        LineKind::NoMemory => NO_MEMORY,
    }
}

/// What is wrong with a condition.
pub fn of_condition(fault: &AclFault) -> &'static str {
    match fault {
        AclFault::UnknownCriterion => {
            "no criterion that is known here; src, fe_conn, fe_conn(frontend), be_conn(backend), src_conn_cur, src_conn_cnt, src_conn_cur(table), src_conn_cnt(table), sc0_conn_cur and sc0_conn_cnt are, and those of sc1 and sc2"
        }
        AclFault::BadPattern => {
            "a value that the criterion does not take: src takes a network, as 192.0.2.0/24, and a count a number, a range, as 10:20, or an operator and numbers, as gt 10"
        }
        AclFault::NoPattern => {
            "a value is missing after the criterion or the operator, as in { src 192.0.2.0/24 }"
        }
        AclFault::UnknownName => { "no acl of this name is declared above this line" }
        AclFault::BadBraces => {
            "a test is in a pair of braces, each a word of its own, as in { src 192.0.2.0/24 }"
        }
        AclFault::EmptyGroup => {
            "a condition is missing here: the name of an acl, or a test, as { src 192.0.2.0/24 }"
        }
        AclFault::BadName => {
            "no name: a name has letters, digits, -, _, . and : only, and is not TRUE, FALSE or or"
        }
        AclFault::NoMemory => NO_MEMORY,
    }
}

fn of_plan(kind: &PlanKind) -> &'static str {
    match kind {
        PlanKind::NoTable => {
            "there is no such table: the section that is meant has no stick-table line"
        }
        PlanKind::NoBackend => { "no backend has this name" }
        PlanKind::NotStored => {
            "the table does not store this count: src_conn_cur needs store conn_cur, and src_conn_cnt store conn_cnt"
        }
        PlanKind::NoBind => "this frontend has no bind line, as bind :80",
        PlanKind::NoFrontend => { "the file has no frontend section" }
        PlanKind::NoMemory => NO_MEMORY,
    }
}
