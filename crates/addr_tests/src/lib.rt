//! Tests of `text_core`, `addr_core`, `net_index`, `pp_v1`, `pp_v2` and `pp_any` with outside values: those
//! of RFC 4291, RFC 5952 and proxy-protocol.txt where a test names them.
#![tactic(auto)]

pub mod callers;
#[cfg(test)]
mod tests;
