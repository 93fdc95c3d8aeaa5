//! Addresses, endpoints, pairs of endpoints and networks, and their text.
#![tactic(auto)]

pub use addr::{Addr, Endpoint, MOST_ADDR_BYTES, MOST_ENDPOINT_BYTES};
pub use net::Net;
pub use packed::{PackedAddr, PackedEndpoint, PackedNumber, PackedPair};
pub use pair::Pair;
pub use reading::{AddrFault, read_addr, read_endpoint, read_net};
pub use writing::{write_addr, write_endpoint};

mod addr;
mod groups;
mod net;
mod packed;
mod pair;
mod reading;
mod six;
mod writing;
