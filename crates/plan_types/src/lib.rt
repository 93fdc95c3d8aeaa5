//! The plan of a balancer as data: frontends with their rules, backends with their servers, and stick tables.
#![tactic(auto)]

pub use plan::{
    Action, Backend, Bind, Check, Choice, Frontend, MOST_MOVES, Plan, Redispatch, Rule, Section,
    Server, Table,
};
pub use proxy_types::{KeyType, Method, Stores};
pub use track::{TableId, Track};

mod copies;
mod plan;
mod track;
