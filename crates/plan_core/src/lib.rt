//! The plan of a balancer: what a configuration means, with its names resolved.
#![tactic(auto)]

pub use binds::same_binds;
pub use conf_tree::{ConfFault, ConfKind, Tree, read_config};
pub use fault::{PlanFault, PlanKind};
pub use plan_types::{
    Action, Backend, Bind, Choice, Frontend, KeyType, Method, Plan, Rule, Section, Server, Stores,
    Table, TableId, Track,
};
pub use planning::compile;

mod acls;
mod binds;
mod checking;
mod criteria;
mod fault;
mod fields;
mod planning;
mod proxies;
mod tables;
