//! Access control lists: tests of a connection, and conditions made of tests.
#![tactic(auto)]

pub use condition::{Acl, Cond, Operand, Term, View, When};
pub use criterion::{Criterion, Operator, Pattern, Value};
pub use fault::AclFault;
pub use grouping::read_cond;
pub use reading::{read_name, read_test};
pub use test::Test;
pub use tests::Tests;

mod condition;
mod criterion;
mod fault;
mod grouping;
mod reading;
mod test;
mod tests;
mod token;
