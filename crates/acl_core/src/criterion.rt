//! What a test looks at, and what it compares it with.
ghost use Rattle.std.specs.Prelude.{◌≡◌, IfOk};
ghost use Rattle.acl_core.specs.Networks.{is_source};
ghost use Rattle.acl_core.specs.Truth.{compares, matches};

use addr_core::{Addr, Net};
use list_core::{Duplicate, Seq};
use std::alloc::{AllocError, Global};

/// What a test looks at (HAProxy manual, "fetching samples"). Names are as they were read.
#[derive(Debug, Drop)]
pub enum Criterion {
    /// `src`: the source address of the connection.
    Source,
    /// `sc0_conn_cur`, by the counter, 0 to 2: how many open connections track the key that it tracks.
    TrackedConnections(u8),
    /// `sc0_conn_cnt`: how many connections have tracked that key.
    TrackedTotal(u8),
    /// `src_conn_cur`: how many open connections track the source address in a table, by the name of
    /// its section, or in that of its own section.
    SourceConnections(Option<Seq<u8>>),
    /// `src_conn_cnt`: how many connections have tracked it there.
    SourceTotal(Option<Seq<u8>>),
    /// `fe_conn`: how many connections of a frontend, by its name, or of its own are open, itself
    /// included.
    FrontendConnections(Option<Seq<u8>>),
    /// `be_conn`: how many connections to a backend are open, by its name.
    BackendConnections(Seq<u8>),
}

/// How a number is compared with a bound (HAProxy manual, "matching integers").
#[derive(Clone, Copy, Debug, PartialEq, Eq)]
pub enum Operator {
    /// `eq`
    Equal,
    /// `ge`
    AtLeast,
    /// `gt`
    Above,
    /// `le`
    AtMost,
    /// `lt`
    Below,
}

/// What a value is compared with.
#[derive(Clone, Copy, Debug, PartialEq, Eq)]
pub enum Pattern {
    /// An address in a network; host bits are ignored.
    Network(Net),
    /// A number from the first to the last; none where the first is above the last.
    Within(u64, u64),
    Compared(Operator, u64),
}

/// The value of a criterion for one connection.
#[derive(Clone, Copy, Debug)]
pub enum Value {
    /// Nothing: it matches no pattern.
    Absent,
    Number(u64),
    Source(Addr),
}

impl Criterion {
    /// Whether it is the source address.
    pub fn is_source(&self) -> bool
        ensures { result ≡ is_source self.now }
    {
        matches!(self, Criterion::Source)
    }
}

impl Pattern {
    /// Whether the pattern holds the value.
    pub fn holds(&self, value: &Value) -> bool
        ensures { result ≡ matches value.now self.now }
    {
        match (value, self) {
            (Value::Absent, _) => false,
            (Value::Number(_), Pattern::Network(_)) => false,
            (Value::Number(number), Pattern::Within(least, most)) => {
                least <= number && number <= most
            }
            (Value::Number(number), Pattern::Compared(operator, bound)) => {
                operator.holds(*number, *bound)
            }
            (Value::Source(addr), Pattern::Network(net)) => net.contains(addr),
            (Value::Source(_), Pattern::Within(_, _) | Pattern::Compared(_, _)) => false,
        }
    }
}

impl Operator {
    /// Whether the number compares so with the bound.
    pub fn holds(self, number: u64, bound: u64) -> bool
        ensures { result ≡ compares self number bound }
    {
        match self {
            Operator::Equal => number == bound,
            Operator::AtLeast => number >= bound,
            Operator::Above => number > bound,
            Operator::AtMost => number <= bound,
            Operator::Below => number < bound,
        }
    }
}

impl Duplicate for Criterion {
    fn duplicate(&self, alloc: Global) -> Result<Criterion, AllocError> {
        match self {
            Criterion::Source => Ok(Criterion::Source),
            Criterion::TrackedConnections(counter) => Ok(Criterion::TrackedConnections(*counter)),
            Criterion::TrackedTotal(counter) => Ok(Criterion::TrackedTotal(*counter)),
            Criterion::SourceConnections(table) => {
                Ok(Criterion::SourceConnections(table.duplicate(alloc)?))
            }
            Criterion::SourceTotal(table) => Ok(Criterion::SourceTotal(table.duplicate(alloc)?)),
            Criterion::FrontendConnections(frontend) => {
                Ok(Criterion::FrontendConnections(frontend.duplicate(alloc)?))
            }
            Criterion::BackendConnections(backend) => {
                Ok(Criterion::BackendConnections(backend.duplicate(alloc)?))
            }
        }
    }
}

impl Duplicate for Pattern {
    fn duplicate(&self, _alloc: Global) -> Result<Pattern, AllocError> {
        Ok(*self)
    }
}
