//! Tests.
ghost use Rattle.std.specs.Prelude.{◌≡◌, ◌≤◌, length, IfOk};
ghost use Rattle.std.specs.List.{list_any};
ghost use Rattle.acl_core.specs.Networks.{networks};
ghost use Rattle.acl_core.specs.Truth.{matches, test_holds};

use crate::condition::View;
use crate::criterion::{Criterion, Pattern, Value};
use addr_core::Net;
use list_core::{Duplicate, Seq};
use net_index::NetIndex;
use std::alloc::{AllocError, Global};
use std::marker::Model;

/// One criterion against its patterns, which are alternatives. Beside them it has an index of their
/// networks, so that an address is searched for by halves.
#[derive(Debug, Drop)]
pub struct Test {
    criterion: Criterion,
    patterns: Seq<Pattern>,
    index: NetIndex,
}

impl Model for Test {
    ghost use Rattle.std.specs.Prelude.{◌≡◌};
    ghost use Rattle.acl_core.specs.Networks.{networks};
    ghost use Rattle.acl_core.specs.TestValue.{TestValue};

    ghost Value = { TestValue };

    ghost view = { λ t. record { criterion = t.criterion; patterns = t.patterns } };

    ghost invariant = { λ t. t.index ≡ networks t.patterns };
}

/// The room for the networks among patterns, by the first: all patterns of a test are networks, or none is.
fn network_room(patterns: &[Pattern]) -> usize
    ensures { result ≤ length patterns.now }
{
    match patterns {
        [Pattern::Network(_), ..] => patterns.len(),
        _ => 0,
    }
}

/// The networks among patterns.
fn networks_of(alloc: Global, patterns: &[Pattern]) -> Result<Vec<Net>, AllocError>
    ensures { IfOk result (λ nets. nets.items ≡ networks patterns.now) }
{
    let mut nets = Vec::with_capacity(alloc, network_room(patterns))?;
    for pattern in patterns {
        if let Pattern::Network(net) = pattern {
            nets.push(*net)?;
        }
    }
    Ok(nets)
}

impl Test {
    pub(crate) fn of(
        alloc: Global,
        criterion: Criterion,
        patterns: Seq<Pattern>,
    ) -> Result<Test, AllocError>
        ensures { IfOk result (λ test. test ≡ record { criterion = criterion; patterns = patterns }) }
    {
        let nets = networks_of(alloc, patterns.as_slice())?;
        Ok(Test {
            criterion,
            patterns,
            index: NetIndex::of(alloc, &nets)?,
        })
    }

    /// What the test looks at.
    pub fn criterion(&self) -> &Criterion
        ensures { result.now ≡ self.now.criterion }
    {
        &self.criterion
    }

    /// The networks among its patterns.
    pub(crate) fn networks(&self) -> &[Net]
        ensures { result.now ≡ networks self.now.patterns }
    {
        self.index.nets()
    }

    /// Whether the criterion has a value, and some pattern holds it.
    pub fn holds<V: View>(&self, view: &V) -> bool
        ensures { result ≡ test_holds (V.worth view.now) self.now }
    {
        match view.value(&self.criterion) {
            Value::Source(addr) => self.index.holds(&addr),
            value => some_pattern_holds(self.patterns.as_slice(), &value),
        }
    }
}

fn some_pattern_holds(patterns: &[Pattern], value: &Value) -> bool
    ensures { result ≡ list_any (matches value.now) patterns.now }
{
    patterns.iter().any(|pattern| pattern.holds(value))
}

impl Duplicate for Test {
    fn duplicate(&self, alloc: Global) -> Result<Test, AllocError> {
        Ok(Test {
            criterion: self.criterion.duplicate(alloc)?,
            patterns: self.patterns.duplicate(alloc)?,
            index: self.index.duplicate(alloc)?,
        })
    }
}
