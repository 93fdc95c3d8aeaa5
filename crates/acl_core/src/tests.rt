//! The tests of a name.
ghost use Rattle.std.specs.Prelude.{◌≡◌, ◌&&◌, not, IfOk};
ghost use Rattle.std.specs.List.{list_any, list_all};
ghost use Rattle.acl_core.specs.Networks.{is_of_source, source_networks};
ghost use Rattle.acl_core.specs.Truth.{test_holds};

use crate::condition::View;
use crate::criterion::{Criterion, Value};
use crate::test::Test;
use addr_core::Net;
use list_core::{Duplicate, Seq};
use net_index::NetIndex;
use std::alloc::{AllocError, Global};
use std::marker::Model;

/// Tests that are alternatives. A contract sees the list of them. Beside them there is an index of the
/// networks of all that look at the source address: however many those are, they take one search.
#[derive(Debug, Drop)]
pub struct Tests {
    tests: Seq<Test>,
    is_all_source: bool,
    index: NetIndex,
}

impl Model for Tests {
    ghost use Rattle.std.specs.Prelude.{◌≡◌, List};
    ghost use Rattle.std.specs.List.{list_all};
    ghost use Rattle.acl_core.specs.Networks.{is_of_source, source_networks};
    ghost use Rattle.acl_core.specs.TestValue.{TestValue};

    ghost Value = { List TestValue };

    ghost view = { λ t. t.tests };

    ghost invariant = { λ t. (t.is_all_source ≡ list_all is_of_source t.tests) × (t.index ≡ source_networks t.tests) };
}

/// The networks of the tests that look at the source address.
fn source_networks(alloc: Global, tests: &[Test]) -> Result<Vec<Net>, AllocError>
    ensures { IfOk result (λ nets. nets.items ≡ source_networks tests.now) }
{
    let mut nets = Vec::new(alloc);
    for test in tests {
        if test.criterion().is_source() {
            nets.extend_from_slice(test.networks())?;
        }
    }
    Ok(nets)
}

fn are_all_source(tests: &[Test]) -> bool
    ensures { result ≡ list_all is_of_source tests.now }
{
    tests.iter().all(|test| test.criterion().is_source())
}

impl Tests {
    /// The tests of a list.
    pub fn of(alloc: Global, tests: Seq<Test>) -> Result<Tests, AllocError>
        ensures { IfOk result (λ all. all ≡ tests) }
    {
        let nets = source_networks(alloc, tests.as_slice())?;
        Ok(Tests {
            is_all_source: are_all_source(tests.as_slice()),
            tests,
            index: NetIndex::of(alloc, &nets)?,
        })
    }

    /// The tests, in their order.
    pub fn as_slice(&self) -> &[Test]
        ensures { result.now ≡ self.now }
    {
        self.tests.as_slice()
    }

    /// Whether some test is true. The source address is asked for once, and only where one of the tests
    /// has a network.
    pub fn holds<V: View>(&self, view: &V) -> bool
        ensures { result ≡ list_any (test_holds (V.worth view.now)) self.now }
    {
        let tests = self.tests.as_slice();
        if self.index.nets().is_empty() {
            return some_test_holds(tests, view);
        }
        match view.value(&Criterion::Source) {
            Value::Source(addr) => {
                self.index.holds(&addr) || !self.is_all_source && some_other_holds(tests, view)
            }
            Value::Absent | Value::Number(_) => some_test_holds(tests, view),
        }
    }
}

fn some_test_holds<V: View>(tests: &[Test], view: &V) -> bool
    ensures { result ≡ list_any (test_holds (V.worth view.now)) tests.now }
{
    tests.iter().any(|test| test.holds(view))
}

/// Whether some test that does not look at the source address is true.
fn some_other_holds<V: View>(tests: &[Test], view: &V) -> bool
    ensures { result ≡ list_any (λ test. not (is_of_source test) && test_holds (V.worth view.now) test) tests.now }
{
    tests
        .iter()
        .any(|test| !test.criterion().is_source() && test.holds(view))
}

impl Duplicate for Tests {
    fn duplicate(&self, alloc: Global) -> Result<Tests, AllocError> {
        Ok(Tests {
            tests: self.tests.duplicate(alloc)?,
            is_all_source: self.is_all_source,
            index: self.index.duplicate(alloc)?,
        })
    }
}
