//! The names that a frontend declares, and the backends that it uses.
ghost use Rattle.std.specs.Prelude.{◌≡◌, ◌≤◌, length, IfOk};
ghost use Rattle.plan_core.specs.Fields.{line_choice, line_test, acl_of, acls_in, all_of};

use crate::checking::backend_number;
use acl_core::{Acl, Test, Tests};
use conf_tree::{ConfigLine, Statement, acl_names};
use list_core::{Duplicate, Seq};
use plan_types::{Backend, Choice};
use std::alloc::{AllocError, Global};
use text_core::Word;

/// The test that a line declares for that name.
fn line_test(alloc: Global, name: &Word, item: &ConfigLine) -> Result<Option<Test>, AllocError>
    ensures { IfOk result (λ test. test ≡ line_test name.now item.now.line item.now.statement) }
{
    match &item.statement {
        Statement::Acl(other, test) => {
            if !other.is(name.bytes()) {
                return Ok(None);
            }
            Ok(Some(test.duplicate(alloc)?))
        }
        _ => Ok(None),
    }
}

fn tests_in(alloc: Global, name: &Word, items: &[ConfigLine]) -> Result<Seq<Test>, AllocError>
    ensures { IfOk result (λ tests. tests ≡ all_of (line_test name.now) items.now) }
{
    let mut tests = Seq::new(alloc);
    for item in items {
        if let Some(test) = line_test(alloc, name, item)? {
            tests.push(test)?;
        }
    }
    Ok(tests)
}

/// A name with the tests of all its declarations.
fn acl_of(alloc: Global, items: &[ConfigLine], name: &Word) -> Result<Acl, AllocError>
    ensures { IfOk result (λ acl. acl ≡ acl_of items.now name.now) }
{
    Ok(Acl {
        name: Seq::duplicate_of(alloc, name.bytes())?,
        tests: Tests::of(alloc, tests_in(alloc, name, items)?)?,
    })
}

/// The names of some lines, each with the tests of all its declarations.
pub fn acls_in(alloc: Global, items: &[ConfigLine]) -> Result<Seq<Acl>, AllocError>
    ensures { IfOk result (λ acls. acls ≡ acls_in items.now) }
{
    let names = acl_names(alloc, items)?;
    let mut acls = Seq::new(alloc);
    for name in names.as_slice() {
        acls.push(acl_of(alloc, items, name)?)?;
    }
    Ok(acls)
}

/// The backend that a line uses, if it is there.
fn line_choice(
    alloc: Global,
    backends: &[Backend],
    item: &ConfigLine,
) -> Result<Option<Choice>, AllocError>
    requires { length backends.now ≤ 65535 }
    ensures { IfOk result (λ choice. choice ≡ line_choice backends.now item.now.line item.now.statement) }
{
    match &item.statement {
        Statement::UseBackend(name, when) => match backend_number(backends, name) {
            Some(backend) => Ok(Some(Choice {
                line: item.line,
                when: when.duplicate(alloc)?,
                backend,
            })),
            None => Ok(None),
        },
        _ => Ok(None),
    }
}

/// The backends that some lines use, in written order.
pub fn choices_in(
    alloc: Global,
    backends: &[Backend],
    items: &[ConfigLine],
) -> Result<Seq<Choice>, AllocError>
    requires { length backends.now ≤ 65535 }
    ensures { IfOk result (λ choices. choices ≡ all_of (line_choice backends.now) items.now) }
{
    let mut choices = Seq::new(alloc);
    for item in items {
        if let Some(choice) = line_choice(alloc, backends, item)? {
            choices.push(choice)?;
        }
    }
    Ok(choices)
}
