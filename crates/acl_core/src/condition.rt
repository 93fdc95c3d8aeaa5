//! Conditions made of tests.
ghost use Rattle.std.specs.Prelude.{◌≡◌, slice_get, IfOk};
ghost use Rattle.std.specs.List.{list_all};
ghost use Rattle.acl_core.specs.Truth.{test_holds, acl_holds, operand_holds, term_holds, condition_holds, applies};

use crate::criterion::{Criterion, Value};
use crate::test::Test;
use crate::tests::Tests;
use list_core::{Duplicate, Seq};
use std::alloc::{AllocError, Global};

/// The tests of one name (HAProxy manual, `acl`). They are alternatives, from all its declarations.
#[derive(Debug, Drop)]
pub struct Acl {
    pub name: Seq<u8>,
    pub tests: Tests,
}

/// What a term asks.
#[derive(Debug, Drop)]
pub enum Operand {
    /// `TRUE` or `FALSE`.
    Constant(bool),
    Test(Test),
    /// The number of the name among those of its section.
    Acl(usize),
}

/// A question, or its opposite.
#[derive(Debug, Drop)]
pub struct Term {
    pub negated: bool,
    pub operand: Operand,
}

/// Groups of terms (HAProxy manual, "using ACLs to form conditions"). The terms of a group have to
/// hold together; the groups are alternatives.
#[derive(Debug, Drop)]
pub struct Cond {
    pub groups: Seq<Seq<Term>>,
}

/// When a line applies.
#[derive(Debug, Drop)]
pub enum When {
    Always,
    /// Where the condition is true.
    If(Cond),
    /// Where it is not.
    Unless(Cond),
}

/// The connection that a condition is asked about, in a section with its ACLs.
pub trait View {
    ghost use Rattle.std.specs.Prelude.{List};
    ghost use Rattle.acl_core.specs.declared.criterion.Criterion.{Criterion};
    ghost use Rattle.acl_core.specs.declared.criterion.Value.{Value};
    ghost use Rattle.acl_core.specs.declared.condition.Acl.{Acl};

    /// What each criterion is worth.
    ghost worth: { Self → Criterion → Value };

    /// The ACLs of the section.
    ghost acls: { Self → List Acl };

    fn value(&self, criterion: &Criterion) -> Value
        ensures { result ≡ worth self.now criterion.now };

    fn acls(&self) -> &[Acl]
        ensures { result.now ≡ acls self.now };
}

impl When {
    /// Whether the line applies to the connection.
    pub fn applies<V: View>(&self, view: &V) -> bool
        ensures { result ≡ applies (V.acls view.now) (V.worth view.now) self.now }
    {
        match self {
            When::Always => true,
            When::If(condition) => condition.holds(view),
            When::Unless(condition) => !condition.holds(view),
        }
    }
}

impl Cond {
    /// Whether the condition is true of the connection.
    pub fn holds<V: View>(&self, view: &V) -> bool
        ensures { result ≡ condition_holds (V.acls view.now) (V.worth view.now) self.now }
    {
        self.groups
            .as_slice()
            .iter()
            .any(|group| holds_in_all(group, view))
    }
}

fn holds_in_all<V: View>(group: &Seq<Term>, view: &V) -> bool
    ensures { result ≡ list_all (term_holds (V.acls view.now) (V.worth view.now)) group.now }
{
    group.as_slice().iter().all(|term| term.holds(view))
}

impl Term {
    fn holds<V: View>(&self, view: &V) -> bool
        ensures { result ≡ term_holds (V.acls view.now) (V.worth view.now) self.now }
    {
        if self.negated {
            !self.operand.holds(view)
        } else {
            self.operand.holds(view)
        }
    }
}

impl Operand {
    fn holds<V: View>(&self, view: &V) -> bool
        ensures { result ≡ operand_holds (V.acls view.now) (V.worth view.now) self.now }
    {
        match self {
            Operand::Constant(truth) => *truth,
            Operand::Test(test) => test.holds(view),
            Operand::Acl(number) => match view.acls().get(*number) {
                Some(acl) => acl.holds(view),
                None => false,
            },
        }
    }
}

impl Acl {
    /// Whether some test of the name is true.
    pub fn holds<V: View>(&self, view: &V) -> bool
        ensures { result ≡ acl_holds (V.worth view.now) self.now }
    {
        self.tests.holds(view)
    }
}

impl Duplicate for Acl {
    fn duplicate(&self, alloc: Global) -> Result<Acl, AllocError> {
        Ok(Acl {
            name: self.name.duplicate(alloc)?,
            tests: self.tests.duplicate(alloc)?,
        })
    }
}

impl Duplicate for Operand {
    fn duplicate(&self, alloc: Global) -> Result<Operand, AllocError> {
        match self {
            Operand::Constant(truth) => Ok(Operand::Constant(*truth)),
            Operand::Test(test) => Ok(Operand::Test(test.duplicate(alloc)?)),
            Operand::Acl(number) => Ok(Operand::Acl(*number)),
        }
    }
}

impl Duplicate for Term {
    fn duplicate(&self, alloc: Global) -> Result<Term, AllocError> {
        Ok(Term {
            negated: self.negated,
            operand: self.operand.duplicate(alloc)?,
        })
    }
}

impl Duplicate for Cond {
    fn duplicate(&self, alloc: Global) -> Result<Cond, AllocError> {
        Ok(Cond {
            groups: self.groups.duplicate(alloc)?,
        })
    }
}

impl Duplicate for When {
    fn duplicate(&self, alloc: Global) -> Result<When, AllocError> {
        match self {
            When::Always => Ok(When::Always),
            When::If(condition) => Ok(When::If(condition.duplicate(alloc)?)),
            When::Unless(condition) => Ok(When::Unless(condition.duplicate(alloc)?)),
        }
    }
}
