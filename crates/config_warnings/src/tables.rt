//! What the rules of a configuration do with its tables.
use acl_core::{Cond, Criterion, Operand, Test, When};
use plan_types::{Action, Frontend, Plan, Rule, Section, Table};

/// Whether a rule of these tracks in the table of that number, by that counter if one is given.
fn track_in(rules: &[Rule], counter: Option<u8>, number: usize) -> bool {
    rules.iter().any(|rule| match rule.action {
        Action::Track(own, table) => {
            usize::from(table) == number && counter.is_none_or(|counter| counter == own)
        }
        Action::Accept | Action::Reject | Action::ExpectProxy => false,
    })
}

/// Whether a rule of a frontend tracks there.
fn tracks_in(frontend: &Frontend, counter: Option<u8>, number: usize) -> bool {
    track_in(frontend.connection_rules.as_slice(), counter, number)
        || track_in(frontend.session_rules.as_slice(), counter, number)
}

/// Whether a rule of a plan tracks in the table of that number.
pub fn is_tracked(plan: &Plan, number: usize) -> bool {
    plan.frontends
        .as_slice()
        .iter()
        .any(|frontend| tracks_in(frontend, None, number))
}

/// Whether a name means a table in a frontend, as that of a section or as its own.
fn is_meant(table: &Table, frontend: &Frontend, name: Option<&[u8]>) -> bool {
    match name {
        Some(name) => table.name.as_slice() == name,
        None => {
            table.section == Section::Frontend && table.name.as_slice() == frontend.name.as_slice()
        }
    }
}

/// A table, with its number in its plan.
#[derive(Drop)]
struct NumberedTable<'a> {
    table: &'a Table,
    number: usize,
}

impl NumberedTable<'_> {
    /// Whether a test of a frontend looks at it.
    fn is_asked(&self, frontend: &Frontend, test: &Test) -> bool {
        match test.criterion() {
            Criterion::TrackedConnections(counter) | Criterion::TrackedTotal(counter) => tracks_in(
                frontend,
                Some(*counter),
                self.number,
            ),
            Criterion::SourceConnections(name) | Criterion::SourceTotal(name) => {
                is_meant(
                    self.table,
                    frontend,
                    name.as_ref().map(|name| name.as_slice()),
                )
            }
            Criterion::Source
            | Criterion::FrontendConnections(_)
            | Criterion::BackendConnections(_) => false,
        }
    }

    /// Whether a condition of a frontend does, by tests of its own.
    fn is_asked_by(&self, frontend: &Frontend, condition: &Cond) -> bool {
        condition.groups.as_slice().iter().any(|group| {
            group.as_slice().iter().any(|term| match &term.operand {
                Operand::Test(test) => self.is_asked(frontend, test),
                Operand::Constant(_) | Operand::Acl(_) => false,
            })
        })
    }

    fn is_asked_when(&self, frontend: &Frontend, when: &When) -> bool {
        match when {
            When::Always => false,
            When::If(condition) | When::Unless(condition) => self.is_asked_by(frontend, condition),
        }
    }

    fn is_asked_in(&self, frontend: &Frontend, rules: &[Rule]) -> bool {
        rules
            .iter()
            .any(|rule| self.is_asked_when(frontend, &rule.when))
    }

    /// Whether a frontend looks at it, by an `acl` line, a rule or a `use_backend` line.
    fn is_read_in(&self, frontend: &Frontend) -> bool {
        let mut choices = frontend.choices.as_slice().iter();
        let mut acls = frontend.acls.as_slice().iter();
        self.is_asked_in(frontend, frontend.connection_rules.as_slice())
            || self.is_asked_in(frontend, frontend.session_rules.as_slice())
            || choices.any(|choice| self.is_asked_when(frontend, &choice.when))
            || acls.any(|acl| {
                acl.tests
                    .as_slice()
                    .iter()
                    .any(|test| self.is_asked(frontend, test))
            })
    }
}

/// Whether a test of a plan looks at a table, which has that number.
pub fn is_read(plan: &Plan, table: &Table, number: usize) -> bool {
    let table = NumberedTable { table, number };
    plan.frontends
        .as_slice()
        .iter()
        .any(|frontend| table.is_read_in(frontend))
}
