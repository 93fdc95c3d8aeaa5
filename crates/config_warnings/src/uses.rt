//! What the rules of a configuration use.
use acl_core::{Cond, Operand, Term, When};
use plan_types::Frontend;
use std::alloc::{AllocError, Global};

/// The numbers of the names that the conditions of a frontend ask for.
#[derive(Drop)]
pub struct UsedAcls {
    numbers: Vec<usize>,
}

impl UsedAcls {
    /// The names that the lines of that frontend ask for.
    pub fn of(alloc: Global, frontend: &Frontend) -> Result<UsedAcls, AllocError> {
        let mut used = UsedAcls {
            numbers: Vec::new(alloc),
        };
        for rule in frontend.connection_rules.as_slice() {
            used.note_when(&rule.when)?;
        }
        for rule in frontend.session_rules.as_slice() {
            used.note_when(&rule.when)?;
        }
        for choice in frontend.choices.as_slice() {
            used.note_when(&choice.when)?;
        }
        Ok(used)
    }

    fn note_when(&mut self, when: &When) -> Result<(), AllocError> {
        match when {
            When::Always => Ok(()),
            When::If(condition) | When::Unless(condition) => self.note_condition(condition),
        }
    }

    fn note_condition(&mut self, condition: &Cond) -> Result<(), AllocError> {
        for group in condition.groups.as_slice() {
            for term in group.as_slice() {
                if let Operand::Acl(number) = &term.operand {
                    self.numbers.push(*number)?;
                }
            }
        }
        Ok(())
    }

    /// Whether a condition asks for the name of that number.
    pub fn has(&self, number: usize) -> bool {
        self.numbers.as_slice().contains(&number)
    }
}

/// Whether a term has that truth for every connection.
fn is_always(term: &Term, truth: bool) -> bool {
    match term.operand {
        Operand::Constant(value) => (value != term.negated) == truth,
        Operand::Test(_) | Operand::Acl(_) => false,
    }
}

/// Whether a line applies to every connection, as its words show.
pub fn always_applies(when: &When) -> bool {
    match when {
        When::Always => true,
        When::If(condition) => condition.groups.as_slice().iter().any(|group| group
            .as_slice()
            .iter()
            .all(|term| is_always(term, true))),
        When::Unless(condition) => condition.groups.as_slice().iter().all(|group| group
            .as_slice()
            .iter()
            .any(|term| is_always(term, false))),
    }
}
