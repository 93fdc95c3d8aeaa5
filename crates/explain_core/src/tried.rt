//! The rules of a list that are tried.
ghost use Rattle.std.specs.Prelude.{◌≡◌, IfOk};
ghost use Rattle.rule_engine.specs.Judging.{is_final};
ghost use Rattle.explain_core.specs.Tried.{tried, tried_choices};

use acl_core::View;
use plan_types::{Action, Choice, Rule};
use rule_engine::{Scene, Tracks, after_rule, is_true};
use std::alloc::{AllocError, Global};

/// A rule that is tried.
#[derive(Clone, Copy, Debug, PartialEq, Eq)]
pub struct Tried {
    pub line: u32,
    pub action: Action,
    /// Whether it applies: its condition is true, or false after `unless`.
    pub applies: bool,
    /// What the step tracks before it, by counter.
    pub before: Tracks,
}

/// A `use_backend` line that is tried.
#[derive(Clone, Copy, Debug, PartialEq, Eq)]
pub struct TriedChoice {
    pub line: u32,
    pub applies: bool,
}

/// Whether a rule that does so ends its list where it applies.
pub fn is_final(action: Action) -> bool
    ensures { result ≡ is_final action }
{
    match action {
        Action::Accept | Action::Reject => true,
        Action::Track(_, _) | Action::ExpectProxy => false,
    }
}

/// The rules of a list that are tried, in order, where the step tracks `earlier` before the list: up to the first one
/// that accepts or rejects and applies, and that one.
pub fn try_rules<S: Scene>(
    alloc: Global,
    rules: &[Rule],
    scene: &S,
    earlier: Tracks,
) -> Result<Vec<Tried>, AllocError>
    ensures { IfOk result (λ list. list.items ≡ tried (S.meaning scene.now) earlier rules.now) }
{
    let mut list = Vec::new(alloc);
    let mut tracks = earlier;
    for rule in rules {
        let applies = is_true(scene, &tracks, rule);
        list.push(Tried {
            line: rule.line,
            action: rule.action,
            applies,
            before: tracks,
        })?;
        if applies && is_final(rule.action) {
            return Ok(list);
        }
        tracks = after_rule(scene, tracks, rule);
    }
    Ok(list)
}

/// The `use_backend` lines that are tried, in order: up to the first one that applies, and that one.
pub fn try_choices<V: View>(
    alloc: Global,
    choices: &[Choice],
    view: &V,
) -> Result<Vec<TriedChoice>, AllocError>
    ensures { IfOk result (λ list. list.items
        ≡ tried_choices (V.acls view.now) (V.worth view.now) choices.now) }
{
    let mut list = Vec::new(alloc);
    for choice in choices {
        let applies = choice.when.applies(view);
        list.push(TriedChoice {
            line: choice.line,
            applies,
        })?;
        if applies {
            return Ok(list);
        }
    }
    Ok(list)
}
