//! What the rules that are tried decide.
ghost use Rattle.std.specs.Prelude.{◌≡◌, List};
ghost use Rattle.plan_types.specs.declared.plan.Rule.{Rule};
ghost use Rattle.rule_engine.specs.Meaning.{SceneMeaning};
ghost use Rattle.rule_engine.specs.Judging.{TrackSlots, judged_after};
ghost use Rattle.explain_core.specs.Tried.{decided_in, tried};

/// The last of the rules that are tried is the one that decides, if one does, and no rule after it is tried.
pub fn tried_decide()
    ensures verdict { (scene : SceneMeaning) (tracks : TrackSlots) (rules : List Rule) →
        (judged_after scene tracks rules).verdict ≡ (decided_in (tried scene tracks rules)).0 }
    ensures line { (scene : SceneMeaning) (tracks : TrackSlots) (rules : List Rule) →
        (judged_after scene tracks rules).line ≡ (decided_in (tried scene tracks rules)).1 }
{}
