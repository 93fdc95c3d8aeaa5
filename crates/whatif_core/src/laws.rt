//! Laws of the trial, over whole histories.
ghost use Rattle.std.specs.Prelude.{◌≡◌, ◌∷◌, ℕ, Bool, true, false, List, IsSome, Ok, Some};
ghost use Rattle.addr_core.specs.PairValue.{PairValue};
ghost use Rattle.plan_types.specs.declared.plan.Plan.{Plan};
ghost use Rattle.conn_model.specs.declared.event.ConnId.{ConnId};
ghost use Rattle.conn_laws.specs.Deciding.{is_judgement};
ghost use Rattle.conn_model.specs.declared.event.OwnedEvent.TheVariants.{Accept};
ghost use Rattle.conn_model.specs.declared.plain.Plain.{Plain};
ghost use Rattle.conn_model.specs.declared.reply.Reply.{Reply};
ghost use Rattle.conn_model.specs.Answer.{answer_in, row_at};
ghost use Rattle.conn_model.specs.History.{after, answer, id_of, opening, Entry, IsLegal};
ghost use Rattle.whatif_core.specs.Deciding.{is_failure};
ghost use Rattle.whatif_core.specs.Reporting.{differs_at, history_report, parted_at, trial_opening};
ghost use Rattle.whatif_core.specs.Reporting.{HasDiffered, HasParted, IsSeen};

/// After each legal history, a connection that is open in the trial is open in the balancer of the record, under the
/// same name. So one that the trial alone lets in is closed at once. Each accept that the balancer of the record answers is
/// answered by the trial too, and gets the same name there.
pub fn open_in_both()
    ensures below { (summary : Bool) (plan : Plan) (text : List ℕ) (trial : Plain) (h : List Entry) →
        trial_opening plan text ≡ Ok trial → IsLegal (opening plan 0) h → (id : ConnId) →
        IsSome (row_at (history_report summary (opening plan 0) trial h).trial.frontends id) →
        IsSome (row_at (after (opening plan 0) h).frontends id) }
    ensures names { (summary : Bool) (plan : Plan) (text : List ℕ) (trial : Plain) (h : List Entry) →
        trial_opening plan text ≡ Ok trial → IsLegal (opening plan 0) h →
        (moment listener : ℕ) (real : PairValue) (reply : Reply) →
        answer (opening plan 0) h moment (Accept listener real) ≡ Ok reply →
        (theirs : Reply)
        × (answer_in (history_report summary (opening plan 0) trial h).trial moment (Accept listener real) ≡ Ok theirs)
        × (id_of theirs.said ≡ id_of reply.said) }
{}

/// A connection has one difference at the most: where it had one, no later entry has one on it. It is lost or saved
/// once at the most. Nothing is hidden except by that: where the balancer of the record lets a connection wait, offers it
/// a server or refuses it, and it has had no difference and was neither lost nor saved, the trial decides too, except at
/// an expiry that is not due there, which comes only where moments fall. Where the server of such a connection is out of
/// reach, the trial moves or ends it too, whichever of the two the record did: so it is counted as lost or saved exactly
/// if one of them moves it and the other ends it.
pub fn differences_are_seen_once()
    ensures once { (plan : Plan) (text : List ℕ) (trial : Plain) (h : List Entry) (e : Entry) (id : ConnId) →
        trial_opening plan text ≡ Ok trial → IsLegal (opening plan 0) (e ∷ h) →
        HasDiffered (opening plan 0) trial id h → differs_at (opening plan 0) trial (e ∷ h) ≡ Some id → ⊥ }
    ensures parted_once { (plan : Plan) (text : List ℕ) (trial : Plain) (h : List Entry) (e : Entry)
        (id : ConnId) →
        trial_opening plan text ≡ Ok trial → IsLegal (opening plan 0) (e ∷ h) →
        HasParted (opening plan 0) trial id h →
        parted_at (opening plan 0) trial (e ∷ h) ≡ Some id → ⊥ }
    ensures seen { (plan : Plan) (text : List ℕ) (trial : Plain) (h : List Entry) (e : Entry) (id : ConnId) →
        trial_opening plan text ≡ Ok trial → IsLegal (opening plan 0) (e ∷ h) →
        is_judgement e.reply.said ≡ true → id_of e.reply.said ≡ Some id →
        IsSeen (opening plan 0) trial id e h }
    ensures failures_are_seen { (plan : Plan) (text : List ℕ) (trial : Plain) (h : List Entry)
        (e : Entry) (id : ConnId) →
        trial_opening plan text ≡ Ok trial → IsLegal (opening plan 0) (e ∷ h) →
        is_failure e.event ≡ true → id_of e.reply.said ≡ Some id →
        IsSeen (opening plan 0) trial id e h }
{}
