//! A tenant that shares no table, backend or count with others is answered as if it were alone.
ghost use Rattle.std.specs.Prelude.{◌≡◌, ◌≤◌, ℕ, true, false, List, [], Some, Ok, ◌∷◌};
ghost use Rattle.plan_types.specs.declared.plan.Plan.{Plan};
ghost use Rattle.config_core.specs.Meaning.{meaning};
ghost use Rattle.conn_model.specs.declared.event.OwnedEvent.{OwnedEvent};
ghost use Rattle.conn_model.specs.declared.event.OwnedEvent.TheVariants.{Reload};
ghost use Rattle.conn_model.specs.declared.plain.Plain.{Plain};
ghost use Rattle.conn_model.specs.declared.reply.Reply.{Reply};
ghost use Rattle.conn_model.specs.Answer.{answer_in};
ghost use Rattle.conn_model.specs.History.{after, entry, opening, Entry, IsLegal, IsWell};
ghost use Rattle.tenant_laws.specs.Parts.{keeps_apart, Part};
ghost use Rattle.tenant_laws.specs.Agreement.{Agree, IsApart, IsNamed, IsSound};
ghost use Rattle.tenant_laws.specs.Samples.{acorn, birch, birch_first, birch_once, joined_by_backend, joined_by_count, joined_by_table, offered_alone, offered_to, text_keeps_apart, two_tenants, acorn_reported, birch_reported, steps_alone, two_checked};
ghost use Rattle.tenant_laws.specs.Runs.{alone, answers_after, answers_to, is_rising, part_answers, side_of, Steps, TextsKeepApart};

/// What the other laws ask of a state holds where a text is opened, and goes on along each legal history; and a part
/// that the text keeps apart is apart in the opening.
pub fn regular()
    ensures opens { (text : List ℕ) (plan : Plan) (last : ℕ) → meaning text ≡ Ok plan → IsSound (opening plan last) }
    ensures keeps { (p : Plain) → IsSound p → (h : List Entry) → IsLegal p h → IsSound (after p h) }
    ensures apart { (part : Part) (plan : Plan) (last : ℕ) → keeps_apart part plan ≡ true → IsNamed part (opening plan last) → IsApart part (opening plan last) }
{}

/// The answers to a list of steps, from state to state, are the answers after the history of those that were answered.
pub fn histories()
    ensures { (p : Plain) → IsWell p → (steps : Steps) (h : List Entry) → IsLegal p h → answers_to (after p h) steps ≡ answers_after p h steps }
{}

/// A step outside a part leaves the part's view as it was. So a report that a server of another tenant is down, or up
/// again, changes nothing for the part, and neither does a connection of another tenant that is moved to another server.
pub fn outside()
    ensures { (part : Part) (p : Plain) → IsSound p → IsApart part p → (moment : ℕ) (event : OwnedEvent) (reply : Reply) →
        side_of part p event ≡ Some false → answer_in p moment event ≡ Ok reply →
        Agree part p (after p (entry moment event reply ∷ [])) }
{}

/// A step on a part, at a moment that is not before what was, has one answer in two states that agree on the part, faults
/// included, and leaves two that agree. A report of a server is on the part that has the name of its backend.
pub fn inside()
    ensures answers { (part : Part) (p q : Plain) → IsSound p → IsSound q → Agree part p q → (moment : ℕ) (event : OwnedEvent) → p.clock ≤ moment → q.clock ≤ moment →
        side_of part p event ≡ Some true → answer_in p moment event ≡ answer_in q moment event }
    ensures states { (part : Part) (p q : Plain) → IsSound p → IsSound q → Agree part p q → (moment : ℕ) (event : OwnedEvent) (reply : Reply) → p.clock ≤ moment → q.clock ≤ moment →
        side_of part p event ≡ Some true → answer_in p moment event ≡ Ok reply →
        Agree part (after p (entry moment event reply ∷ [])) (after q (entry moment event reply ∷ [])) }
{}

/// A reload has one answer in two states that agree on a part, and leaves two that agree where its text keeps the part
/// apart.
pub fn reload()
    ensures answers { (part : Part) (p q : Plain) → IsSound p → IsSound q → Agree part p q → (moment : ℕ) (text : List ℕ) → answer_in p moment (Reload text) ≡ answer_in q moment (Reload text) }
    ensures states { (part : Part) (p q : Plain) → IsSound p → IsSound q → Agree part p q → (moment : ℕ) (text : List ℕ) (reply : Reply) →
        ((plan : Plan) → meaning text ≡ Ok plan → keeps_apart part plan ≡ true) → answer_in p moment (Reload text) ≡ Ok reply →
        Agree part (after p (entry moment (Reload text) reply ∷ [])) (after q (entry moment (Reload text) reply ∷ [])) }
{}

/// For each part that the opening text and the text of each accepted reload keep apart, and each list of steps with
/// moments that never fall: the answers to the steps on the part, faults included, are those of the run without the
/// others' steps. Connections of the others, and reports of their servers, are such steps; a report of a server goes by
/// the name of its backend in the configuration in force.
pub fn list()
    ensures { (part : Part) (text : List ℕ) (plan : Plan) (last : ℕ) → meaning text ≡ Ok plan → IsNamed part (opening plan last) →
        keeps_apart part plan ≡ true → (steps : Steps) → TextsKeepApart part (opening plan last) steps → is_rising 0 steps ≡ true →
        part_answers part (opening plan last) steps ≡ part_answers part (opening plan last) (alone part (opening plan last) steps) }
{}

/// A configuration that keeps two tenants apart, and three that join them: by a table, whichever section is named, by a
/// backend and by a count. In each of these the one is answered otherwise after the other's connections than alone. In
/// another that keeps them apart the servers of both are checked: after a report that a server of the one is down, the
/// other gets the same server as alone, and its run alone has no such report; after a report of its own it gets another.
pub fn examples()
    ensures apart { (text_keeps_apart (acorn false) two_tenants ≡ true) × (text_keeps_apart birch two_tenants ≡ true) }
    ensures table { (text_keeps_apart (acorn false) joined_by_table ≡ false) × (text_keeps_apart (acorn true) joined_by_table ≡ false) × (text_keeps_apart birch joined_by_table ≡ false) }
    ensures backend { (text_keeps_apart (acorn false) joined_by_backend ≡ false) × (text_keeps_apart birch joined_by_backend ≡ false) }
    ensures count { (text_keeps_apart (acorn false) joined_by_count ≡ false) × (text_keeps_apart birch joined_by_count ≡ false) }
    ensures unseen { (offered_to (acorn false) two_tenants birch_first ≡ 0 ∷ []) × (offered_alone (acorn false) two_tenants birch_first ≡ 0 ∷ []) }
    ensures checked { (text_keeps_apart (acorn false) two_checked ≡ true) × (text_keeps_apart birch two_checked ≡ true) }
    ensures report_unseen { (offered_to (acorn false) two_checked birch_reported ≡ 0 ∷ []) × (offered_alone (acorn false) two_checked birch_reported ≡ 0 ∷ []) × (steps_alone (acorn false) two_checked birch_reported ≡ 1) }
    ensures report_seen { (offered_to (acorn false) two_checked acorn_reported ≡ 100 ∷ 1 ∷ []) × (steps_alone (acorn false) two_checked acorn_reported ≡ 2) }
    ensures seen_in_table { (offered_to (acorn false) joined_by_table birch_first ≡ 100 ∷ []) × (offered_alone (acorn false) joined_by_table birch_first ≡ 0 ∷ []) }
    ensures seen_in_backend { (offered_to (acorn false) joined_by_backend birch_once ≡ 1 ∷ []) × (offered_alone (acorn false) joined_by_backend birch_once ≡ 0 ∷ []) }
    ensures seen_in_count { (offered_to (acorn false) joined_by_count birch_first ≡ 100 ∷ []) × (offered_alone (acorn false) joined_by_count birch_first ≡ 0 ∷ []) }
{}
