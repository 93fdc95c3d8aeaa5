//! Laws of books.
ghost use Rattle.std.specs.Prelude.{◌≡◌, ◌≤◌, ◌+◌, ◌-◌, ◌++◌, ◌∷◌, ℕ, List, [], length, Ok};
ghost use Rattle.plan_types.specs.declared.plan.Plan as plans;
ghost use Rattle.conn_model.specs.declared.event.OwnedEvent.{OwnedEvent};
ghost use Rattle.conn_model.specs.declared.plain.Plain.{Plain};
ghost use Rattle.conn_model.specs.declared.reply.Reply.{Reply};
ghost use Rattle.conn_model.specs.Answer.{answer_in};
ghost use Rattle.conn_model.specs.History.{after, entry, opening, Entry, IsLegal, IsWell};
ghost use Rattle.record_core.specs.Records.{history_of, joined, AreNumbered};
ghost use Rattle.rtrb.specs.Ring.{sent};
ghost use Rattle.book_core.specs.Book.{BookState, IsBook};
ghost use Rattle.conn_model.specs.Counts.{open_connections};
ghost use Rattle.book_core.specs.Open.{connections_ended, connections_opened, IsNothingCounted};

/// Where the base is what a legal history left, as of a core that was opened and then answered events, the
/// records go on with that history, and the core is the state after both.
pub fn records_go_on()
    ensures legal { (b : BookState) → IsBook b → (p : Plain) → IsWell p → (before : List Entry) → IsLegal p before → b.base ≡ after p before →
        IsLegal p (history_of b.records ++ before) }
    ensures state { (b : BookState) → IsBook b → (p : Plain) → IsWell p → (before : List Entry) → IsLegal p before → b.base ≡ after p before →
        b.state ≡ after p (history_of b.records ++ before) }
{}

/// The journal begins where the last segment ends.
pub fn journal_goes_on()
    ensures first { (b : BookState) → IsBook b → b.made + 1 - length b.journal ≡ 1 + length (joined (sent b.segments)) }
    ensures numbers { (b : BookState) → IsBook b → AreNumbered (b.made + 1 - length b.journal) b.journal }
{}

/// Every history can go on from the state of a book, and there are no more connections open than at its base and
/// in its records together.
pub fn state_of_a_book()
    ensures well { (b : BookState) → IsBook b → IsWell b.state }
    ensures few { (b : BookState) → IsBook b → open_connections b.state ≤ open_connections b.base + b.made }
{}

/// Where a configuration is opened, no connection is open; an answer changes their number by those that it opens and
/// ends, which is one at most.
pub fn open_connections_change()
    ensures opening { (plan : plans.Plan) (last : ℕ) → open_connections (opening plan last) ≡ 0 }
    ensures step { (p : Plain) → IsWell p → (moment : ℕ) (event : OwnedEvent) (reply : Reply) → answer_in p moment event ≡ Ok reply →
        open_connections (after p (entry moment event reply ∷ [])) + connections_ended event reply.said ≡ open_connections p + connections_opened event reply.said }
{}

/// Where no connection is open, none is counted of any frontend, backend, server or entry of a table.
pub fn nothing_is_counted()
    ensures { (p : Plain) → open_connections p ≡ 0 → IsNothingCounted p }
{}
