//! Laws of the changes that the rows make.
ghost use Rattle.std.specs.Prelude.{◌≡◌, List};
ghost use Rattle.conn_model.specs.declared.event.ConnId.{ConnId};
ghost use Rattle.conn_model.specs.declared.plain.Row.{Row};
ghost use Rattle.conn_model.specs.declared.plain.FrontendRows.{FrontendRows};
ghost use Rattle.conn_model.specs.Changes.{with_conn, without_conn};

/// Two changes of one connection are one, and nothing is left of a change once the connection ended.
pub fn changes_join()
    ensures twice { (id : ConnId) (first second : Row → Row) (frontends : List FrontendRows) → ((row : Row) → (first row).serial ≡ row.serial) →
        with_conn id second (with_conn id first frontends) ≡ with_conn id (λ row. second (first row)) frontends }
    ensures gone { (id : ConnId) (change : Row → Row) (frontends : List FrontendRows) → ((row : Row) → (change row).serial ≡ row.serial) →
        without_conn id (with_conn id change frontends) ≡ without_conn id frontends }
{}
