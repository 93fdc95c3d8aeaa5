//! Laws of the definitions, which every body meets that does by them.
ghost use Rattle.std.specs.Prelude.{◌≡◌, ◌≢◌, ◌≤◌, ℕ, Bool, true, false, List, [], map, slice_get, Option, Some, None, Ok, IsSome, length, ◌++◌, ◌∷◌, ◌+◌};
ghost use Rattle.std.specs.List.{list_any, AllByRecursion};
ghost use Rattle.pp_any.specs.declared.rest.Rest.{Rest};
ghost use Rattle.pp_any.specs.Header.{shifted};
ghost use Rattle.pp_any.specs.NextPiece.{status_on};
ghost use Rattle.pp_any.specs.Rest.{IsRest};
ghost use Rattle.pp_any.specs.Status.{status};
ghost use Rattle.stick_core.specs.PlainEntries.{KeysDiffer};
ghost use Rattle.addr_core.specs.declared.addr.Endpoint.{Endpoint};
ghost use Rattle.addr_core.specs.PairValue.{PairValue};
ghost use Rattle.arrayvec.specs.ArrayVec.{ArrayVec};
ghost use Rattle.proxy_types.specs.declared.server.ServerIdentity.{ServerIdentity};
ghost use Rattle.proxy_types.specs.ServerIdentity.{same_server};
ghost use Rattle.config_core.specs.Binds.{same_binds, SameBinds};
ghost use Rattle.config_core.specs.Meaning.{meaning};
ghost use Rattle.plan_types.specs.Lines.{LinesDiffer};
ghost use Rattle.plan_types.specs.Sound.{IsSoundPlan};
ghost use Rattle.plan_types.specs.declared.plan.Backend.{Backend};
ghost use Rattle.plan_types.specs.declared.plan.Server.{Server};
ghost use Rattle.proxy_types.specs.declared.balance.Place.{Place};
ghost use Rattle.balance_core.specs.Cycles.{turn_at, IsRound};
ghost use Rattle.balance_core.specs.Picks.{used_now};
ghost use Rattle.addr_core.specs.declared.addr.Addr.{Addr};
ghost use Rattle.conn_model.specs.Words.{newest};
ghost use Rattle.conn_model.specs.Answer.{failure_said, other_server, reply_of, row_at, version_at};
ghost use Rattle.conn_model.specs.Counts.{served_by};
ghost use Rattle.conn_model.specs.Servers.{cursor_after, cursor_at, cursors_after, identity_in, pick_in, weight_of, MayOffer, has_room, is_down, load_of, loads_of};
ghost use Rattle.conn_model.specs.History.{after, answer, counts, entry, identity_of, is_needed, joined, newest_number, now_of, opening, served_less, served_more, tables_of, version_for, IsLegal, IsWell, Entry, is_down_by, last_report};
ghost use Rattle.conn_model.specs.Tables.{is_listed, is_listed_by, open_tracks, same_id, table_alive, table_at, IncarnationsDiffer};
ghost use Rattle.conn_model.specs.declared.event.ConnId.{ConnId};
ghost use Rattle.conn_model.specs.declared.event.OwnedEvent.TheVariants.{Close, Connected, ConnectFailed, Reload};
ghost use Rattle.conn_model.specs.declared.event.Why.{Why};
ghost use Rattle.conn_model.specs.declared.event.Why.TheVariants.{Failed};
ghost use Rattle.conn_model.specs.declared.reply.Reply.{Reply};
ghost use Rattle.conn_model.specs.declared.reply.Said.TheVariants as saids;
ghost use Rattle.conn_model.specs.declared.reply.Said.TheVariants.{Offer, Closed, Reloaded};
ghost use Rattle.conn_model.specs.declared.plain.Assignment.{Assignment};
ghost use Rattle.conn_model.specs.declared.plain.Phase.TheVariants.{Waiting, Offered};
ghost use Rattle.conn_model.specs.declared.plain.Row.{Row};
ghost use Rattle.conn_model.specs.declared.plain.Plain.{Plain};
ghost use Rattle.conn_model.specs.declared.plain.Version.{Version};
ghost use Rattle.conn_model.specs.declared.plain.TableState.{TableState};
ghost use Rattle.plan_types.specs.declared.track.TableId.{TableId};
ghost use Rattle.plan_types.specs.declared.plan.Plan as plans;
ghost use Rattle.conn_model.specs.declared.event.OwnedEvent.{OwnedEvent};
ghost use Rattle.conn_model.specs.declared.ask.Ask.{Ask};

/// What is answered and counted after a history in two parts (`g` after `h`) is what is answered and
/// counted after the second part, from the state that the first one leaves.
pub fn history_in_parts()
    ensures states { (p : Plain) → IsWell p → (g h : List Entry) → IsLegal p (g ++ h) → after (after p h) g ≡ after p (g ++ h) }
    ensures answers { (p : Plain) → IsWell p → (g h : List Entry) (moment : ℕ) (event : OwnedEvent) → IsLegal p (g ++ h) →
        answer (after p h) g moment event ≡ answer p (g ++ h) moment event }
    ensures counted { (p : Plain) → IsWell p → (g h : List Entry) (ask : Ask) → IsLegal p (g ++ h) → counts (after p h) g ask ≡ counts p (g ++ h) ask }
{}

/// A history is legal where its first part is, and its second from the state after the first.
pub fn legal_in_parts()
    ensures first { (p : Plain) (g h : List Entry) → IsLegal p (g ++ h) → IsLegal p h }
    ensures rest { (p : Plain) → IsWell p → (g h : List Entry) → IsLegal p (g ++ h) → IsLegal (after p h) g }
    ensures whole { (p : Plain) → IsWell p → (g h : List Entry) → IsLegal p h → IsLegal (after p h) g → IsLegal p (g ++ h) }
{}

/// A balancer that opens is well, stays so along a legal history, and nothing leaves it as it was.
pub fn stays_well()
    ensures opens { (plan : plans.Plan) (last : ℕ) → IsWell (opening plan last) }
    ensures keeps { (p : Plain) → IsWell p → (h : List Entry) → IsLegal p h → IsWell (after p h) }
    ensures nothing { (p : Plain) → IsWell p → after p [] ≡ p }
{}

/// After each legal history from an opening the entries of a table have different keys and are no more than its size;
/// no two tables are of one incarnation, and those of each kept version are there.
pub fn tables_fit()
    ensures keys { (plan : plans.Plan) (last : ℕ) (h : List Entry) → IsLegal (opening plan last) h →
        AllByRecursion (λ table. KeysDiffer table.entries) (after (opening plan last) h).tables }
    ensures fits { (plan : plans.Plan) (last : ℕ) (h : List Entry) → IsLegal (opening plan last) h →
        AllByRecursion (λ table. length table.entries ≤ table.table.size) (after (opening plan last) h).tables }
    ensures differ { (plan : plans.Plan) (last : ℕ) (h : List Entry) → IsLegal (opening plan last) h → IncarnationsDiffer (after (opening plan last) h).tables }
    ensures there { (plan : plans.Plan) (last : ℕ) (h : List Entry) → IsLegal (opening plan last) h →
        AllByRecursion (λ version. AllByRecursion (λ id. IsSome (table_at (after (opening plan last) h).tables id)) version.tables) (after (opening plan last) h).versions }
{}

/// And each key that an open connection tracks is listed in its table, which is one of the connection's version.
pub fn tracks_are_listed()
    ensures key { (plan : plans.Plan) (last : ℕ) (h : List Entry) → IsLegal (opening plan last) h → (id : ConnId) (row : Row) →
        row_at (after (opening plan last) h).frontends id ≡ Some row → AllByRecursion (λ track. is_listed (after (opening plan last) h).tables track ≡ true) row.tracks }
    ensures table { (plan : plans.Plan) (last : ℕ) (h : List Entry) → IsLegal (opening plan last) h → (id : ConnId) (row : Row) →
        row_at (after (opening plan last) h).frontends id ≡ Some row →
        AllByRecursion (λ track. list_any (same_id track.table) (tables_of (after (opening plan last) h).versions row.version) ≡ true) row.tracks }
{}

/// A connection that waits for its header is judged by all the bytes that came of it, however they were cut: it
/// holds what a parser holds of the joined bytes, which decide nothing yet; and its next piece decides what the
/// joined bytes with the piece decide, at the same byte.
pub fn pieces_are_judged_joined()
    ensures holds { (plan : plans.Plan) (last : ℕ) (h : List Entry) → IsLegal (opening plan last) h → (id : ConnId) (row : Row) (rest : Rest) →
        row_at (after (opening plan last) h).frontends id ≡ Some row → row.phase ≡ Waiting rest → IsRest (joined id h) rest }
    ensures decides { (plan : plans.Plan) (last : ℕ) (h : List Entry) → IsLegal (opening plan last) h → (id : ConnId) (row : Row) (rest : Rest) →
        row_at (after (opening plan last) h).frontends id ≡ Some row → row.phase ≡ Waiting rest → (piece : List ℕ) →
        status (joined id h ++ piece) ≡ shifted (length (joined id h)) (status_on rest piece) }
{}

/// A server that is offered after a legal history from an opening is one of the plan of the version that judges the
/// connection: it is not disabled, its weight is above 0, it is not reported down where it is checked, and its limit is 0 or
/// above the number of open connections that were offered it before. Where no two backends of the plan have servers of one line, the connection counts from
/// then on for that very server.
pub fn offers_have_room()
    ensures room { (plan : plans.Plan) (last : ℕ) (h : List Entry) → IsLegal (opening plan last) h → (moment : ℕ) (event : OwnedEvent) (reply : Reply) →
        (id : ConnId) (used line number : ℕ) (to : Endpoint) (judged : PairValue) (send : ArrayVec ℕ) →
        answer (opening plan last) h moment event ≡ Ok reply → reply.said ≡ Offer id used line number to judged send →
        (version : Version) × (version_for (after (opening plan last) h) reply.said ≡ Some version) ×
        MayOffer (served_by (after (opening plan last) h).frontends) (is_down (after (opening plan last) h).down) version.plan line number to }
    ensures counted { (served : ServerIdentity → ℕ) (barred : Backend → Server → Bool) (plan : plans.Plan) (line number : ℕ) (to : Endpoint) → (offer : MayOffer served barred plan line number to) →
        LinesDiffer plan → identity_of (Some plan) line number to ≡ identity_in offer.backend offer.server }
{}

/// A server takes a connection, or cannot be reached for it, exactly where the connection is open, was offered a server,
/// and no server took it yet. Where it cannot be reached, the connection is offered another one, if there is one for it, and
/// else it ends.
pub fn servers_answer_offers()
    ensures connected { (p : Plain) (h : List Entry) (moment : ℕ) (id : ConnId) (row : Row) (assignment : Assignment) →
        row_at (after p h).frontends id ≡ Some row → row.phase ≡ Offered assignment → answer p h moment (Connected id) ≡ Ok (reply_of (saids.Up id)) }
    ensures failed { (p : Plain) (h : List Entry) (moment : ℕ) (id : ConnId) (row : Row) (assignment : Assignment) →
        row_at (after p h).frontends id ≡ Some row → row.phase ≡ Offered assignment → answer p h moment (ConnectFailed id) ≡ Ok (reply_of (failure_said id assignment (other_server (after p h) row assignment))) }
    ensures only_connected { (p : Plain) (h : List Entry) (moment : ℕ) (id : ConnId) (reply : Reply) → answer p h moment (Connected id) ≡ Ok reply →
        (row : Row) × (assignment : Assignment) × (row_at (after p h).frontends id ≡ Some row) × (row.phase ≡ Offered assignment) × (reply ≡ reply_of (saids.Up id)) }
    ensures only_failed { (p : Plain) (h : List Entry) (moment : ℕ) (id : ConnId) (reply : Reply) → answer p h moment (ConnectFailed id) ≡ Ok reply →
        (row : Row) × (assignment : Assignment) × (row_at (after p h).frontends id ≡ Some row) × (row.phase ≡ Offered assignment) × (reply ≡ reply_of (failure_said id assignment (other_server (after p h) row assignment))) }
{}

/// A connection is closed exactly where it is open, and the answer names it, with the reason that was given.
pub fn closes_end_their_own()
    ensures closed { (p : Plain) (h : List Entry) (moment : ℕ) (id : ConnId) (why : Why)
        (row : Row) → row_at (after p h).frontends id ≡ Some row →
        answer p h moment (Close id why) ≡ Ok (reply_of (Closed id why)) }
    ensures only_closed { (p : Plain) (h : List Entry) (moment : ℕ) (id : ConnId) (why : Why)
        (reply : Reply) → answer p h moment (Close id why) ≡ Ok reply →
        (row : Row) × (row_at (after p h).frontends id ≡ Some row)
        × (reply ≡ reply_of (Closed id why)) }
{}

/// An offer moves the cursor of the backend whose server is offered, and that of no other backend: by round robin it is
/// then at the turn that was picked, by least connections at the server, and by source as it was.
pub fn offers_move_cursors()
    ensures own { (plan : plans.Plan) → IsSoundPlan plan → (place line number : ℕ) (backend : Backend) (server : Server) (cursors : List (Option Place)) →
        length cursors ≡ length plan.backends → slice_get plan.backends place ≡ Some backend → slice_get backend.servers number ≡ Some server → server.line ≡ line →
        cursor_at (cursors_after plan line number cursors) place ≡ cursor_after backend number (cursor_at cursors place) }
    ensures others { (plan : plans.Plan) → IsSoundPlan plan → (place line number : ℕ) (backend : Backend) (server : Server) (cursors : List (Option Place)) →
        slice_get plan.backends place ≡ Some backend → slice_get backend.servers number ≡ Some server → server.line ≡ line → (other : ℕ) → other ≢ place →
        cursor_at (cursors_after plan line number cursors) other ≡ cursor_at cursors other }
    ensures turn { (served : ServerIdentity → ℕ) (barred : Backend → Server → Bool) (backend : Backend) (cycle : List Place) (last : Option ℕ) (source : Addr) (turn : Place) →
        IsRound (map weight_of backend.servers) cycle → pick_in served barred backend (turn_at cycle last) source ≡ Some turn →
        cursor_after backend turn.server (turn_at cycle last) ≡ used_now backend.method (turn_at cycle last) turn }
{}

/// The open connections of a server are one more after each offer of it, one fewer after each end of a connection that
/// was offered it, or where that is offered another one, and as many as before after all else: one that the server took
/// still counts.
pub fn servers_are_counted()
    ensures { (plan : plans.Plan) (last : ℕ) (h : List Entry) (e : Entry) → IsLegal (opening plan last) (e ∷ h) → (server : ServerIdentity) →
        served_by (after (opening plan last) (e ∷ h)).frontends server + served_less (after (opening plan last) h) e.reply.said server ≡
        served_by (after (opening plan last) h).frontends server + served_more (after (opening plan last) h) e.reply.said server }
{}

/// A server is down after a history exactly where the last report of it says so, or where there was none and it was down
/// before.
pub fn last_reports_count()
    ensures { (p : Plain) (h : List Entry) (server : ServerIdentity) →
        list_any (same_server server) (after p h).down ≡ is_down_by (list_any (same_server server) p.down) (last_report p h server) }
{}

/// Where no server of a backend is checked, a pick goes by their weights, limits and open connections alone, whatever was
/// reported.
pub fn unchecked_servers_are_up()
    ensures loads { (served : ServerIdentity → ℕ) (down : List ServerIdentity) (backend : Backend) → AllByRecursion (λ server. server.check ≡ None) backend.servers →
        loads_of served (is_down down) backend ≡ loads_of served (λ other server. false) backend }
    ensures load { (served : ServerIdentity → ℕ) (backend : Backend) (server : Server) →
        load_of served (λ other s. false) backend server ≡
        record { weight = weight_of server; has_room = has_room server.limit (served (identity_in backend server)); connections = served (identity_in backend server) } }
{}

/// A reload is answered where its text means a plan that binds what the version in force binds; it then gets the next
/// number.
pub fn reloads_follow()
    ensures { (p : Plain) (h : List Entry) (moment : ℕ) (text : List ℕ) (reply : Reply) → answer p h moment (Reload text) ≡ Ok reply →
        (plan : plans.Plan) × (version : Version) × (meaning text ≡ Ok plan) × (newest (after p h).versions ≡ Some version) × (same_binds version.plan plan ≡ true) ×
        (reply ≡ reply_of (Reloaded (version.number + 1))) }
{}

/// Each version binds what the opening bound, so that the numbers of frontends and listeners hold for good.
pub fn binds_stay()
    ensures { (plan : plans.Plan) (last : ℕ) (h : List Entry) → IsLegal (opening plan last) h →
        AllByRecursion (λ version. SameBinds plan version.plan) (after (opening plan last) h).versions }
{}

/// A version is kept while it is in force or an open connection is of it, and a table while a version that is kept lists
/// it; neither is kept for longer.
pub fn kept_while_needed()
    ensures versions { (plan : plans.Plan) (last : ℕ) (h : List Entry) → IsLegal (opening plan last) h →
        AllByRecursion (λ version. is_needed (after (opening plan last) h).frontends (newest_number (after (opening plan last) h)) version.number ≡ true) (after (opening plan last) h).versions }
    ensures rows { (plan : plans.Plan) (last : ℕ) (h : List Entry) → IsLegal (opening plan last) h → (id : ConnId) (row : Row) →
        row_at (after (opening plan last) h).frontends id ≡ Some row → IsSome (version_at (after (opening plan last) h).versions row.version) }
    ensures tables { (plan : plans.Plan) (last : ℕ) (h : List Entry) → IsLegal (opening plan last) h →
        AllByRecursion (λ table. is_listed_by (after (opening plan last) h).versions table ≡ true) (after (opening plan last) h).tables }
{}

/// While a version is kept no event changes its plan, nor the incarnations of its tables.
pub fn versions_stay_as_written()
    ensures { (p : Plain) → IsWell p → (e : Entry) (h : List Entry) → IsLegal p (e ∷ h) → (number : ℕ) (v w : Version) →
        version_at (after p h).versions number ≡ Some v → version_at (after p (e ∷ h)).versions number ≡ Some w → (w.plan ≡ v.plan) × (w.tables ≡ v.tables) }
{}

/// A table that is kept over a reload has the entries that it had, without those that are gone by then.
pub fn tables_stay_over_reloads()
    ensures { (p : Plain) → IsWell p → (h : List Entry) (moment : ℕ) (text : List ℕ) (reply : Reply) → IsLegal p (entry moment (Reload text) reply ∷ h) →
        (id : TableId) (v w : TableState) → table_at (after p h).tables id ≡ Some v → table_at (after p (entry moment (Reload text) reply ∷ h)).tables id ≡ Some w →
        w ≡ table_alive (now_of p.clock (entry moment (Reload text) reply ∷ h)) (open_tracks (after p h).frontends) v }
{}
