//! Why a connection is offered a server, and why it is refused; and what a step tracks.
ghost use Rattle.std.specs.Prelude.{◌≡◌, ◌==◌, ◌<◌, ◌≤◌, ◌^◌, ◌+◌, ◌-◌, ◌++◌, ◌↔◌, ℕ, true, false, List, [], length, slice_get, Some, Ok};
ghost use Rattle.std.specs.List.{IsDistinct};
ghost use Rattle.addr_core.specs.PairValue.{PairValue};
ghost use Rattle.pp_any.specs.declared.rest.Rest.{Rest};
ghost use Rattle.plan_types.specs.declared.plan.Plan.{Plan};
ghost use Rattle.plan_types.specs.declared.plan.TheConstants.{MOST_MOVES};
ghost use Rattle.plan_types.specs.declared.track.Track.{Track};
ghost use Rattle.plan_types.specs.Moves.{moves_of};
ghost use Rattle.config_core.specs.Meaning.{meaning};
ghost use Rattle.conn_model.specs.declared.event.ConnId.{ConnId};
ghost use Rattle.conn_model.specs.declared.event.OwnedEvent.{OwnedEvent};
ghost use Rattle.conn_model.specs.declared.event.OwnedEvent.TheVariants.{Accept, Piece, ConnectFailed};
ghost use Rattle.conn_model.specs.declared.plain.Listener.{Listener};
ghost use Rattle.conn_model.specs.declared.plain.Plain.{Plain};
ghost use Rattle.conn_model.specs.declared.plain.Row.{Row};
ghost use Rattle.conn_model.specs.declared.reply.Cause.{Cause};
ghost use Rattle.conn_model.specs.declared.reply.Reply.{Reply};
ghost use Rattle.conn_model.specs.declared.reply.Said.{Said};
ghost use Rattle.conn_model.specs.declared.reply.Said.TheVariants.{Refuse};
ghost use Rattle.conn_model.specs.Words.{row_at};
ghost use Rattle.conn_model.specs.Answer.{rest_in};
ghost use Rattle.conn_model.specs.History.{after, answer, joined, opening, Entry, IsLegal};
ghost use Rattle.conn_laws.specs.Deciding.{is_offer, is_wait, may_offer, tries_rules, Arrival, IsCause, IsJudged, IsLeftWaiting, IsLetWait, IsOfferedAtAccept, IsOfferedAtPiece, Says, Waiter, IsMoved};
ghost use Rattle.conn_laws.specs.Moving.{lines_offered};

/// After each legal history the version in force has the frontend of each listener, and the version of its accept that of
/// each connection that waits. So while the frontend has a serial left each client that comes is let in to wait, offered a
/// server or refused, and so is each connection that waits at each of its pieces.
pub fn each_is_judged()
    ensures arrivals { (plan : Plan) (last : ℕ) (h : List Entry) → IsLegal (opening plan last) h → (listener : ℕ) (at : Listener) →
        slice_get (after (opening plan last) h).listeners listener ≡ Some at → Arrival (after (opening plan last) h) listener }
    ensures waiters { (plan : Plan) (last : ℕ) (h : List Entry) → IsLegal (opening plan last) h → (id : ConnId) (row : Row) (rest : Rest) →
        row_at (after (opening plan last) h).frontends id ≡ Some row → rest_in row.phase ≡ Some rest → Waiter (after (opening plan last) h) id }
    ensures accepts { (p : Plain) (h : List Entry) (moment listener : ℕ) (real : PairValue) (arrival : Arrival (after p h) listener) → arrival.own.serial < 2 ^ 64 - 1 →
        IsJudged (answer p h moment (Accept listener real)) }
    ensures pieces { (p : Plain) (h : List Entry) (moment : ℕ) (id : ConnId) (piece : List ℕ) → Waiter (after p h) id → IsJudged (answer p h moment (Piece id piece)) }
{}

/// After each history a connection is offered a server exactly when the limit and the rules of its frontend admit it,
/// its header is well formed, where one is demanded, and the backend that the lines choose has that server for it. A
/// connection is judged at its accept where neither its listener nor a connection rule demands a header. Else the limit
/// and the connection rules let it in there to wait for its header, and the piece that ends the header decides the rest.
/// Where the server that it was offered is out of reach, it is offered another one exactly when its backend has one for it.
/// Each of these answers names its connection, and tracks what the rules that were tried track.
pub fn offered_exactly_when()
    ensures at_accept { (p : Plain) (h : List Entry) (moment listener : ℕ) (real : PairValue)
        (said : Said) (tracks : List Track) → is_offer said ≡ true →
        Says (answer p h moment (Accept listener real)) said tracks
        ↔ ((arrival : Arrival (after p h) listener)
        × IsOfferedAtAccept (after p h) moment real listener arrival said tracks) }
    ensures waits { (p : Plain) (h : List Entry) (moment listener : ℕ) (real : PairValue)
        (said : Said) (tracks : List Track) → is_wait said ≡ true →
        Says (answer p h moment (Accept listener real)) said tracks
        ↔ ((arrival : Arrival (after p h) listener)
        × IsLetWait (after p h) moment real listener arrival said tracks) }
    ensures at_piece { (plan : Plan) (last : ℕ) (h : List Entry) → IsLegal (opening plan last) h →
        (moment : ℕ) (id : ConnId) (piece : List ℕ)
        (said : Said) (tracks : List Track) → is_offer said ≡ true →
        Says (answer (opening plan last) h moment (Piece id piece)) said tracks
        ↔ ((waiter : Waiter (after (opening plan last) h) id)
        × IsOfferedAtPiece (after (opening plan last) h) moment id waiter
        (joined id h ++ piece) (length (joined id h)) said tracks) }
    ensures waits_on { (plan : Plan) (last : ℕ) (h : List Entry) → IsLegal (opening plan last) h →
        (moment : ℕ) (id : ConnId) (piece : List ℕ)
        (said : Said) (tracks : List Track) → is_wait said ≡ true →
        Says (answer (opening plan last) h moment (Piece id piece)) said tracks
        ↔ (Waiter (after (opening plan last) h) id
        × IsLeftWaiting id (joined id h ++ piece) (length piece) said tracks) }
    ensures at_failure { (p : Plain) (h : List Entry) (moment : ℕ) (id : ConnId) (said : Said) (tracks : List Track)
        → is_offer said ≡ true →
        Says (answer p h moment (ConnectFailed id)) said tracks ↔ IsMoved (after p h) id said tracks }
    ensures nothing_else { (p : Plain) (h : List Entry) (moment : ℕ) (event : OwnedEvent)
        (reply : Reply) → answer p h moment event ≡ Ok reply →
        is_offer reply.said ≡ true → may_offer event ≡ true }
    ensures tracks_nothing { (p : Plain) (h : List Entry) (moment : ℕ) (event : OwnedEvent)
        (reply : Reply) → answer p h moment event ≡ Ok reply →
        tries_rules event ≡ false → reply.tracks.items ≡ [] }
{}

/// Moves end: a connection is never offered a server twice, and where it is moved to another one it was offered at most as
/// many before as its backend allows moves. So it is offered nine servers at the most, the first one among them.
pub fn moves_end()
    ensures differ { (plan : Plan) (last : ℕ) (h : List Entry) → IsLegal (opening plan last) h → (id : ConnId) →
        IsDistinct (λ a b. a == b) (lines_offered id h) }
    ensures fewer { (plan : Plan) (last : ℕ) (h : List Entry) → IsLegal (opening plan last) h →
        (id : ConnId) (said : Said) (tracks : List Track)
        (moved : IsMoved (after (opening plan last) h) id said tracks) →
        length (lines_offered id h) ≤ moves_of moved.backend.retries moved.backend.redispatch }
    ensures most { (plan : Plan) (last : ℕ) (h : List Entry) → IsLegal (opening plan last) h → (id : ConnId) →
        length (lines_offered id h) ≤ MOST_MOVES + 1 }
{}

/// Each refusal names the connection that it is of, and the line that decided, or the fault of the header, or that no
/// whole header came in time. It names a frontend for its backends only where its lines choose none, and a backend only
/// where by its method no server is left. It tracks what the rules that were tried track.
pub fn refused_for_its_cause()
    ensures { (text : List ℕ) (plan : Plan) (last : ℕ) (h : List Entry) →
        meaning text ≡ Ok plan → IsLegal (opening plan last) h →
        (moment : ℕ) (event : OwnedEvent) (reply : Reply) (id : ConnId) (used : ℕ) (cause : Cause) →
        answer (opening plan last) h moment event ≡ Ok reply → reply.said ≡ Refuse id used cause →
        IsCause (after (opening plan last) h) (λ id. joined id h) moment event
        id used cause reply.tracks.items }
{}
