//! What picks have in common.
ghost use Rattle.std.specs.Prelude.{◌≡◌, ℕ, true, List, Option, Some};
ghost use Rattle.addr_core.specs.declared.addr.Addr.{Addr};
ghost use Rattle.proxy_types.specs.declared.balance.Method.{Method};
ghost use Rattle.proxy_types.specs.declared.balance.Place.{Place};
ghost use Rattle.balance_core.specs.declared.load.ServerLoad.{ServerLoad};
ghost use Rattle.balance_core.specs.Loads.{is_ready_at};
ghost use Rattle.balance_core.specs.Rounds.{weights_of};
ghost use Rattle.balance_core.specs.Cycles.{IsRound, turn_at};
ghost use Rattle.balance_core.specs.Picks.{picked, used_after, used_now};

/// What was last used is known from the server that was offered: in a round the turn that was picked is the next
/// one of its server.
pub fn offer_moves_the_round()
    ensures { (servers : List ServerLoad) (cycle : List Place) (method : Method) (last : Option ℕ) (source : Addr) (turn : Place) → IsRound (weights_of servers) cycle →
        picked servers method (turn_at cycle last) source ≡ Some turn →
        used_after (weights_of servers) method (turn_at cycle last) turn.server ≡ used_now method (turn_at cycle last) turn }
{}

/// By each method a server that is picked is usable and has room.
pub fn picks_are_ready()
    ensures { (servers : List ServerLoad) (method : Method) (last : Option Place) (source : Addr) (turn : Place) →
        picked servers method last source ≡ Some turn → is_ready_at servers turn.server ≡ true }
{}
