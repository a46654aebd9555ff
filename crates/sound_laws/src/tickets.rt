//! What becomes of requests: each is decided rightly, and told once.

ghost use Rattle.std.specs.Prelude.{◌≡◌, ◌++◌, ℕ, option_map};
ghost use Rattle.cm_model.specs.Boundary.{waiting, decisions_from, begin_reply, begin_effect};
ghost use Rattle.cm_model.specs.Boundary.{close_reply, close_effect, told_reply};
ghost use Rattle.cm_model.specs.Deciding.{AreDecided};
ghost use Rattle.cm_model.specs.Sound.{AreStoodIn, decisions_in, ticketed, outcomes_in, outcome_of};
ghost use Rattle.cm_model.specs.State.{State};
ghost use Rattle.cm_model.specs.Steady.{IsSteady};
ghost use Rattle.cm_model.specs.declared.reply.Reply.TheVariants as reply;

/// In a steady state a begin first asks for those that are to stand in, and then decides each request that waited
/// rightly, and tells so: as many of the first come as can, and from there a chain of states leads to the one after the
/// begin, one step a request, with the outcomes that it tells. In each step a strict switch is done whole, and else
/// refused with a cause that is true, and a move of a component likewise; what is refused changes nothing.
pub fn begins_decide_rightly()
    ensures { (s : State) → IsSteady s
        → (stood : State) × AreStoodIn s s.fallbacks stood
        × AreDecided stood (waiting s) (outcomes_in (begin_reply s)) (begin_effect s) }
{}

/// Where all outcomes were told by ticket, they still are after a begin with what it tells, and after the close with
/// what that tells; and who asks for a ticket is told what was told of it.
pub fn each_ticket_is_told_once()
    ensures begin { (s : State) → decisions_from 0 s.outcomes ++ ticketed (decisions_in (begin_reply s))
        ≡ decisions_from 0 (begin_effect s).outcomes }
    ensures close { (s : State) → decisions_from 0 s.outcomes ++ ticketed (decisions_in (close_reply s))
        ≡ decisions_from 0 (close_effect s).outcomes }
    ensures told { (s : State) (ticket : ℕ)
        → option_map (λ o. reply.Outcome o) (outcome_of (decisions_from 0 s.outcomes) ticket) ≡ told_reply s ticket }
{}
