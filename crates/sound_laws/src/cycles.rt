//! What the end of a cycle keeps.

ghost use Rattle.cm_document.specs.Valid.{IsValid};
ghost use Rattle.cm_model.specs.Cycle.{cycle, after_cycle};
ghost use Rattle.cm_model.specs.State.{State};
ghost use Rattle.cm_model.specs.Steady.{IsSteady};

/// The end of a cycle of a valid description keeps a state steady, whichever components and updates failed in it: what
/// uses a failed component stops, and with it each controller that precedes it, so that those that stay can run
/// together once the components have moved.
pub fn the_end_of_a_cycle_keeps_a_state_steady()
    ensures { (s : State) → IsValid s.description → IsSteady s → IsSteady (after_cycle s (cycle s)) }
{}
