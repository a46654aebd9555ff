//! Laws of ends of cycles: each is the contract of a function that does nothing.

ghost use Rattle.std.specs.Prelude.{◌≡◌, ℕ, false, []};
ghost use Rattle.cm_document.specs.Valid.{IsValid};
ghost use Rattle.cm_model.specs.Commit.{commit};
ghost use Rattle.cm_model.specs.Cycle.{failed_in, stays_active, stops, cycle, landed, after_cycle};
ghost use Rattle.cm_model.specs.Order.{Places};
ghost use Rattle.cm_model.specs.State.{State, active};
ghost use Rattle.cm_model.specs.Steady.{IsInOrder, IsSteady};
ghost use Rattle.stop_plan.specs.Ending.{erred_in, told_in, CanBeCommitted};

/// A commit of the controllers that are active, of which none restarts by name, changes nothing.
pub fn a_commit_of_the_active_changes_nothing()
    ensures { (s : State) (again : Places) → IsInOrder s → ((p : ℕ) → again p ≡ false)
        → commit s (active s) again ≡ s }
{}

/// Where no component and no update failed, the end of a cycle stops nobody and changes nothing: the state is as the
/// cycle leaves it.
pub fn a_cycle_without_failure_ends_as_it_lands()
    ensures none_stopped { (s : State) → failed_in s ≡ [] → erred_in (told_in s) ≡ [] → stops s (told_in s) ≡ [] }
    ensures unchanged { (s : State) → IsSteady s → failed_in s ≡ [] → erred_in (told_in s) ≡ []
        → after_cycle s (cycle s) ≡ landed s (cycle s) }
{}

/// The controllers that stay active at the end of a cycle can be committed in the state that the cycle leaves,
/// whichever components and updates failed.
pub fn those_that_stay_can_be_committed()
    ensures { (s : State) → IsValid s.description → IsSteady s
        → CanBeCommitted (landed s (cycle s)) (stays_active s (told_in s)) }
{}
