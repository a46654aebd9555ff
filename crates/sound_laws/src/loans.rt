//! What a steady state says of loans.

ghost use Rattle.cm_document.specs.Valid.{IsValid};
ghost use Rattle.cm_model.specs.Loans.{LoansHold};
ghost use Rattle.cm_model.specs.Serials.{IsNumbered};
ghost use Rattle.cm_model.specs.State.{State};
ghost use Rattle.cm_model.specs.Steady.{IsSteady};

/// In a steady state of a valid description in which serials rise the loans hold: each described controller is loaded
/// once at most; the active ones can run together, so that what each claims is its own; what each reads holds a number;
/// what is not available holds nothing, and neither does what none of them claims; and each says rightly whether it is
/// chained.
pub fn the_loans_of_a_steady_state_hold()
    ensures { (s : State) → IsValid s.description → IsSteady s → IsNumbered s → LoansHold s }
{}
