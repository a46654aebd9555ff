//! What holds along each legal history.

ghost use Rattle.std.specs.Prelude.{◌≡◌, ℕ, List, Some};
ghost use Rattle.cm_document.specs.Valid.{IsValid};
ghost use Rattle.cm_document.specs.declared.call.Call.{Call};
ghost use Rattle.cm_document.specs.declared.description.Description.{Description};
ghost use Rattle.cm_model.specs.Machine.{step, IsLegal};
ghost use Rattle.cm_model.specs.Sound.{moments, LoansAlwaysHold, EachDueOneRunsOnce, OneConfigurationEach};
ghost use Rattle.cm_model.specs.Sound.{RequestsAreDecidedOnce, UnloadsLeaveNothing, IsSound};
ghost use Rattle.cm_model.specs.State.{State, boot};
ghost use Rattle.cm_model.specs.Steady.{IsSteady};
ghost use Rattle.cm_model.specs.declared.blanks.Blanks.{Blanks};
ghost use Rattle.cm_model.specs.declared.entry.Entry.{Entry};
ghost use Rattle.cm_model.specs.declared.reply.Reply.{Reply};

/// Each step of a valid description keeps a state steady.
pub fn steps_keep_a_state_steady()
    ensures { (s : State) (who : ℕ) (call : Call) (made : State × Reply) → IsValid s.description → IsSteady s
        → step s who call ≡ Some made → IsSteady made.0 }
{}

/// Loans are exclusive and present after each call of a legal history of a valid description.
pub fn loans_always_hold()
    ensures { (d : Description) (blanks : Blanks) (sessions : ℕ) (history : List Entry) → IsValid d
        → IsLegal d blanks sessions history → LoansAlwaysHold (moments (boot d blanks sessions) history) }
{}

/// In each cycle of such a history each due controller runs once, predecessors first.
pub fn each_due_controller_runs_once()
    ensures { (d : Description) (blanks : Blanks) (sessions : ℕ) (history : List Entry) → IsValid d
        → IsLegal d blanks sessions history → EachDueOneRunsOnce (moments (boot d blanks sessions) history) }
{}

/// In a legal history one configuration holds from each begin to its end, and the end tells of the cycle that began.
pub fn one_configuration_holds_in_each_cycle()
    ensures { (d : Description) (blanks : Blanks) (sessions : ℕ) (history : List Entry)
        → IsLegal d blanks sessions history → OneConfigurationEach (moments (boot d blanks sessions) history) }
{}

/// In a legal history of a valid description each request is decided once, and told so, and each begin does a strict
/// switch whole or not at all, with a cause that is true.
pub fn requests_are_decided_once()
    ensures { (d : Description) (blanks : Blanks) (sessions : ℕ) (history : List Entry) → IsValid d
        → IsLegal d blanks sessions history → RequestsAreDecidedOnce (moments (boot d blanks sessions) history) }
{}

/// An unload of a legal history is done exactly for a loaded controller that is not active, and no later reply names
/// it.
pub fn unloads_leave_nothing_behind()
    ensures { (d : Description) (blanks : Blanks) (sessions : ℕ) (history : List Entry)
        → IsLegal d blanks sessions history → UnloadsLeaveNothing (moments (boot d blanks sessions) history) }
{}

/// Every legal history of a valid description is sound: all five parts hold of it.
pub fn legal_histories_are_sound()
    ensures { (d : Description) (blanks : Blanks) (sessions : ℕ) (history : List Entry) → IsValid d
        → IsLegal d blanks sessions history → IsSound d blanks sessions history }
{}
