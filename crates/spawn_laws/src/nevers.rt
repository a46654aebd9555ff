//! Controllers that can never be active together.

ghost use Rattle.std.specs.Prelude.{◌≡◌, ℕ, List, Some};
ghost use Rattle.cm_document.specs.Valid.{IsValid};
ghost use Rattle.cm_document.specs.declared.description.Description.{Description};
ghost use Rattle.cm_model.specs.Machine.{IsLegal, state_after};
ghost use Rattle.cm_model.specs.State.{boot};
ghost use Rattle.cm_model.specs.declared.blanks.Blanks.{Blanks};
ghost use Rattle.cm_model.specs.declared.cause.Dropped.{Dropped};
ghost use Rattle.cm_model.specs.declared.entry.Entry.{Entry};
ghost use Rattle.spawn_laws.specs.Starts.{AreActive};
ghost use Rattle.spawn_plan.specs.Never.{never};

/// No legal history of a valid description, over whatever stock, comes to a state in which exactly these controllers
/// are active, if something speaks against them for good.
pub fn no_legal_history_has_what_can_never_be()
    ensures { (d : Description) (blanks : Blanks) (sessions : ℕ) (history : List Entry) (places : List ℕ)
        (because : Dropped)
        → IsValid d → never d places ≡ Some because → IsLegal d blanks sessions history
        → AreActive places (state_after (boot d blanks sessions) history) → ⊥ }
{}
