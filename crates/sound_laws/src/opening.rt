//! Where each history begins.

ghost use Rattle.std.specs.Prelude.{ℕ};
ghost use Rattle.cm_document.specs.declared.description.Description.{Description};
ghost use Rattle.cm_model.specs.State.{boot};
ghost use Rattle.cm_model.specs.Steady.{IsSteady};
ghost use Rattle.cm_model.specs.declared.blanks.Blanks.{Blanks};

/// The state at boot is steady, whatever is described: no controller is loaded, and each state interface of a component
/// that is inactive or active holds its body's number.
pub fn the_state_at_boot_is_steady()
    ensures { (d : Description) (blanks : Blanks) (sessions : ℕ) → IsSteady (boot d blanks sessions) }
{}
