//! Laws of what a caller keeps of the loaded controllers: each is the contract of a function that does nothing.

ghost use Rattle.std.specs.Prelude.{◌≡◌, ◌<◌, ℕ, true, false, [], length, slice_get, Some};
ghost use Rattle.std.specs.Option.{option_map_or};
ghost use Rattle.cm_document.specs.Places.{interfaces_of};
ghost use Rattle.cm_document.specs.Valid.{IsValid};
ghost use Rattle.cm_document.specs.declared.call.Mail.{Mail};
ghost use Rattle.cm_document.specs.declared.description.Description.{Description};
ghost use Rattle.cm_model.specs.Commit.{commit};
ghost use Rattle.cm_model.specs.Cycle.{begun, cycle, landed};
ghost use Rattle.cm_model.specs.Kinds.{takes};
ghost use Rattle.cm_model.specs.Order.{Places};
ghost use Rattle.cm_model.specs.Scene.{is_chained_in};
ghost use Rattle.cm_model.specs.Serials.{IsNumbered};
ghost use Rattle.cm_model.specs.State.{State, Loaded, is_active, active};
ghost use Rattle.cm_model.specs.Steady.{IsOwn, IsSteady};
ghost use Rattle.cm_places.specs.Placed.{placed_of};
ghost use Rattle.ctl_trait.specs.Taking.{CanTake};
ghost use Rattle.cm_slots.specs.Fit.{AreFit};
ghost use Rattle.cm_slots.specs.Connections.{widest, IsConnected, HasRoom};

/// A loaded controller of a valid description, with its own parameters, stands on the board of that description, and
/// there is room for what it has.
pub fn own_controllers_are_connected()
    ensures connected { (d : Description) (l : Loaded) → IsValid d → l.place < length d.controllers
        → IsOwn d.controllers l
        → IsConnected (placed_of d) (length (interfaces_of d)) l }
    ensures room { (d : Description) (l : Loaded) → IsValid d → l.place < length d.controllers
        → HasRoom (placed_of d) widest l }
{}

/// An active controller of a steady state that no active one commands can take the mail that fits its parameters.
pub fn mail_that_fits_can_be_taken()
    ensures { (s : State) (i : ℕ) (l : Loaded) (mail : Mail) → IsSteady s → slice_get s.loaded i ≡ Some l
        → is_active l ≡ true → is_chained_in s.description.controllers (active s) l.place ≡ false
        → option_map_or (λ params. takes params mail) l.ctl.params false ≡ true → CanTake l.ctl mail }
{}

/// Controllers are in time and their mail fits after a commit, after a begin, and when a cycle has landed, where it was
/// so before.
pub fn controllers_stay_fit()
    ensures committed { (s : State) (set again : Places) → s.mails ≡ [] → AreFit s → AreFit (commit s set again) }
    ensures begun { (s : State) → IsNumbered s → s.mails ≡ [] → AreFit s → AreFit (begun s) }
    ensures landed { (s : State) → AreFit s → AreFit (landed s (cycle s)) }
{}
