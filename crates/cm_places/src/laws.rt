//! Laws of places on the board: each is the contract of a function that does nothing.

ghost use Rattle.std.specs.Prelude.{◌≡◌, ℕ, true, List, length, map, slice_get, slice_index_or, Some, None, All};
ghost use Rattle.std.specs.List.{list_any};
ghost use Rattle.fixed_num.specs.declared.value.Value.{Value};
ghost use Rattle.cm_document.specs.Links.{refs_of};
ghost use Rattle.cm_document.specs.Places.{Interface, interfaces_of};
ghost use Rattle.cm_document.specs.Valid.{IsValid};
ghost use Rattle.cm_document.specs.declared.description.Description.{Description};
ghost use Rattle.cm_model.specs.Claims.{number_in, states_for, refs_for, given};
ghost use Rattle.cm_model.specs.Order.{Places, controller_at};
ghost use Rattle.cm_model.specs.Scene.{claims_at, is_claimed_by};
ghost use Rattle.cm_model.specs.Values.{InterfaceValue};
ghost use Rattle.chain_order.specs.Links.{linked};
ghost use Rattle.cm_places.specs.Placed.{exporter_of, placed_of, value_at, with_outputs, is_listed};
ghost use Rattle.cm_places.specs.Placed.{AreValuesOf, AreFound, IsClaimOf, HasAllRows};

/// There is a row of each kind for each described controller, and one of each kind for each interface.
pub fn each_has_its_row()
    ensures { (d : Description) → HasAllRows d (placed_of d) }
{}

/// Each interface that a controller of a valid description reads, exports or claims has a place on the board, in the
/// order of its list. What stands at the places of its claims it does claim.
pub fn each_interface_has_its_place()
    ensures reads { (d : Description) (p : ℕ) → IsValid d
        → AreFound d (controller_at d.controllers p).reads (linked (placed_of d).reads p) }
    ensures references { (d : Description) (p : ℕ)
        → AreFound d (refs_of (controller_at d.controllers p)) (linked (placed_of d).references p) }
    ensures claims { (d : Description) (p : ℕ) → IsValid d
        → AreFound d (controller_at d.controllers p).claims (linked (placed_of d).claims p) }
    ensures claimed { (d : Description) (p : ℕ) → All (IsClaimOf d p) (linked (placed_of d).claims p) }
{}

/// What a controller of a valid description gets of the interfaces is what stands at its places, and what it gives out
/// goes to the places of its claims, one output after the other.
pub fn places_serve_for_names()
    ensures states { (d : Description) (values : List InterfaceValue) (p : ℕ) → IsValid d → AreValuesOf d values
        → states_for values (controller_at d.controllers p)
        ≡ map (λ place. number_in (value_at values place)) (linked (placed_of d).reads p) }
    ensures references { (d : Description) (values : List InterfaceValue) (p : ℕ) → AreValuesOf d values
        → refs_for values (controller_at d.controllers p) ≡ map (value_at values) (linked (placed_of d).references p) }
    ensures outputs { (d : Description) (values : List InterfaceValue) (p : ℕ) (outs : List Value) → IsValid d
        → AreValuesOf d values → length outs ≡ length (controller_at d.controllers p).claims
        → given (controller_at d.controllers p).claims outs values
        ≡ with_outputs values (linked (placed_of d).claims p) outs }
{}

/// The row of an interface has the controllers that claim it, and the one that exports it. So a member of a set of
/// controllers claims it exactly where one of its row is a member.
pub fn each_place_knows_its_controllers()
    ensures claimers { (d : Description) (k : ℕ) (i : Interface) → slice_get (interfaces_of d) k ≡ Some i
        → i.called.is_command ≡ true
        → (p : ℕ) → is_listed (linked (placed_of d).claimers k) p ≡ claims_at d.controllers p i.called.name }
    ensures members { (d : Description) (k : ℕ) (i : Interface) → slice_get (interfaces_of d) k ≡ Some i
        → i.called.is_command ≡ true
        → (set : Places)
        → list_any set (linked (placed_of d).claimers k) ≡ is_claimed_by d.controllers set i.called.name }
    ensures exporter { (d : Description) (k : ℕ) (i : Interface) → slice_get (interfaces_of d) k ≡ Some i
        → slice_index_or (placed_of d).exporters k None ≡ exporter_of i.whose }
{}
