//! Laws of flights, as contracts of functions that do nothing.

ghost use Rattle.std.specs.Prelude.{◌≡◌, ℕ, true, false};
ghost use Rattle.cm_document.specs.Links.{is_among, refs_of};
ghost use Rattle.cm_document.specs.Valid.{IsValid};
ghost use Rattle.cm_model.specs.Order.{controller_at, depth, precedes_at};
ghost use Rattle.cm_model.specs.Scene.{claims_at};
ghost use Rattle.cm_model.specs.State.{State, active};
ghost use Rattle.cm_model.specs.Steady.{IsSteady};
ghost use Rattle.iface_names.specs.declared.interface.IfaceName.{IfaceName};
ghost use Rattle.rt_flight.specs.Flights.{FlightFacts, IsAloft, StaysAloft};

/// What consoles call between a begin and its end does not touch the flight: it is that of each state of the same core.
pub fn a_flight_stays_aloft()
    ensures { (begun : State) (flight : FlightFacts) → IsAloft begun flight → StaysAloft begun flight }
{}

/// Of the active controllers none precedes another of its depth: what one claims is no reference of the other. So all
/// of a depth may read before one of them gives out, and workers may share a depth.
pub fn controllers_of_one_depth_do_not_precede_one_another()
    ensures none { (s : State) (p q : ℕ) → IsValid s.description → active s p ≡ true
        → depth s.description.controllers (active s) p ≡ depth s.description.controllers (active s) q
        → precedes_at s.description.controllers p q ≡ false }
    ensures references { (s : State) (p q : ℕ) (interface : IfaceName) → IsValid s.description → active s p ≡ true
        → depth s.description.controllers (active s) p ≡ depth s.description.controllers (active s) q
        → claims_at s.description.controllers p interface ≡ true
        → is_among interface (refs_of (controller_at s.description.controllers q)) ≡ false }
{}

/// No two active controllers claim one interface. So it does not matter in which order those of a depth give out.
pub fn claims_of_active_controllers_differ()
    ensures { (s : State) (p q : ℕ) (interface : IfaceName) → IsSteady s → active s p ≡ true → active s q ≡ true
        → claims_at s.description.controllers p interface ≡ true
        → claims_at s.description.controllers q interface ≡ true → p ≡ q }
{}
