//! Laws of the hardware of a state: each is the contract of a function that does nothing.

ghost use Rattle.std.specs.Prelude.{◌≡◌, ◌==◌, ℕ, true, false, List, map, filter_map, None};
ghost use Rattle.std.specs.List.{AllByRecursion, list_any};
ghost use Rattle.fixed_num.specs.declared.value.Value.{Value};
ghost use Rattle.cm_document.specs.Places.{Interface, interfaces_of};
ghost use Rattle.cm_document.specs.Valid.{IsValid};
ghost use Rattle.cm_model.specs.Components.{read_fails};
ghost use Rattle.cm_model.specs.Cycle.{component_is};
ghost use Rattle.cm_model.specs.Order.{controller_at};
ghost use Rattle.cm_model.specs.Sound.{CanRunTogether};
ghost use Rattle.cm_model.specs.State.{State, active, available, owner};
ghost use Rattle.cm_model.specs.Values.{InterfaceValue};
ghost use Rattle.loan_board.specs.Loans.{loan_at, with_loan, set};
ghost use Rattle.cm_hardware.specs.Wiring.{Wired};
ghost use Rattle.cm_places.specs.Placed.{command_place, value_at, with_value};
ghost use Rattle.cm_hardware.specs.Holding.{IsHardwareOf, IsInCycle, IsMoved, reads_failed_in, runners};
ghost use Rattle.cm_hardware.specs.Outputs.{is_there_at};

/// The board of a state holds at each place what the interface there holds, between two cycles and in one.
pub fn the_board_holds_what_the_interfaces_hold()
    ensures at_rest { (s : State) (w : Wired) → IsHardwareOf s w
        → (place : ℕ) → (loan_at w.loans place).value ≡ value_at s.values place }
    ensures in_cycle { (s : State) (values : List InterfaceValue) (w : Wired) → IsInCycle s values w
        → (place : ℕ) → (loan_at w.loans place).value ≡ value_at values place }
{}

/// In a cycle an output that is set at the place of an available interface is one to that interface, and nothing else
/// changes.
pub fn an_output_is_set_at_its_place()
    ensures { (s : State) (values : List InterfaceValue) (w : Wired) (place : ℕ) (value : Value) → IsInCycle s values w
        → is_there_at s values place ≡ true
        → IsInCycle s (with_value values place value) (record w { loans = with_loan w.loans place (set value) }) }
{}

/// What an active controller claims is available, at each of the places of its claims, where the active controllers can
/// run together.
pub fn what_an_active_controller_claims_is_there()
    ensures { (s : State) → IsValid s.description → CanRunTogether s.description s.lives (active s)
        → (values : List InterfaceValue) → map (λ v. v.interface) values ≡ interfaces_of s.description
        → (p : ℕ) → active s p ≡ true → AllByRecursion (λ place. is_there_at s values place ≡ true)
        (filter_map (command_place s.description) (controller_at s.description.controllers p).claims) }
{}

/// Where the active controllers of a state can run together, what is not available has no owner; so hardware of which a
/// component has moved is that of the state.
pub fn moved_hardware_is_that_of_the_state()
    ensures free { (s : State) → IsValid s.description → CanRunTogether s.description s.lives (active s)
        → map (λ v. v.interface) s.values ≡ interfaces_of s.description
        → AllByRecursion (λ v. available s v.interface ≡ false → owner s v.interface ≡ None) s.values }
    ensures hardware { (s : State) (w : Wired) → IsValid s.description → CanRunTogether s.description s.lives (active s)
        → IsMoved s w → IsHardwareOf s w }
{}

/// Of the controllers the hardware of a state hangs on nothing but who owns which interface and which interfaces are
/// available.
pub fn hardware_goes_by_owners_and_what_is_available()
    ensures { (s t : State) (w : Wired) → IsHardwareOf s w
        → t.description ≡ s.description → t.lives ≡ s.lives → t.bodies ≡ s.bodies → t.values ≡ s.values
        → ((i : Interface) → owner t i ≡ owner s i) → ((i : Interface) → available t i ≡ available s i)
        → IsHardwareOf t w }
{}

/// So it hangs on which controllers run, by place and serial, and not on what else is loaded, asked or aloft.
pub fn hardware_goes_by_the_controllers_that_run()
    ensures { (s t : State) (w : Wired) → IsHardwareOf s w
        → t.description ≡ s.description → t.lives ≡ s.lives → t.bodies ≡ s.bodies → t.values ≡ s.values
        → runners t ≡ runners s → IsHardwareOf t w }
{}

/// Of a component it is told that its read failed exactly where it fails in the cycle that is aloft.
pub fn each_failed_read_is_told()
    ensures { (s : State) (component : ℕ)
        → list_any (λ part. part.place == component) (reads_failed_in s) ≡ component_is read_fails s component }
{}
