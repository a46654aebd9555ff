//! Laws of switches: each is the contract of a function that does nothing.

ghost use Rattle.std.specs.Prelude.{◌≡◌, ◌⊎◌, ◌↔◌, ◌&&◌, ℕ, true, false, List, [], ◌∷◌, ◌++◌, None, Contains};
ghost use Rattle.cm_document.specs.Links.{first_in_loop};
ghost use Rattle.cm_document.specs.Picks.{flat, picked_names};
ghost use Rattle.cm_document.specs.declared.call.Pick.{Pick};
ghost use Rattle.cm_document.specs.declared.call.SwitchRequest.{SwitchRequest};
ghost use Rattle.cm_model.specs.Order.{Places};
ghost use Rattle.cm_model.specs.Scene.{Scene, controllers_in, active, named};
ghost use Rattle.cm_model.specs.Switches.{done, refused, strict};
ghost use Rattle.cm_model.specs.BestEffort.{by_height, reduced, best, plan_of};
ghost use Rattle.cm_model.specs.declared.cause.Cause.{Cause};
ghost use Rattle.cm_model.specs.declared.cause.Dropped.{Dropped};
ghost use Rattle.cm_model.specs.declared.cause.Outcome.TheVariants as outcome;
ghost use Rattle.cm_model.specs.declared.member.Member.{Member};
ghost use Rattle.switch_plan.specs.Laws.{CanBeDone, CountsAgainst, IsTrueOf, strict_set};
ghost use Rattle.switch_plan.specs.Laws.{CanLeave, asked_off, tried_on, joined_of, CannotJoin};

/// A strict switch is done exactly where nothing counts against it, and so is its plan.
pub fn a_strict_switch_is_done_where_nothing_counts()
    ensures plan { (scene : Scene) (r : SwitchRequest) → r.strict ≡ true
        → ((plan_of scene r).outcome ≡ outcome.Done [])
        ↔ CanBeDone scene (flat scene.description r.off) (flat scene.description r.on) }
    ensures decision { (scene : Scene) (off on : List Pick) → (strict scene off on
        ≡ done [] (strict_set scene (picked_names off) (picked_names on))
        (λ p. named scene (picked_names off) p && named scene (picked_names on) p)) ↔ CanBeDone scene off on }
{}

/// A strict switch that is refused names what counts against it, and the cause is true of the name.
pub fn a_refusal_names_a_true_cause()
    ensures counts { (scene : Scene) (off on : List Pick) (d : Dropped) → strict scene off on ≡ refused d
        → CountsAgainst scene off on d }
    ensures is_true { (scene : Scene) (off on : List Pick) (d : Dropped)
        → strict scene (flat scene.description off) (flat scene.description on) ≡ refused d
        → IsTrueOf scene (flat scene.description off) (flat scene.description on) d.name d.cause }
    ensures plan { (scene : Scene) (r : SwitchRequest) (name : List ℕ) (c : Cause) → r.strict ≡ true
        → (plan_of scene r).outcome ≡ outcome.Refused name c
        → IsTrueOf scene (flat scene.description r.off) (flat scene.description r.on) name c }
{}

/// What leaves of active controllers that are asked to is the union of all subsets that may leave, those in which each
/// active controller is that precedes a member; and it is such a subset itself, so it is the greatest. What a best
/// effort asks to leave is active.
pub fn the_greatest_subset_leaves()
    ensures union { (scene : Scene) (asked : Places) → ((p : ℕ) → asked p ≡ true → active scene p ≡ true)
        → (p : ℕ) → (reduced scene asked p ≡ true)
        ↔ ((set : Places) × CanLeave scene asked set × (set p ≡ true)) }
    ensures itself { (scene : Scene) (asked : Places) → ((p : ℕ) → asked p ≡ true → active scene p ≡ true)
        → CanLeave scene asked (reduced scene asked) }
    ensures asked { (scene : Scene) (off : List Pick) (p : ℕ) → asked_off scene off p ≡ true
        → active scene p ≡ true }
{}

/// A best effort is maximal. An activation that it tried and that is not in the set to which it leads had a fault at
/// its turn, beside those that had joined by then. Where no described controller precedes itself at some distance, one
/// that had a fault at its turn has one beside the whole set too; so each that it tried is in the set, or could not
/// join it by itself.
pub fn a_best_effort_is_maximal()
    ensures at_its_turn { (scene : Scene) (off on : List Pick) (dropped : List Dropped) (set again : Places)
        → best scene off on ≡ done dropped set again → (before : List Member) (m : Member) (after : List Member)
        → by_height scene (tried_on scene off on) ≡ before ++ m ∷ after
        → set m.place ≡ false → CannotJoin scene off on (joined_of scene off on before) m }
    ensures afterwards { (scene : Scene) (off on : List Pick) (dropped : List Dropped) (set again : Places)
        → best scene off on ≡ done dropped set again → first_in_loop (controllers_in scene) ≡ None
        → (before : List Member) (m : Member) (after : List Member)
        → by_height scene (tried_on scene off on) ≡ before ++ m ∷ after
        → CannotJoin scene off on (joined_of scene off on before) m → CannotJoin scene off on set m }
    ensures maximal { (scene : Scene) (off on : List Pick) (dropped : List Dropped) (set again : Places)
        → best scene off on ≡ done dropped set again → first_in_loop (controllers_in scene) ≡ None
        → (m : Member) → Contains (tried_on scene off on) m
        → (set m.place ≡ true) ⊎ CannotJoin scene off on set m }
{}
