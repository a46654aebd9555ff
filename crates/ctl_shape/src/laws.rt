//! Laws of transmissions and limiters in the field's words: each is the contract of a function that does nothing.

ghost use Rattle.std.specs.Prelude.{◌≡◌, ℕ, ℤ, Bool, List, [], ◌∷◌, ◌-ℤ◌, ◌<ℤ◌, ◌≤ℤ◌, pos};
ghost use Rattle.fixed_num.specs.declared.value.Value.{Value};
ghost use Rattle.cm_model.specs.Transmissions.{Gear, Pair, IsMotion, IsPair};
ghost use Rattle.ctl_shape.specs.RoundTrips.{NothingClamps, NothingClampsInBoth, IsFromTo};
ghost use Rattle.ctl_shape.specs.RoundTrips.{LosesLittle, grain, lost, both_lost};
ghost use Rattle.cm_model.specs.Controllers.{first_state, started, updated};
ghost use Rattle.cm_model.specs.Limiters.{Bounds, Reach, reach_of, brought, new_step};
ghost use Rattle.cm_model.specs.declared.data.RunData.TheVariants as run;
ghost use Rattle.cm_model.specs.declared.tick.Tick.{Tick};
ghost use Rattle.ctl_shape.specs.Controllers.{AreBounds, bounds_params};
ghost use Rattle.ctl_shape.specs.Limiters.{IsFeasible, IsNewStep, IsSafe, IsRun, IsRunFrom, AllKeepLimits};
ghost use Rattle.ctl_shape.specs.Updates.{RunsSafely, UpdateKeepsLimits, Input, RunKeepsLimits, all_given};

/// A round trip through a simple transmission takes nothing from a position or a velocity, or at most as many
/// micro-units of the joint as one of the actuator is, rounded up. This holds for every reduction above 0, if no
/// formula is brought into the range.
pub fn a_round_trip_takes_at_most_a_grain()
    ensures { (gear : Gear) (r : ℤ) → IsMotion gear.kind → pos 0 <ℤ gear.reduction → NothingClamps gear r
        → IsFromTo (pos 0) (grain gear.reduction) (lost gear r) }
{}

/// A round trip through a differential brings both joints back nearly as they were, if no formula is brought into the
/// range.
pub fn a_round_trip_of_two_takes_little()
    ensures { (pair : Pair) (j : ℤ × ℤ) → IsPair pair → NothingClampsInBoth pair j
        → LosesLittle (grain pair.reductions.0, grain pair.reductions.1) (both_lost pair j) }
{}

/// From a safe place there is always a feasible step, and each feasible step leads to a safe place. Between the ends,
/// without a step, every place is safe.
pub fn there_is_always_a_step()
    ensures begins { (reach : Reach) (start : ℤ) → reach.lowest ≤ℤ reach.highest
        → IsSafe reach (brought reach start) (pos 0) }
    ensures some { (reach : Reach) (at last : ℤ) → IsSafe reach at last
        → (step : ℤ) × IsFeasible reach at last step }
    ensures stays { (reach : Reach) (at last out : ℤ) → IsSafe reach at last
        → IsFeasible reach at last (out -ℤ at)
        → IsSafe reach out (out -ℤ at) }
{}

/// The feasible steps are all from one number to another: a step between two of them is one too. So there is only one
/// new step, and the search of the table of controllers finds it.
pub fn there_is_one_new_step()
    ensures between { (reach : Reach) (at last s m t : ℤ) → IsFeasible reach at last s → IsFeasible reach at last t
        → s ≤ℤ m → m ≤ℤ t → IsFeasible reach at last m }
    ensures one { (reach : Reach) (at last wanted s t : ℤ) → IsNewStep reach at last wanted s
        → IsNewStep reach at last wanted t → s ≡ t }
    ensures found { (reach : Reach) (at last wanted : ℤ)
        → IsNewStep reach at last wanted (new_step reach at last wanted) }
{}

/// Whatever is wanted, each output of a run keeps the limits: it lies between the ends, its position differs from the
/// one before by no more than the speed allows, and its step from the one before by no more than the acceleration
/// allows. So it is from the start, and from every safe place.
pub fn every_output_keeps_the_limits()
    ensures from_start { (reach : Reach) (start : ℤ) (wanted : List Value) (outs : List ℤ)
        → reach.lowest ≤ℤ reach.highest → IsRunFrom reach start wanted outs
        → AllKeepLimits reach (brought reach start) (pos 0) outs }
    ensures from_anywhere { (reach : Reach) (at last : ℤ) (wanted : List Value) (outs : List ℤ) → IsSafe reach at last
        → IsRun reach at last wanted outs → AllKeepLimits reach at last outs }
{}

/// Whatever a limiter is activated with, it stands between its ends then, without a step, and is safe. Whatever it is
/// updated with, its output keeps the limits, and it goes on safely from there. So every run of updates with one time
/// between them keeps the limits, whatever it is sent in between.
pub fn every_update_keeps_the_limits()
    ensures begins { (bounds : Bounds) (dt_us : ℕ) (states : List ℤ) (chained : Bool) → AreBounds bounds
        → RunsSafely (reach_of bounds dt_us) (started (bounds_params bounds) states chained) }
    ensures stays { (bounds : Bounds) (chained : Bool) (set : Value) (at step : ℤ) (tick : Tick) (states : List ℤ)
        (reference : Value) → IsSafe (reach_of bounds tick.dt_us) at step
        → UpdateKeepsLimits (reach_of bounds tick.dt_us) at step
        (updated (bounds_params bounds) (run.Limiter chained set at step) tick states (reference ∷ [])) }
    ensures runs { (bounds : Bounds) (dt_us : ℕ) (states : List ℤ) (chained : Bool) (inputs : List Input)
        → AreBounds bounds
        → RunKeepsLimits (reach_of bounds dt_us) (brought (reach_of bounds dt_us) (first_state states)) (pos 0)
        (all_given bounds dt_us (started (bounds_params bounds) states chained) inputs) }
{}
