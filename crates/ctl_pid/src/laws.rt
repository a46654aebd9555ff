//! Laws of pids in the field's words: each is the contract of a function that does nothing.

ghost use Rattle.std.specs.Prelude.{ℤ, Bool, List};
ghost use Rattle.fixed_num.specs.declared.value.Value.{Value};
ghost use Rattle.cm_model.specs.Pids.{Tuning};
ghost use Rattle.cm_model.specs.Controllers.{started, updated};
ghost use Rattle.cm_model.specs.declared.data.RunData.{RunData};
ghost use Rattle.cm_model.specs.declared.tick.Tick.{Tick};
ghost use Rattle.ctl_pid.specs.Limits.{HasLimits, GivesWithin, IntegralIsWithin};
ghost use Rattle.ctl_pid.specs.Loops.{params_of};

/// Whatever a pid is updated with, its output is unset or from `-omax` to `omax`.
pub fn no_output_passes_omax()
    ensures { (tuning : Tuning) (run : RunData) (tick : Tick) (states : List ℤ) (refs : List Value) → HasLimits tuning
        → GivesWithin tuning.omax (updated (params_of tuning) run tick states refs).outs }
{}

/// The integral of a pid is from `-imax` to `imax` at its activation, and stays there in every update.
pub fn no_integral_passes_imax()
    ensures begins { (tuning : Tuning) (states : List ℤ) (chained : Bool) → HasLimits tuning
        → IntegralIsWithin tuning.imax (started (params_of tuning) states chained) }
    ensures stays { (tuning : Tuning) (run : RunData) (tick : Tick) (states : List ℤ) (refs : List Value)
        → HasLimits tuning
        → IntegralIsWithin tuning.imax run
        → IntegralIsWithin tuning.imax (updated (params_of tuning) run tick states refs).run }
{}
