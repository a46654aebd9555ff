//! What the script of a plan does.

ghost use Rattle.std.specs.Prelude.{◌≡◌, ◌<◌, ℕ, List, Ok, length};
ghost use Rattle.cm_document.specs.Valid.{IsValid};
ghost use Rattle.cm_document.specs.declared.description.Description.{Description};
ghost use Rattle.cm_document.specs.declared.script.Script.{Script};
ghost use Rattle.cm_model.specs.declared.blanks.Blanks.{Blanks};
ghost use Rattle.spawn_laws.specs.Starts.{StartsThem};
ghost use Rattle.spawn_plan.specs.Plan.{spawned};

/// The script of a plan for at least one wanted name starts exactly the wanted controllers, with the first cycle that
/// fits: in the scheduled history of the description with this script, over these blanks, the begin of that cycle
/// decides the switch, which is done, and then exactly the wanted ones are active. This rests on definitions alone, so
/// no body that runs the script stands in for it.
pub fn a_planned_script_starts_them()
    ensures { (d : Description) (blanks : Blanks) (wanted : List (List ℕ)) (script : Script)
        → IsValid d → 0 < length wanted → spawned d blanks wanted ≡ Ok script
        → StartsThem d blanks wanted script }
{}
