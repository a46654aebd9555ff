//! What the text of a plan is.

ghost use Rattle.std.specs.Prelude.{◌≡◌, ℕ, List, Ok};
ghost use Rattle.std.specs.List.{AllByRecursion};
ghost use Rattle.cm_document.specs.CallText.{script_text};
ghost use Rattle.cm_document.specs.Given.{IsName};
ghost use Rattle.cm_document.specs.Grammars.{whole_grammar};
ghost use Rattle.cm_document.specs.ScriptLaws.{MeetsRules};
ghost use Rattle.cm_document.specs.ScriptRules.{script_with};
ghost use Rattle.cm_document.specs.Valid.{IsValid};
ghost use Rattle.cm_document.specs.declared.description.Description.{Description};
ghost use Rattle.cm_document.specs.declared.script.Script.{Script};
ghost use Rattle.cm_model.specs.declared.blanks.Blanks.{Blanks};
ghost use Rattle.spawn_plan.specs.Plan.{spawned};

/// The script of a plan meets the rules of scripts, and its text is read as that script, at whatever line it begins.
pub fn a_planned_script_reads_back()
    ensures rules { (d : Description) (blanks : Blanks) (wanted : List (List ℕ)) (script : Script)
        → IsValid d → AllByRecursion IsName wanted → spawned d blanks wanted ≡ Ok script
        → MeetsRules script }
    ensures text { (d : Description) (blanks : Blanks) (wanted : List (List ℕ)) (script : Script)
        → IsValid d → AllByRecursion IsName wanted → spawned d blanks wanted ≡ Ok script
        → (line : ℕ) → script_with whole_grammar line (script_text script) ≡ Ok script }
{}
