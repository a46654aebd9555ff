//! Laws of scripts as text: each is the contract of a function that does nothing.

ghost use Rattle.std.specs.Prelude.{◌≡◌, ℕ, List, Ok};
ghost use Rattle.cm_document.specs.CallText.{script_text};
ghost use Rattle.cm_document.specs.ScriptLaws.{MeetsRules, UsesGrammar};
ghost use Rattle.cm_document.specs.ScriptRules.{script_with};
ghost use Rattle.cm_document.specs.declared.script.Grammar.{Grammar};
ghost use Rattle.cm_document.specs.declared.script.Script.{Script};

/// Whatever text a script is read from, at whatever grammar: it has at most 8 sessions of different names and at most
/// 10,000 calls and turns, each call within its limits, and nothing whose form is not accepted.
pub fn read_scripts_meet_the_rules()
    ensures rules { (grammar : Grammar) (line : ℕ) (text : List ℕ) (s : Script)
        → script_with grammar line text ≡ Ok s
        → MeetsRules s }
    ensures grammar { (grammar : Grammar) (line : ℕ) (text : List ℕ) (s : Script)
        → script_with grammar line text ≡ Ok s
        → UsesGrammar grammar s }
{}

/// A script that was read prints as a text that is read as the same script, at the same grammar and at any line.
pub fn printing_keeps_what_was_read()
    ensures { (grammar : Grammar) (line other_line : ℕ) (text : List ℕ) (s : Script)
        → script_with grammar line text ≡ Ok s
        → script_with grammar other_line (script_text s) ≡ Ok s }
{}
