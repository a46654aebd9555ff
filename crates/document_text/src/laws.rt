//! A law of accepted documents: it is the contract of a function that does nothing.

ghost use Rattle.std.specs.Prelude.{◌≡◌, ℕ, List, Ok};
ghost use Rattle.cm_document.specs.Grammars.{whole_grammar};
ghost use Rattle.cm_document.specs.Document.{document};
ghost use Rattle.cm_document.specs.ScriptLaws.{MeetsRules, UsesGrammar};
ghost use Rattle.cm_document.specs.declared.document.Document.{Document};

/// The script of an accepted document meets the rules of scripts, and the grammar has each of its lines: so it has 8
/// sessions and 10,000 calls and turns at most, and numbers of sessions, lines and loads stay far below 2^32.
pub fn accepted_scripts_meet_the_rules()
    ensures rules { (bytes : List ℕ) (d : Document)
        → document whole_grammar bytes ≡ Ok d → MeetsRules d.script }
    ensures grammar { (bytes : List ℕ) (d : Document)
        → document whole_grammar bytes ≡ Ok d → UsesGrammar whole_grammar d.script }
{}
