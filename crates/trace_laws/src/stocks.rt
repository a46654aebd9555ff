//! Stocks: blanks that no run can load make no difference.

ghost use Rattle.std.specs.Prelude.{◌≡◌, ℕ, List, length};
ghost use Rattle.cm_document.specs.Lines.{raw_lines};
ghost use Rattle.cm_document.specs.ScriptLaws.{MeetsRules};
ghost use Rattle.cm_document.specs.declared.document.Document.{Document};
ghost use Rattle.cm_model.specs.declared.blanks.Blanks.{Blanks};
ghost use Rattle.trace_laws.specs.Judged.{judged};
ghost use Rattle.trace_laws.specs.Stocks.{at_most};

/// A text is judged the same over a stock that has no more blanks of a kind than the text has lines.
pub fn as_many_blanks_as_lines_are_enough()
    ensures { (document : Document) (blanks : Blanks) (text : List ℕ) → MeetsRules document.script
        → judged document (at_most (length (raw_lines text)) blanks) text ≡ judged document blanks text }
{}
