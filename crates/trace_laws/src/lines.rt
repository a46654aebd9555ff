//! Entries and their lines.

ghost use Rattle.std.specs.Prelude.{◌≡◌, List, ◌∷◌, ◌++◌, length, map};
ghost use Rattle.cm_document.specs.Lines.{raw_lines};
ghost use Rattle.cm_document.specs.ScriptLaws.{MeetsRules};
ghost use Rattle.cm_document.specs.Valid.{IsValid};
ghost use Rattle.cm_document.specs.declared.document.Document.{Document};
ghost use Rattle.cm_model.specs.Machine.{IsLegal};
ghost use Rattle.cm_model.specs.Trace.{line_text, names_in, output};
ghost use Rattle.cm_model.specs.declared.blanks.Blanks.{Blanks};
ghost use Rattle.cm_model.specs.declared.entry.Entry.{Entry};
ghost use Rattle.trace_laws.specs.Next.{entry_line};
ghost use Rattle.trace_laws.specs.OnTheWay.{IsOnItsWay};

/// An entry of a legal history prints the same however the history goes on: a reply names controllers that were loaded
/// before it, and those have their names for good.
pub fn an_entry_prints_the_same_however_the_history_goes_on()
    ensures { (document : Document) (blanks : Blanks) (history later : List Entry) (e : Entry)
        → IsLegal document.description blanks (length document.script.sessions) (history ++ e ∷ later)
        → line_text document.script.sessions (names_in document.description (history ++ e ∷ later)) e
        ≡ entry_line document history e }
{}

/// Each entry prints one line: the lines of the trace of a legal history that is on its way are those of its entries,
/// one after another.
pub fn each_entry_prints_one_line()
    ensures { (document : Document) (blanks : Blanks) (history : List Entry)
        → IsValid document.description → MeetsRules document.script
        → IsLegal document.description blanks (length document.script.sessions) history → IsOnItsWay document history
        → raw_lines (output document history)
        ≡ map (line_text document.script.sessions (names_in document.description history)) history }
{}
