//! Texts that are judged: a trace has one history, and to replay its lines tells exactly whether there is one.

ghost use Rattle.std.specs.Prelude.{◌≡◌, ℕ, List, Ok, Err};
ghost use Rattle.cm_document.specs.ScriptLaws.{MeetsRules};
ghost use Rattle.cm_document.specs.Valid.{IsValid};
ghost use Rattle.cm_document.specs.declared.document.Document.{Document};
ghost use Rattle.cm_model.specs.declared.blanks.Blanks.{Blanks};
ghost use Rattle.cm_model.specs.declared.entry.Entry.{Entry};
ghost use Rattle.trace_laws.specs.Judged.{judged};
ghost use Rattle.trace_laws.specs.Told.{IsTold, IsWrong, Prints, WrongLine};

/// A trace of a legal history that is on its way has one such history.
pub fn a_trace_has_one_history()
    ensures { (document : Document) (blanks : Blanks) (text : List ℕ) (one other : List Entry)
        → IsValid document.description → MeetsRules document.script
        → Prints document blanks text one → Prints document blanks text other → one ≡ other }
{}

/// To replay the lines of a text tells exactly whether it is the trace of a run, and else the line at which it goes
/// wrong.
pub fn replaying_a_text_judges_it()
    ensures told { (document : Document) (blanks : Blanks) (text : List ℕ)
        → IsValid document.description → MeetsRules document.script
        → judged document blanks text ≡ Ok tt → IsTold document blanks text }
    ensures wrong { (document : Document) (blanks : Blanks) (text : List ℕ) (wrong : WrongLine)
        → IsValid document.description → MeetsRules document.script
        → judged document blanks text ≡ Err wrong → IsWrong document blanks text wrong }
{}
