//! A law of accepted documents: it is the contract of a function that does nothing.

ghost use Rattle.std.specs.Prelude.{◌≡◌, ℕ, List, Ok, IfSome};
ghost use Rattle.cm_document.specs.Grammars.{whole_grammar};
ghost use Rattle.cm_document.specs.Document.{document};
ghost use Rattle.cm_model.specs.Sessions.{IsWhole};
ghost use Rattle.cm_document.specs.declared.document.Document.{Document};
ghost use Rattle.cm_model.specs.declared.blanks.Blanks.{Blanks};
ghost use Rattle.cm_words.specs.declared.job.JobKind.{JobKind};
ghost use Rattle.desk_jobs.specs.Book.{made_by};

/// The history that a job makes of an accepted document is whole for it, whichever job leaves nothing of it to threads:
/// it has every session's lines, each once and in order, behind each request the Told of its ticket, the begin and the
/// end of each cycle, the close, and nothing else.
pub fn histories_of_accepted_documents_are_whole()
    ensures { (kind : JobKind) (bytes : List ℕ) (d : Document) (blanks : Blanks)
        → document whole_grammar bytes ≡ Ok d
        → IfSome (made_by kind blanks) (λ history_of. IsWhole d (history_of d)) }
{}
