//! The version of a description changes nothing that the manager does.

ghost use Rattle.std.specs.Prelude.{◌≡◌, ◌↔◌, ℕ, List};
ghost use Rattle.cm_document.specs.declared.description.Description.{Description};
ghost use Rattle.cm_document.specs.declared.document.Document.{Document};
ghost use Rattle.cm_model.specs.Machine.{IsLegal};
ghost use Rattle.cm_model.specs.Scheduled.{scheduled, scheduled_in_steps};
ghost use Rattle.cm_model.specs.declared.blanks.Blanks.{Blanks};
ghost use Rattle.cm_model.specs.declared.entry.Entry.{Entry};
ghost use Rattle.version_laws.specs.Versions.{of_version, document_of_version};

/// A history is legal for a description exactly where it is legal for the same one of another version.
pub fn each_version_has_the_same_legal_histories()
    ensures { (d : Description) (version : ℕ) (blanks : Blanks) (sessions : ℕ) (history : List Entry)
        → IsLegal d blanks sessions history ↔ IsLegal (of_version version d) blanks sessions history }
{}

/// The jobs `run` and `steps` schedule the same history for a document whatever the version of its description is.
pub fn each_version_is_scheduled_alike()
    ensures run { (document : Document) (version : ℕ) (blanks : Blanks)
        → scheduled (document_of_version version document) blanks ≡ scheduled document blanks }
    ensures steps { (document : Document) (version : ℕ) (blanks : Blanks)
        → scheduled_in_steps (document_of_version version document) blanks ≡ scheduled_in_steps document blanks }
{}
