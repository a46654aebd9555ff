//! Laws of made documents: each is the contract of a function that does nothing.

ghost use Rattle.std.specs.Prelude.{◌≡◌, ℕ, ◌≤◌, length, Ok};
ghost use Rattle.cm_document.specs.declared.limits.TheConstants.{LONGEST_DOCUMENT};
ghost use Rattle.cm_document.specs.Document.{document};
ghost use Rattle.cm_document.specs.Grammars.{whole_grammar};
ghost use Rattle.make_document.specs.Made.{made};
ghost use Rattle.make_document.specs.Meant.{made_document};

/// A made document of up to 1,000 rounds is accepted where scripts may have every line, and is the robot and the script
/// that are meant: its description has no fault, and each line of its script says its call.
pub fn made_documents_are_accepted()
    ensures { (rounds : ℕ) → rounds ≤ 1000 → document whole_grammar (made rounds) ≡ Ok (made_document rounds) }
{}

/// It is no longer than a document may be.
pub fn made_documents_are_short()
    ensures { (rounds : ℕ) → rounds ≤ 1000 → length (made rounds) ≤ LONGEST_DOCUMENT }
{}
