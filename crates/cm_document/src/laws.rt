//! Laws of the definitions of descriptions and documents: each is the contract of a function that does nothing.

ghost use Rattle.std.specs.Prelude.{◌≡◌, ◌↔◌, ℕ, true, List, take, Ok, Some, is_ok, All, Contains};
ghost use Rattle.toml.specs.Data.{Members};
ghost use Rattle.cm_document.specs.declared.description.CtlDesc.{CtlDesc};
ghost use Rattle.cm_document.specs.declared.document.Document.{Document};
ghost use Rattle.cm_document.specs.declared.script.Grammar.{Grammar};
ghost use Rattle.cm_document.specs.Forms.{fault_in};
ghost use Rattle.cm_document.specs.Described.{description_in, all_faults, fits_description};
ghost use Rattle.cm_document.specs.Document.{document};
ghost use Rattle.cm_document.specs.Links.{precedes_far, IsChain};
ghost use Rattle.cm_document.specs.Places.{EachStandsOnce};
ghost use Rattle.cm_document.specs.Valid.{IsValid};

use crate::checked::Checked;

/// What is told of a tree that is no description is the first of all that is wrong with it, in the order in which the
/// keys are visited; and a tree is accepted exactly where nothing is wrong with it.
pub fn the_first_of_all_faults_is_answered()
    ensures { (ms : Members) → fault_in (description_in (Some ms)) ≡ take 1 (all_faults ms) }
{}

/// A tree is accepted exactly where it has the form of a description: no unlisted key, each required key, and at every
/// key a value of the form that is asked there.
pub fn an_accepted_tree_has_its_form()
    ensures { (ms : Members) → is_ok (description_in (Some ms)) ≡ fits_description ms }
{}

/// Among some controllers one precedes another at a distance exactly where a chain leads from it to the other over
/// controllers of them, each of which precedes the next: the bound in the definition, their number, leaves out no
/// chain.
pub fn precedes_at_a_distance()
    ensures { (cs : List CtlDesc) (c d : CtlDesc) → Contains cs c
        → (precedes_far cs c d ≡ true) ↔ ((es : List CtlDesc) × All (Contains cs) es × IsChain c es d) }
{}

/// Whichever lines a script may have, the description of an accepted document is one that a tree stands for, and no
/// check finds a fault in it. So each of its interfaces stands at one place.
pub fn accepted_documents_are_valid()
    ensures valid { (grammar : Grammar) (bytes : List ℕ) (d : Document) → document grammar bytes ≡ Ok d
        → IsValid d.description }
    ensures places { (grammar : Grammar) (bytes : List ℕ) (d : Document) → document grammar bytes ≡ Ok d
        → EachStandsOnce d.description }
{}

/// Each interface of a checked description stands at one place. So a place on the one hand, and a name with whether it
/// is a state's or a command's on the other, determine each other.
pub fn interfaces_stand_once(checked: &Checked)
    ensures { EachStandsOnce checked.now }
{
    // A checked description tells that it is valid where it is read.
    let _ = checked.description();
}
