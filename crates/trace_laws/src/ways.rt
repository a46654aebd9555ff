//! Histories on their way: what comes next for a caller is fixed.

ghost use Rattle.std.specs.Prelude.{◌≡◌, List, ◌∷◌, ◌++◌, Some};
ghost use Rattle.cm_document.specs.declared.document.Document.{Document};
ghost use Rattle.cm_model.specs.Sessions.{IsWhole};
ghost use Rattle.cm_model.specs.declared.entry.Entry.{Entry};
ghost use Rattle.trace_laws.specs.Next.{next_of};
ghost use Rattle.trace_laws.specs.OnTheWay.{IsOnItsWay};

/// Each beginning of a history that is on its way is on its way.
pub fn beginnings_are_on_their_way()
    ensures { (document : Document) (history later : List Entry)
        → IsOnItsWay document (history ++ later) → IsOnItsWay document history }
{}

/// A whole history is on its way.
pub fn whole_histories_are_on_their_way()
    ensures { (document : Document) (history : List Entry) → IsWhole document history → IsOnItsWay document history }
{}

/// The call that a caller makes next is fixed: in a history that is on its way each entry has the call that its caller
/// had next.
pub fn what_comes_next_for_a_caller_is_fixed()
    ensures { (document : Document) (history later : List Entry) (e : Entry)
        → IsOnItsWay document (history ++ e ∷ later) → next_of document history e.who ≡ Some e.call }
{}
