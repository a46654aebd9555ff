//! The law of broadcasters in the field's words: the contract of a function that does nothing.

ghost use Rattle.std.specs.Prelude.{◌≡◌, ℕ, ℤ, List, []};
ghost use Rattle.cm_document.specs.declared.description.Params.TheVariants.{Broadcaster};
ghost use Rattle.cm_model.specs.Controllers.{updated};
ghost use Rattle.cm_model.specs.declared.data.RunData.TheVariants as run;
ghost use Rattle.cm_model.specs.declared.tick.Tick.{Tick};
ghost use Rattle.fixed_num.specs.declared.value.Value.{Value};

/// An update publishes the states that it is given, in this very cycle, keeps them, and commands nothing.
pub fn what_is_read_is_published()
    ensures published { (ins : ℕ) (last : List ℤ) (tick : Tick) (states : List ℤ) (refs : List Value)
        → (updated (Broadcaster ins) (run.Broadcaster last) tick states refs).published ≡ states }
    ensures kept { (ins : ℕ) (last : List ℤ) (tick : Tick) (states : List ℤ) (refs : List Value)
        → (updated (Broadcaster ins) (run.Broadcaster last) tick states refs).run ≡ run.Broadcaster states }
    ensures nothing_commanded { (ins : ℕ) (last : List ℤ) (tick : Tick) (states : List ℤ) (refs : List Value)
        → (updated (Broadcaster ins) (run.Broadcaster last) tick states refs).outs ≡ [] }
{}
