//! What takes bytes.

ghost use Rattle.std.specs.Prelude.{◌≡◌, ℕ, List, Option, IfOk, MatchResult};
ghost use Rattle.std.specs.Io.KnownBytes.{Keeps, WriteAppends};
ghost use Rattle.outside_io.specs.Bytes.{AllFlushed, IsSomeOf};
ghost use Rattle.outside_io.specs.Faults.{HasCause};

use crate::Failed;

/// Takes bytes, in pieces of its own choice.
pub trait Sink {
    /// The bytes taken so far, where they are known.
    ghost taken: { Self → Option (List ℕ) };

    /// How many of them had been taken at the last flush that succeeded, where that is known.
    ghost flushed: { Self → Option ℕ };

    /// How often it failed. It never falls, and stands still at its type's end, 2^64 - 1.
    ghost faults: { Self → ℕ };

    /// Takes a front of `piece`, at least one byte of a piece that has one, and answers how many.
    /// `Failed` takes no byte. It counts one fault, and a write that went well counts none.
    fn write(&mut self, piece: &[u8]) -> Result<usize, Failed>
        ensures some { IfOk result (IsSomeOf piece.now) }
        ensures bytes { WriteAppends (taken self.old) (taken self.new) result piece.now }
        ensures flushed { flushed self.new ≡ flushed self.old }
        ensures cause { HasCause (faults self.old) (faults self.new) result };

    /// Passes on what was taken. `Failed` counts one fault, and a flush that went well counts none.
    fn flush(&mut self) -> Result<(), Failed>
        // A flush takes no byte, whether it fails or not.
        ensures bytes { Keeps (taken self.old) (taken self.new) }
        ensures flushed { MatchResult result (λ _. AllFlushed (taken self.new) (flushed self.new))
            (λ _. flushed self.new ≡ flushed self.old) }
        ensures cause { HasCause (faults self.old) (faults self.new) result };
}
