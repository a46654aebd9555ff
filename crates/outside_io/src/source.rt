//! What gives bytes.

ghost use Rattle.std.specs.Prelude.{ℕ, List, Option, ◌≤◌, length, IfOk};
ghost use Rattle.std.specs.Io.KnownBytes.{ReadConsumes};
ghost use Rattle.outside_io.specs.Faults.{HasCause};

use crate::Failed;

/// Gives bytes, in pieces of its own choice.
pub trait Source {
    /// The bytes still to come, where they are known.
    ghost left: { Self → Option (List ℕ) };

    /// How often it failed. It never falls, and stands still at its type's end, 2^64 - 1.
    ghost faults: { Self → ℕ };

    /// Reads the next bytes into the front of `buf` and answers how many. At `Ok(0)` with room in `buf` the source has
    /// ended. `Failed` takes no byte. It counts one fault, and a read that went well counts none.
    fn read(&mut self, buf: &mut [u8]) -> Result<usize, Failed>
        ensures within { IfOk result (λ n. n ≤ length buf.new) }
        ensures bytes { ReadConsumes (left self.old) (left self.new) result buf.new }
        ensures cause { HasCause (faults self.old) (faults self.new) result };
}
