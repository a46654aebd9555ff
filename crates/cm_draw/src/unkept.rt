//! A sink that keeps nothing: the trace of a run that is drawn is not asked for.

use outside_io::{Failed, Sink};

/// Takes all bytes, and keeps none.
#[derive(Clone, Copy)]
pub(crate) struct Unkept;

impl Sink for Unkept {
    ghost use Rattle.std.specs.Prelude.{None};

    ghost taken = { λ _. None };

    ghost flushed = { λ _. None };

    ghost faults = { λ _. 0 };

    fn write(&mut self, piece: &[u8]) -> Result<usize, Failed> {
        Ok(piece.len())
    }

    fn flush(&mut self) -> Result<(), Failed> {
        Ok(())
    }
}
