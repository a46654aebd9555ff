//! What speaks against a stored trace.

use fixed_num::Memory;
use sequence::Seq;
use thiserror::Error;

/// The first line of a text that is wrong.
#[derive(Debug, PartialEq, Eq, Drop)]
pub struct WrongLine {
    /// Its number, from 1 on; one more than there are lines if something was still to come behind them.
    pub line: u32,
    /// The line that was to come there, without its line feed; empty if none was.
    pub expected: Seq<u8>,
}

/// Why a text was not found to be the trace of a run.
#[derive(Debug, PartialEq, Eq, Drop, Error)]
pub enum TraceFault {
    /// No run of the document has this trace.
    #[error("line {line}")]
    NotLegal {
        /// The first wrong line, from 1 on; one more than there are lines if something was still to come behind them.
        line: u32,
        /// The line that was to come there, without its line feed; empty if none was.
        expected: Seq<u8>,
    },
    /// Memory ran out.
    #[error("out of memory")]
    Memory,
}

impl From<Memory> for TraceFault {
    ghost use Rattle.std.specs.Prelude.{◌≡◌};
    ghost use Rattle.trace_check.specs.declared.fault.TraceFault.TheVariants.{Memory as memory_ran_out};

    ghost from_gives = { λ _ e. e ≡ memory_ran_out };

    fn from(_fault: Memory) -> TraceFault {
        TraceFault::Memory
    }
}
