//! What words ask for, and why they are refused.

use fixed_num::Memory;
use thiserror::Error;

/// The most rounds that a made document may have.
pub const MOST_ROUNDS: u32 = 1_000;

/// The most digits of a number of rounds; zeros may lead it.
pub const MOST_DIGITS_OF_ROUNDS: usize = 4;

/// The most workers that can be asked for.
pub const MOST_WORKERS: u32 = 8;

/// What is done with a document.
#[derive(Clone, Copy, Debug, PartialEq, Eq)]
pub enum JobKind {
    /// Before each cycle all sessions settle, in order.
    Run,
    /// The turns of the script's schedule come first, and then the rest as in `Run`.
    Steps,
    /// The sessions and the loop run beside one another, each in a thread of its own.
    Live,
    /// Nothing runs: the description is written as one of the second version.
    Upgrade,
    /// A stored trace is judged, which stands behind the script.
    Check,
    /// Nothing runs: a script is written that starts the controllers which the script wants.
    Plan,
}

/// What words ask for.
#[derive(Clone, Copy, Debug, PartialEq, Eq)]
pub struct Job {
    /// What is done.
    pub kind: JobKind,
    /// Of how many rounds the document is made that is run, from 1 to `MOST_ROUNDS`. Without it the document is read.
    /// An upgrade, a check and a plan have none.
    pub make: Option<u32>,
    /// How many workers share the controllers of each depth of a cycle, from 1 to `MOST_WORKERS`. A job that runs
    /// nothing has one.
    pub workers: u32,
}

/// Why words ask for nothing.
#[derive(Clone, Copy, Debug, PartialEq, Eq, Error)]
pub enum WordsFault {
    /// They are not accepted.
    #[error("usage: cm run|steps|live|upgrade|check|plan [--make N] [--workers N]")]
    Usage,
    /// Memory ran out.
    #[error("out of memory")]
    Memory,
}

impl From<Memory> for WordsFault {
    ghost use Rattle.std.specs.Prelude.{◌≡◌};
    ghost use Rattle.cm_words.specs.declared.job.WordsFault.TheVariants.{Memory as memory_ran_out};

    ghost from_gives = { λ _ e. e ≡ memory_ran_out };

    fn from(_fault: Memory) -> WordsFault {
        WordsFault::Memory
    }
}
