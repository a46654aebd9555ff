//! How a run ended.

use cm_document::{DescProblem, DocumentFault, ScriptFault};
use sequence::Seq;
use spawn_plan::SpawnFault;
use thiserror::Error;

/// How a run ended. Statuses 3 and 4 never carry a want of memory.
#[derive(Debug, PartialEq, Eq, Drop, Error)]
pub enum Status {
    /// The job ran, and all of its trace was written and flushed.
    #[error("ok")]
    Ok,
    /// The words are not accepted.
    #[error("usage: cm run|steps|live|upgrade|check|plan [--make N] [--workers N]")]
    BadWords,
    /// The description is not accepted; its first fault.
    #[error("description: {0}")]
    BadDescription(DescProblem),
    /// The description is accepted, and a line of the script is bad; the first one.
    #[error("script: {0}")]
    BadScript(ScriptFault),
    /// The source failed.
    #[error("read fault")]
    ReadFault,
    /// The source gave more than 1,048,576 bytes.
    #[error("document longer than 1048576 bytes")]
    TooLong,
    /// Memory ran out.
    #[error("out of memory")]
    Memory,
    /// The sink failed.
    #[error("write fault")]
    WriteFault,
    /// The trace that was to be checked is that of no run.
    #[error("trace: line {line}")]
    NotLegal {
        /// Its first wrong line, from 1 on; one more than it has lines if something was still to come behind them.
        line: u32,
        /// The line that was to come there, without its line feed; empty if none was.
        expected: Seq<u8>,
    },
    /// There is no script that starts the wanted controllers. It never carries a want of memory.
    #[error("plan: {0}")]
    CannotSpawn(SpawnFault),
}

impl Status {
    ghost use Rattle.std.specs.Prelude.{◌≡◌};
    ghost use Rattle.cm_top.specs.Status.{code_of};

    /// The number of the status, which the program ends with.
    pub fn code(&self) -> u8
        ensures { result ≡ code_of self.now }
    {
        match self {
            Status::Ok => 0,
            Status::BadWords => 2,
            Status::BadDescription(_) => 3,
            Status::BadScript(_) => 4,
            Status::ReadFault => 5,
            Status::TooLong => 6,
            Status::Memory => 7,
            Status::WriteFault => 8,
            Status::NotLegal { .. } => 9,
            Status::CannotSpawn(_) => 10,
        }
    }
}

impl From<DocumentFault> for Status {
    ghost use Rattle.std.specs.Prelude.{◌≡◌};
    ghost use Rattle.cm_top.specs.Status.{status_of_fault};

    ghost from_gives = { λ fault e. e ≡ status_of_fault fault };

    fn from(fault: DocumentFault) -> Status {
        match fault {
            DocumentFault::Description(problem) => Status::BadDescription(problem),
            DocumentFault::Script(fault) => Status::BadScript(fault),
            DocumentFault::Memory => Status::Memory,
        }
    }
}
