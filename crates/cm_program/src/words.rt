//! The words that the program was started with.

ghost use Rattle.std.specs.Prelude.{◌≡◌, ◌⊎◌, ℕ, List, IfErr};
ghost use Rattle.cm_model.specs.Blanks.{blanks_of_each};
ghost use Rattle.cm_program.specs.Ran.{RanNothing, RanWords};
ghost use Rattle.cm_program.specs.declared.stock.TheConstants.{BLANKS};
ghost use Rattle.cm_top.specs.Calls.Run.{source_facts, sink_facts, MindsFaults};
ghost use Rattle.cm_top.specs.Status.{ComesBeforeWriting};

use crate::stock::run_stocked;
use cm_top::Status;
use fixed_num::Memory;
use outside_io::{Sink, Source};
use std::rt::Env;
use std::sync::Wait;
use std::thread::Threads;
use std::{env, io};

/// Runs the words between a source and a sink. Words that are not UTF-8 are not accepted.
pub fn run_words<E, R, S, K>(words_of: &E, rt: &R, source: &mut S, sink: &mut K) -> Status
where
    E: Env + AllocGlobal,
    R: Threads + Wait + Sync + AllocGlobal,
    S: Source,
    K: Sink,
    // Some words ran as is promised of them, or else nothing did. Which words the system tells, no clause says.
    ensures ran { ((words : List (List ℕ)) × RanWords
        (source_facts S.left S.faults) (sink_facts K.taken K.flushed K.faults)
        words (blanks_of_each BLANKS) source.old source.new sink.old sink.new result)
        ⊎ RanNothing source.old source.new sink.old sink.new result }
    // If the words are not accepted, nothing was read.
    ensures refused { result ≡ Status.BadWords → source.new ≡ source.old }
    // Every status but `Ok`, `Memory` and `WriteFault` leaves the sink as it was.
    ensures untouched { ComesBeforeWriting result → sink.new ≡ sink.old }
    // Faults of reading and writing are told, and nothing else as one.
    ensures outside { MindsFaults
        (source_facts S.left S.faults source.old) (source_facts S.left S.faults source.new)
        (sink_facts K.taken K.flushed K.faults sink.old) (sink_facts K.taken K.flushed K.faults sink.new) result }
{
    let words = match given_words(words_of) {
        Ok(words) => words,
        Err(status) => return status,
    };
    match run_stocked(rt, words.as_slice(), source, sink) {
        Ok(status) => status,
        Err(Memory) => Status::Memory,
    }
}

/// The words that a program was started with, after its name. If the system has none, or they are not UTF-8, they are
/// not accepted.
pub fn given_words<E: Env + AllocGlobal>(rt: &E) -> Result<Vec<String>, Status>
    ensures { IfErr result (λ status. (status ≡ Status.BadWords) ⊎ (status ≡ Status.Memory)) }
{
    let args = match env::args(rt) {
        Ok(args) => args,
        Err(fault) if fault.kind() == io::ErrorKind::OutOfMemory => return Err(Status::Memory),
        Err(_) => return Err(Status::BadWords),
    };
    match args.skip(1).collect(rt.alloc()) {
        Ok(words) => Ok(words),
        Err(_) => Err(Status::Memory),
    }
}
