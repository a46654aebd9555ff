//! What becomes of the program's words, over the least document.

use crate::ends::end;
use crate::given::GivenWords;
use cm_program::run_words;
use cm_top::Status;
use outside_io::{MemSink, MemSource};
use pages_cases::pages::{halves, hold_told};
use std::alloc::Global;
use std::str;
use std::sync::Wait;
use std::test::Fail;
use std::thread::Threads;

/// The least document, and its trace.
const LEAST: &str = "version = 1\nupdate_rate = 1\ncycles = 0\n--- script ---\n";

const LEAST_TRACE: &str = "loop close: none\n";

/// The summary of the made document of one round.
const ONE_ROUND: &str = "\
cycles 10
entries 45
updates 79
asks 3 done 3 refused 0 ended 0
joint j0 0.000000
joint j1 0.090000
joint j2 0.000000
joint j3 0.000000
joint j4 0.000000
joint j5 0.000000
joint j6 0.000000
joint j7 0.000000
";

/// `WORDS => END`, over the least document.
const WORDS: &str = r"run => 0
steps => 0
live => 0
run -- => 0
-- steps => 0
run --make 1 => 0
--make=01 run => 0
 => 2 cm: usage: cm run|steps|live|upgrade|check|plan [--make N] [--workers N]
walk => 2 cm: usage: cm run|steps|live|upgrade|check|plan [--make N] [--workers N]
run run => 2 cm: usage: cm run|steps|live|upgrade|check|plan [--make N] [--workers N]
run steps => 2 cm: usage: cm run|steps|live|upgrade|check|plan [--make N] [--workers N]
run --make 0 => 2 cm: usage: cm run|steps|live|upgrade|check|plan [--make N] [--workers N]
run --make 1001 => 2 cm: usage: cm run|steps|live|upgrade|check|plan [--make N] [--workers N]
run --make 1 --make 2 => 2 cm: usage: cm run|steps|live|upgrade|check|plan [--make N] [--workers N]
run --make => 2 cm: usage: cm run|steps|live|upgrade|check|plan [--make N] [--workers N]
run --workers 9 => 2 cm: usage: cm run|steps|live|upgrade|check|plan [--make N] [--workers N]
live live => 2 cm: usage: cm run|steps|live|upgrade|check|plan [--make N] [--workers N]
live --make 0 => 2 cm: usage: cm run|steps|live|upgrade|check|plan [--make N] [--workers N]
--help => 2 cm: usage: cm run|steps|live|upgrade|check|plan [--make N] [--workers N]
Run => 2 cm: usage: cm run|steps|live|upgrade|check|plan [--make N] [--workers N]
\xFF => 2 cm: usage: cm run|steps|live|upgrade|check|plan [--make N] [--workers N]
run \xFF => 2 cm: usage: cm run|steps|live|upgrade|check|plan [--make N] [--workers N]
run\xFF => 2 cm: usage: cm run|steps|live|upgrade|check|plan [--make N] [--workers N]";

#[test]
fn words_of_jobs_run_and_others_are_refused(rt: HostRuntime) -> Result<(), Fail> {
    for row in WORDS.lines() {
        hold_row(&rt, rt.alloc(), row)?;
    }
    Ok(())
}

/// Fails where a run by the words of a row ends otherwise than it says, or prints something else.
fn hold_row<R>(rt: &R, alloc: Global, row: &str) -> Result<(), Fail>
where
    R: Threads + Wait + Sync + AllocGlobal,
{
    let (given, _) = halves(row, " => ")?;
    let mut sink = MemSink::make(alloc, 1000, 100, vec![in alloc]?)?;
    let status = status_of(rt, alloc, given, &mut sink)?;
    let held = hold_end(alloc, row, &status, sink.bytes());
    drop(status);
    held
}

/// Fails where a run that ended so, and printed these bytes, is not what a row says.
fn hold_end(alloc: Global, row: &str, status: &Status, bytes: &[u8]) -> Result<(), Fail> {
    let (given, want) = halves(row, " => ")?;
    let end = end(alloc, status)?;
    hold_told(alloc, row, end.as_str(), want)?;
    hold_told(alloc, row, str::from_utf8(bytes)?, printed(given, status))
}

/// How a run by these words ends, over the least document.
fn status_of<R>(rt: &R, alloc: Global, given: &str, sink: &mut MemSink) -> Result<Status, Fail>
where
    R: Threads + Wait + Sync + AllocGlobal,
{
    let words = (GivenWords::of(alloc, given)?, alloc);
    let document = LEAST.as_bytes().to_vec(alloc)?;
    let mut source = MemSource::make(document, 100, vec![in alloc]?);
    Ok(run_words(&words, rt, &mut source, sink))
}

/// What is printed of these words, by the status.
fn printed(words: &str, status: &Status) -> &'static str {
    if *status != Status::Ok {
        ""
    } else if words.contains("--make") {
        ONE_ROUND
    } else {
        LEAST_TRACE
    }
}
