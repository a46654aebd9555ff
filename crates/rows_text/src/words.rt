//! Words of the command line, each list with the job that it asks for.

use cm_words::{Job, JobKind, WordsFault, asked};
use pages_cases::pages::{Teller, hold_lines};
use std::alloc::Global;
use std::test::Fail;

#[test]
fn words_ask_for_a_job_or_are_refused(rt: HostRuntime) -> Result<(), Fail> {
    hold_lines(rt.alloc(), &Asks, "", WORDS)
}

#[test]
fn want_of_memory_prints_as_its_line(rt: HostRuntime) -> Result<(), Fail> {
    let printed = format!(in rt.alloc(); "{}", WordsFault::Memory)?;
    assert!(rt; printed.as_str() == "out of memory");
    Ok(())
}

/// Tells the job that words ask for, between which bars stand, how many rounds are made, and how many workers there are
/// if not one; or why they are refused.
#[derive(Clone, Copy)]
struct Asks;

impl Teller for Asks {
    fn told(&self, alloc: Global, row: &str) -> Result<String, Fail> {
        let words = words(alloc, row.strip_suffix("\n").unwrap_or(row))?;
        match asked(alloc, words.as_slice()) {
            Ok(job) => told_of(alloc, &job),
            Err(fault) => Ok(format!(in alloc; "{fault}")?),
        }
    }
}

fn told_of(alloc: Global, job: &Job) -> Result<String, Fail> {
    let mut told = String::from_str(alloc, name_of(job.kind))?;
    if let Some(rounds) = job.make {
        write!(told, ", {rounds} made")?;
    }
    if job.workers != 1 {
        write!(told, ", {} workers", job.workers)?;
    }
    Ok(told)
}

fn name_of(kind: JobKind) -> &'static str {
    match kind {
        JobKind::Run => "run",
        JobKind::Steps => "steps",
        JobKind::Live => "live",
        JobKind::Upgrade => "upgrade",
        JobKind::Check => "check",
        JobKind::Plan => "plan",
    }
}

/// The words of a row; of an empty one none.
fn words(alloc: Global, row: &str) -> Result<Vec<String>, Fail> {
    let mut words = Vec::new(alloc);
    if row.is_empty() {
        return Ok(words);
    }
    for word in row.split('|') {
        words.push(String::from_str(alloc, word)?)?;
    }
    Ok(words)
}

/// The four jobs, with hyphens that end the options and with a number of rounds; and what is refused.
const WORDS: &str = r"run => run
steps => steps
live => live
run|-- => run
--|run => run
steps|-- => steps
--|steps => steps
live|-- => live
--|live => live
upgrade => upgrade
upgrade|-- => upgrade
--|upgrade => upgrade
check => check
check|-- => check
--|check => check
plan => plan
plan|-- => plan
--|plan => plan
run|--make|1 => run, 1 made
run|--make|1000 => run, 1000 made
run|--make=5 => run, 5 made
--make|5|run => run, 5 made
--make=5|run => run, 5 made
--make|5|--|run => run, 5 made
--make|5|run|-- => run, 5 made
run|--make|05 => run, 5 made
steps|--make|0012 => steps, 12 made
live|--make|5 => live, 5 made
--make=1000|live => live, 1000 made
run|--workers|1 => run
run|--workers|2 => run, 2 workers
steps|--workers|8 => steps, 8 workers
live|--workers=3 => live, 3 workers
--workers|4|run => run, 4 workers
run|--make|1|--workers|4 => run, 1 made, 4 workers
run|--workers=4|--make=1 => run, 1 made, 4 workers
 => usage: cm run|steps|live|upgrade|check|plan [--make N] [--workers N]
walk => usage: cm run|steps|live|upgrade|check|plan [--make N] [--workers N]
Run => usage: cm run|steps|live|upgrade|check|plan [--make N] [--workers N]
run\s => usage: cm run|steps|live|upgrade|check|plan [--make N] [--workers N]
runs => usage: cm run|steps|live|upgrade|check|plan [--make N] [--workers N]
| => usage: cm run|steps|live|upgrade|check|plan [--make N] [--workers N]
run|run => usage: cm run|steps|live|upgrade|check|plan [--make N] [--workers N]
run|steps => usage: cm run|steps|live|upgrade|check|plan [--make N] [--workers N]
-- => usage: cm run|steps|live|upgrade|check|plan [--make N] [--workers N]
--|-- => usage: cm run|steps|live|upgrade|check|plan [--make N] [--workers N]
--|run|-- => usage: cm run|steps|live|upgrade|check|plan [--make N] [--workers N]
- => usage: cm run|steps|live|upgrade|check|plan [--make N] [--workers N]
--help => usage: cm run|steps|live|upgrade|check|plan [--make N] [--workers N]
run|--help => usage: cm run|steps|live|upgrade|check|plan [--make N] [--workers N]
-h => usage: cm run|steps|live|upgrade|check|plan [--make N] [--workers N]
--version => usage: cm run|steps|live|upgrade|check|plan [--make N] [--workers N]
help => usage: cm run|steps|live|upgrade|check|plan [--make N] [--workers N]
Live => usage: cm run|steps|live|upgrade|check|plan [--make N] [--workers N]
lives => usage: cm run|steps|live|upgrade|check|plan [--make N] [--workers N]
run|live => usage: cm run|steps|live|upgrade|check|plan [--make N] [--workers N]
Upgrade => usage: cm run|steps|live|upgrade|check|plan [--make N] [--workers N]
upgrades => usage: cm run|steps|live|upgrade|check|plan [--make N] [--workers N]
upgrade|run => usage: cm run|steps|live|upgrade|check|plan [--make N] [--workers N]
upgrade|--make|5 => usage: cm run|steps|live|upgrade|check|plan [--make N] [--workers N]
--make=5|upgrade => usage: cm run|steps|live|upgrade|check|plan [--make N] [--workers N]
upgrade|--make|1001 => usage: cm run|steps|live|upgrade|check|plan [--make N] [--workers N]
upgrade|--make => usage: cm run|steps|live|upgrade|check|plan [--make N] [--workers N]
Check => usage: cm run|steps|live|upgrade|check|plan [--make N] [--workers N]
checks => usage: cm run|steps|live|upgrade|check|plan [--make N] [--workers N]
check|run => usage: cm run|steps|live|upgrade|check|plan [--make N] [--workers N]
check|--make|5 => usage: cm run|steps|live|upgrade|check|plan [--make N] [--workers N]
Plan => usage: cm run|steps|live|upgrade|check|plan [--make N] [--workers N]
plan|run => usage: cm run|steps|live|upgrade|check|plan [--make N] [--workers N]
plan|--make|5 => usage: cm run|steps|live|upgrade|check|plan [--make N] [--workers N]
plan|--workers|2 => usage: cm run|steps|live|upgrade|check|plan [--make N] [--workers N]
--make=5|check => usage: cm run|steps|live|upgrade|check|plan [--make N] [--workers N]
live|--make => usage: cm run|steps|live|upgrade|check|plan [--make N] [--workers N]
live|--make|0 => usage: cm run|steps|live|upgrade|check|plan [--make N] [--workers N]
live|--make|1001 => usage: cm run|steps|live|upgrade|check|plan [--make N] [--workers N]
--make|5 => usage: cm run|steps|live|upgrade|check|plan [--make N] [--workers N]
run|--make => usage: cm run|steps|live|upgrade|check|plan [--make N] [--workers N]
run|--make= => usage: cm run|steps|live|upgrade|check|plan [--make N] [--workers N]
run|--mak|5 => usage: cm run|steps|live|upgrade|check|plan [--make N] [--workers N]
run|--make|0 => usage: cm run|steps|live|upgrade|check|plan [--make N] [--workers N]
run|--make|0000 => usage: cm run|steps|live|upgrade|check|plan [--make N] [--workers N]
run|--make|1001 => usage: cm run|steps|live|upgrade|check|plan [--make N] [--workers N]
run|--make|00001 => usage: cm run|steps|live|upgrade|check|plan [--make N] [--workers N]
run|--make|+5 => usage: cm run|steps|live|upgrade|check|plan [--make N] [--workers N]
run|--make|-5 => usage: cm run|steps|live|upgrade|check|plan [--make N] [--workers N]
run|--make|5x => usage: cm run|steps|live|upgrade|check|plan [--make N] [--workers N]
run|--make|\s5 => usage: cm run|steps|live|upgrade|check|plan [--make N] [--workers N]
run|--make|five => usage: cm run|steps|live|upgrade|check|plan [--make N] [--workers N]
--make|run => usage: cm run|steps|live|upgrade|check|plan [--make N] [--workers N]
--make|run|5 => usage: cm run|steps|live|upgrade|check|plan [--make N] [--workers N]
run|--make|1|--make|2 => usage: cm run|steps|live|upgrade|check|plan [--make N] [--workers N]
run|--make|1|--make|1 => usage: cm run|steps|live|upgrade|check|plan [--make N] [--workers N]
run|--|--make|5 => usage: cm run|steps|live|upgrade|check|plan [--make N] [--workers N]
run|--workers => usage: cm run|steps|live|upgrade|check|plan [--make N] [--workers N]
run|--workers= => usage: cm run|steps|live|upgrade|check|plan [--make N] [--workers N]
run|--workers|0 => usage: cm run|steps|live|upgrade|check|plan [--make N] [--workers N]
run|--workers|9 => usage: cm run|steps|live|upgrade|check|plan [--make N] [--workers N]
run|--workers|10 => usage: cm run|steps|live|upgrade|check|plan [--make N] [--workers N]
run|--workers|02 => usage: cm run|steps|live|upgrade|check|plan [--make N] [--workers N]
run|--workers|+2 => usage: cm run|steps|live|upgrade|check|plan [--make N] [--workers N]
run|--workers|-2 => usage: cm run|steps|live|upgrade|check|plan [--make N] [--workers N]
run|--workers|2x => usage: cm run|steps|live|upgrade|check|plan [--make N] [--workers N]
run|--workers|\s2 => usage: cm run|steps|live|upgrade|check|plan [--make N] [--workers N]
run|--workers|two => usage: cm run|steps|live|upgrade|check|plan [--make N] [--workers N]
run|--worker|2 => usage: cm run|steps|live|upgrade|check|plan [--make N] [--workers N]
run|--workers|2|--workers|2 => usage: cm run|steps|live|upgrade|check|plan [--make N] [--workers N]
run|--workers|9|--make|1 => usage: cm run|steps|live|upgrade|check|plan [--make N] [--workers N]
--workers|2 => usage: cm run|steps|live|upgrade|check|plan [--make N] [--workers N]
--workers|run => usage: cm run|steps|live|upgrade|check|plan [--make N] [--workers N]
upgrade|--workers|1 => usage: cm run|steps|live|upgrade|check|plan [--make N] [--workers N]
upgrade|--workers|2 => usage: cm run|steps|live|upgrade|check|plan [--make N] [--workers N]
check|--workers|1 => usage: cm run|steps|live|upgrade|check|plan [--make N] [--workers N]
--workers=8|check => usage: cm run|steps|live|upgrade|check|plan [--make N] [--workers N]
run|--|--workers|2 => usage: cm run|steps|live|upgrade|check|plan [--make N] [--workers N]";
